// Kind 5: the listing.
use crate::{record, rooms};

// The listing in the first words of each room; more than there are is no call.
fn list_in(
    image: &[u8],
    body: &[u8],
    arguments: usize,
    frames: &mut [u64],
    slot: &mut [u64],
    out: &mut [u64],
) -> search::ListReply {
    let b = record::budget_of(body, arguments);
    let from = record::next(body, arguments, 5);
    let frame_words = record::next(body, arguments, 6) as usize;
    let slot_words = record::next(body, arguments, 7) as usize;
    let out_words = record::next(body, arguments, 8) as usize;
    if frame_words <= frames.len() && slot_words <= slot.len() && out_words <= out.len() {
        panel_routes::panel_routes_list(
            image,
            b,
            from,
            &mut frames[..frame_words],
            &mut slot[..slot_words],
            &mut out[..out_words],
        )
    } else {
        no_call()
    }
}

// No recorded answer.
fn no_call() -> search::ListReply {
    search::ListReply {
        refusal: u64::MAX,
        place: 0,
        status: 0,
        written: 0,
        words: 0,
        evaluations: 0,
    }
}

fn is_reply(r: search::ListReply, body: &[u8], at: usize) -> bool {
    let words = [
        r.refusal,
        r.place,
        r.status,
        r.written,
        r.words,
        r.evaluations,
    ];
    record::is_words(&words, body, at)
}

// The frames follow their count, which a refusal leaves out.
fn frames_at(at: usize, refusal: u64) -> usize {
    if refusal == 0 {
        record::onward(at, 7)
    } else {
        record::onward(at, 6)
    }
}

pub fn is_list(image: &[u8], body: &[u8], arguments: usize, at: usize, end: usize) -> bool {
    let mut frames = rooms::marked();
    let mut slot = rooms::marked();
    let mut out = rooms::marked();
    let r = list_in(image, body, arguments, &mut frames, &mut slot, &mut out);
    let n = rooms::needed(image, record::budget_of(body, arguments), r.refusal);
    let from = frames_at(at, r.refusal);
    let frame_words = rooms::frame_words(record::next(body, at, 6));
    let out_at = record::onward(from, frame_words);
    is_reply(r, body, at)
        && frames == rooms::left(n.frames, body, from, frame_words)
        && slot == rooms::left(n.slot, body, from, 0)
        && out == rooms::left(0, body, out_at, r.words)
        && record::onward(out_at, r.words) == end
}
