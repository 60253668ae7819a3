// Kind 6: the search.
use crate::{record, rooms};
use std::array;

// More scores than any record has.
const SCORES: usize = 64;

// The scores behind the words of arguments that come before them.
fn scores_of(body: &[u8], arguments: usize) -> [f64; SCORES] {
    array::from_fn(|i| doubles::of_bits(record::next(body, arguments, 9 + i)))
}

// The search on the first scores, in the first words of each room; more than there are is no call.
fn search_in(
    image: &[u8],
    body: &[u8],
    arguments: usize,
    scores: &[f64],
    frames: &mut [u64],
    kept: &mut [u64],
    kept_scores: &mut [f64],
) -> search::SearchReply {
    let b = record::budget_of(body, arguments);
    let frame_words = record::next(body, arguments, 5) as usize;
    let kept_words = record::next(body, arguments, 6) as usize;
    let kept_count = record::next(body, arguments, 7) as usize;
    let count = record::next(body, arguments, 8) as usize;
    if count <= scores.len()
        && frame_words <= frames.len()
        && kept_words <= kept.len()
        && kept_count <= kept_scores.len()
    {
        panel_routes::panel_routes_search(
            image,
            b,
            &scores[..count],
            &mut frames[..frame_words],
            &mut kept[..kept_words],
            &mut kept_scores[..kept_count],
        )
    } else {
        no_call()
    }
}

// No recorded answer.
fn no_call() -> search::SearchReply {
    search::SearchReply {
        refusal: u64::MAX,
        place: 0,
        status: 0,
        work: 0,
        evaluations: 0,
        natives: 0,
        donors: 0,
        non_native: 0,
        mixed: 0,
        mixed_identity: 0,
        switches: 0,
        families: 0,
        optima: 0,
        discarded: 0,
        frames: 0,
        pending: 0,
    }
}

fn is_reply(r: search::SearchReply, body: &[u8], at: usize) -> bool {
    let words = [
        r.refusal,
        r.place,
        r.status,
        r.work,
        r.evaluations,
        r.natives,
        r.donors,
        r.non_native,
        r.mixed,
        r.mixed_identity,
        r.switches,
        r.families,
        r.optima,
        r.discarded,
        r.frames,
        r.pending,
    ];
    record::is_words(&words, body, at)
}

// The frames of an answer, a pending child counted.
fn frames_of(body: &[u8], at: usize) -> u64 {
    let pending = u64::from(record::next(body, at, 15) == 1);
    record::next(body, at, 14).saturating_add(pending)
}

// The assignments kept: an incumbent where there was an evaluation, and the tied optima.
fn kept_of(body: &[u8], at: usize) -> u64 {
    if record::next(body, at, 4) > 0 {
        record::next(body, at, 12).saturating_add(1)
    } else {
        0
    }
}

// The scores of the n assignments kept, in their places of the room.
fn lay_scores(room: &mut [u64], body: &[u8], at: usize, n: u64) {
    let mut here = at;
    for i in 0..n {
        rooms::put(room, i as usize, record::next(body, here, 0));
        let words = record::next(body, here, 1);
        here = record::onward(record::onward(here, 2), words);
    }
}

// The words of the n assignments kept, each in its own slot of the room; where the last of them ends.
fn lay_slots(room: &mut [u64], body: &[u8], at: usize, n: u64, slot: usize) -> usize {
    let mut here = at;
    let mut place: usize = 0;
    for _ in 0..n {
        let words = record::next(body, here, 1);
        here = record::onward(here, 2);
        rooms::lay(room, place, body, here, words);
        here = record::onward(here, words);
        place = place.saturating_add(slot);
    }
    here
}

// What the record says was kept, to its end.
fn is_kept(
    n: rooms::Sizes,
    body: &[u8],
    at: usize,
    count: u64,
    end: usize,
    kept: &[u64; rooms::WORDS],
    scores: &[f64; rooms::WORDS],
) -> bool {
    let mut words = rooms::left(n.kept, body, at, 0);
    let mut bits = rooms::left(n.scores, body, at, 0);
    let last = lay_slots(&mut words, body, at, count, n.slot);
    lay_scores(&mut bits, body, at, count);
    *kept == words && rooms::is_bits(scores, &bits) && last == end
}

pub fn is_search(image: &[u8], body: &[u8], arguments: usize, at: usize, end: usize) -> bool {
    let scores = scores_of(body, arguments);
    let mut frames = rooms::marked();
    let mut kept = rooms::marked();
    let mut kept_scores = rooms::marked_doubles();
    let r = search_in(
        image,
        body,
        arguments,
        &scores,
        &mut frames,
        &mut kept,
        &mut kept_scores,
    );
    let n = rooms::needed(image, record::budget_of(body, arguments), r.refusal);
    let from = record::onward(at, 16);
    let frame_words = rooms::frame_words(frames_of(body, at));
    let kept_at = record::onward(from, frame_words);
    is_reply(r, body, at)
        && frames == rooms::left(n.frames, body, from, frame_words)
        && is_kept(
            n,
            body,
            kept_at,
            kept_of(body, at),
            end,
            &kept,
            &kept_scores,
        )
}
