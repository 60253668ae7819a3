// Kind 9: the plain engine's list.
use crate::{record, rooms};

// The list in the first words of out; more than there are is no call.
fn plain_in(image: &[u8], from: u64, out: &mut [u64], room: usize) -> engine::PlainReply {
    if room <= out.len() {
        return panel_routes::panel_routes_plain_list(image, from, &mut out[..room]);
    }
    engine::PlainReply {
        refusal: u64::MAX,
        place: 0,
        written: 0,
        words: 0,
    }
}

pub fn is_plain(image: &[u8], body: &[u8], arguments: usize, at: usize, end: usize) -> bool {
    let from = record::next(body, arguments, 0);
    let room = record::next(body, arguments, 1);
    let mut out = rooms::marked();
    let r = plain_in(image, from, &mut out, room as usize);
    let reply = [r.refusal, r.place, r.written, r.words];
    let out_at = record::onward(at, 4);
    record::is_words(&reply, body, at)
        && out == rooms::left(0, body, out_at, r.words)
        && record::onward(out_at, r.words) == end
}
