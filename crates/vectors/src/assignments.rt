// Kind 4: the assignment check.
use crate::{record, rooms};

// The check of the first n words in the first words of out; more than there are is no call.
fn check_in(
    image: &[u8],
    words: &[u64],
    n: usize,
    out: &mut [u64],
    room: usize,
) -> evaluate::AssignmentReply {
    if n <= words.len() && room <= out.len() {
        return panel_routes::panel_routes_check_assignment(image, &words[..n], &mut out[..room]);
    }
    evaluate::AssignmentReply {
        refusal: u64::MAX,
        place: 0,
        words: 0,
    }
}

pub fn is_check(image: &[u8], body: &[u8], arguments: usize, at: usize) -> bool {
    let room = record::next(body, arguments, 0);
    let n = record::next(body, arguments, 1);
    let words = rooms::left(0, body, record::onward(arguments, 2), n);
    let mut out = rooms::marked();
    let r = check_in(image, &words, n as usize, &mut out, room as usize);
    let reply = [r.refusal, r.place, r.words];
    record::is_words(&reply, body, at)
        && out == rooms::left(0, body, record::onward(at, 3), r.words)
}
