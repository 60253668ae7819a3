// Kind 8: the lower bound.
use crate::{record, rooms};

// The bound of the first n words; more than there are is no call.
fn bound_in(words: &[u64], n: usize, background: f64) -> bound::BoundReply {
    if n <= words.len() {
        return panel_routes::panel_routes_lower_bound(&words[..n], background);
    }
    bound::BoundReply {
        refusal: u64::MAX,
        place: 0,
        given: 0,
        bound: 0.0,
    }
}

pub fn is_bound(body: &[u8], arguments: usize, at: usize, end: usize) -> bool {
    let background = doubles::of_bits(record::next(body, arguments, 0));
    let n = record::next(body, arguments, 1);
    let counts = rooms::left(0, body, record::onward(arguments, 2), n);
    let r = bound_in(&counts, n as usize, background);
    let reply = [r.refusal, r.place, r.given, record::bits_of(r.bound)];
    record::is_words(&reply, body, at) && record::onward(at, 4) == end
}
