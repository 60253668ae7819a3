// Kinds 1 to 3: the panel's check, a port at a cut, a hub's bucket.
use crate::record::{bytes, is_words, next, onward, word};

pub fn is_panel(image: &[u8], body: &[u8], at: usize) -> bool {
    let r = panel_routes::panel_routes_check_panel(image);
    is_words(&[r.refusal, r.place], body, at)
}

// A port's word, as the four words that its letters make.
fn is_word(letters: &[u8; 32], body: &[u8], at: usize) -> bool {
    (0..4).all(|i| word(letters, 8 * i) == next(body, at, i))
}

pub fn is_port(image: &[u8], body: &[u8], arguments: usize, at: usize) -> bool {
    let lane = next(body, arguments, 0);
    let cut = next(body, arguments, 1);
    let reverse = next(body, arguments, 2) == 1;
    let r = panel_routes::panel_routes_port_at_cut(image, lane, cut, reverse);
    is_words(&[r.refusal, r.place, r.found, r.anchor], body, at)
        && is_word(&r.word, body, onward(at, 4))
}

// The word that a bucket's arguments hold: its length, then its bytes.
pub fn is_bucket_of(image: &[u8], body: &[u8], arguments: usize, at: usize) -> bool {
    let Some(letters) = bytes(body, arguments) else {
        return false;
    };
    let r = panel_routes::panel_routes_hub_bucket(image, letters);
    is_words(&[r.refusal, r.place, r.lo, r.hi], body, at)
}
