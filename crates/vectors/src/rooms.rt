// The rooms that a call is lent: a pattern before it, and afterwards what a record says, zeros in the rest of the needed part, and
// the pattern behind it (01, "Room left behind").
ghost use Rattle.std.specs.Prelude.{◌≤◌};

use crate::record;
use std::array;

// No record needs a longer room.
pub const WORDS: usize = 4096;

const MARK: u64 = 0xa5a5_a5a5_a5a5_a5a5;

// What stands at place i before a call; as bits they are a number's.
fn mark(i: usize) -> u64 {
    MARK.wrapping_add(i as u64)
}

pub fn marked() -> [u64; WORDS] {
    array::from_fn(|i| mark(i))
}

pub fn marked_doubles() -> [f64; WORDS] {
    array::from_fn(|i| doubles::of_bits(mark(i)))
}

pub fn put(room: &mut [u64], i: usize, w: u64) {
    if let Some(word) = room.get_mut(i) {
        *word = w;
    }
}

// The n words behind a byte offset, from a place of the room on.
pub fn lay(room: &mut [u64], place: usize, body: &[u8], at: usize, n: u64) {
    if place > WORDS || n > WORDS as u64 {
        return;
    }
    for i in 0..n as usize {
        put(room, place + i, record::next(body, at, i));
    }
}

// A room afterwards: the n words behind a byte offset at its start, zeros in the rest of the needed words.
pub fn left(needed: usize, body: &[u8], at: usize, n: u64) -> [u64; WORDS] {
    let mut room = marked();
    room[..needed.min(WORDS)].fill(0);
    lay(&mut room, 0, body, at, n);
    room
}

// The words of n frames; of more than a room has, more than a record has.
pub fn frame_words(n: u64) -> u64 {
    if n > WORDS as u64 { n } else { 10 * n }
}

pub fn is_bits(doubles: &[f64; WORDS], bits: &[u64; WORDS]) -> bool {
    doubles
        .iter()
        .zip(bits)
        .all(|(x, b)| record::bits_of(*x) == *b)
}

// The needed words of the rooms.
#[derive(Clone, Copy, PartialEq, Eq, Debug, Default)]
pub struct Sizes {
    pub frames: usize,
    pub slot: usize,
    pub kept: usize,
    pub scores: usize,
}

// The path count of a family, by where the image's header says that the families begin.
fn path_count(image: &[u8], i: usize) -> u64 {
    let at = record::word(image, 48);
    if at > 4096 {
        0
    } else {
        record::next(image, at as usize, i)
    }
}

// The most paths of a family; no image of a record has a family past the 512th.
fn most_paths(image: &[u8]) -> u64 {
    let n = record::word(image, 16).min(512) as usize;
    (0..n).map(|i| path_count(image, i)).max().unwrap_or(0)
}

fn slot_words(paths: usize, frontier: usize) -> usize
    ensures { result ≤ 4162 }
{
    if paths > 64 || frontier > 1024 {
        0
    } else {
        2 + paths + 4 * paths.max(frontier)
    }
}

// By 01's bounds the sizes are small; past them a call refuses.
#[tactic(auto, using(crate::proofs::Laws::kept_fits))]
fn needed_by(paths: usize, frontier: usize, optima: usize) -> Sizes {
    if frontier > 1024 || optima > 1024 {
        return Sizes::default();
    }
    let slot = slot_words(paths, frontier);
    Sizes {
        frames: (frontier + 1) * 10,
        slot,
        kept: (optima + 2) * slot,
        scores: optima + 1,
    }
}

// What a walk needs by its panel and its budget; a call that refuses before it walks needs nothing.
pub fn needed(image: &[u8], b: search::SearchBudget, refusal: u64) -> Sizes {
    match refusal {
        0 | 14 | 15 => needed_by(
            most_paths(image) as usize,
            b.max_frontier as usize,
            b.max_optima as usize,
        ),
        _ => Sizes::default(),
    }
}
