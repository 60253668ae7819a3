// A record's parts (oracle/README.md, "Records"). Every reader answers 0 where a record has nothing.
ghost use Rattle.std.specs.Prelude.{◌≤◌};

// The word at a byte offset, or 0 past the end.
pub fn word(s: &[u8], at: usize) -> u64 {
    match s.len().checked_sub(8) {
        Some(last) if at <= last => storage::word_at(s, at),
        _ => 0,
    }
}

// A head of five words: the kind, the bytes of the whole record, of the image, the argument words, the expected words.
#[derive(Clone, Copy, PartialEq, Eq, Debug)]
pub struct Head {
    pub kind: u64,
    pub whole: u64,
    pub image: u64,
    pub arguments: u64,
    pub expected: u64,
}

pub fn head_of(s: &[u8]) -> Head {
    Head {
        kind: word(s, 0),
        whole: word(s, 8),
        image: word(s, 16),
        arguments: word(s, 24),
        expected: word(s, 32),
    }
}

// The image's bytes with zeros up to a multiple of 8; a larger image than any record has is none.
pub fn padded(image: u64) -> usize
    ensures { result ≤ 4096 }
{
    (image.min(4096).div_ceil(8) * 8) as usize
}

// Where the expected words begin in the body.
pub fn expected_at(h: Head) -> usize {
    if h.arguments > 512 {
        8192
    } else {
        padded(h.image) + 8 * h.arguments as usize
    }
}

// Word i behind a byte offset.
pub fn next(body: &[u8], at: usize, i: usize) -> u64 {
    if at > 16384 || i > 512 {
        0
    } else {
        word(body, at + 8 * i)
    }
}

// The byte offset n words on; past every record where n is more than a record has.
pub fn onward(at: usize, n: u64) -> usize {
    if at > 16384 {
        at
    } else if n > 512 {
        16385
    } else {
        at + 8 * n as usize
    }
}

// The byte offset n bytes on; past every record where n is more than a record has.
fn behind(at: usize, n: u64) -> usize {
    if at > 16384 {
        at
    } else if n > 4096 {
        16385
    } else {
        at + n as usize
    }
}

// The bytes that a byte offset has: how many, then the bytes; none where the body ends before them.
pub fn bytes(body: &[u8], at: usize) -> Option<&[u8]> {
    let from = onward(at, 1);
    body.get(from..behind(from, next(body, at, 0)))
}

// The byte offset behind bytes and their number.
pub fn past(bytes: &[u8], at: usize) -> usize {
    onward(onward(at, 1), padded(bytes.len() as u64) as u64 / 8)
}

// Where the record ends.
pub fn end_at(h: Head) -> usize {
    onward(expected_at(h), h.expected)
}

// Whether the words are those behind a byte offset.
pub fn is_words(words: &[u64], body: &[u8], at: usize) -> bool {
    words
        .iter()
        .enumerate()
        .all(|(i, w)| *w == next(body, at, i))
}

// The bits of a double, of every NaN the same.
pub fn bits_of(x: f64) -> u64 {
    if x.is_nan() {
        0x7ff8_0000_0000_0000
    } else {
        x.to_bits()
    }
}

// The five words of a budget.
pub fn budget_of(body: &[u8], arguments: usize) -> search::SearchBudget {
    search::SearchBudget {
        max_work: next(body, arguments, 0),
        max_evaluations: next(body, arguments, 1),
        max_frontier: next(body, arguments, 2),
        max_optima: next(body, arguments, 3),
        tie_width: doubles::of_bits(next(body, arguments, 4)),
    }
}
