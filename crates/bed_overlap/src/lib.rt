// Refusal 31 of a text's lines: whether two segments share a base. Their words are not all in one room: each block of them is held against each later one.
#![tactic(auto)]

ghost use Rattle.std.specs.Prelude.{◌≡◌, ◌&&◌, ◌++◌, ◌+◌, ◌*◌, ◌≤◌, length, drop, get_or};
ghost use Rattle.evaluate.specs.Segments.{apart};
ghost use Rattle.words.specs.Inner.{segments_of};
ghost use Rattle.names.specs.Names.{lines_of};
ghost use Rattle.texts.specs.Inner.{Lined};
ghost use Rattle.bed_overlap.specs.Inner.{segments_from, standing, BlockPut, FirstApart, NextApart, BlockApart};

// The lines of a block.
const BLOCK: usize = 1024;

// A block of lines whose segments have been put into a room: how many, and where the next line begins.
#[derive(Clone, Copy, PartialEq, Eq, Debug)]
struct Block {
    count: usize,
    next: usize,
}

// The segments of a block, from a word on.
fn put_block(room: &mut [u64], to: usize, table: &names::NameTable, text: &[u8], at: usize) -> Block
    requires { Lined text.now at × (to + 4096 ≤ length room.old) × (to ≤ 4097) }
    ensures { BlockPut (lines_of table.now.names.now) text.now at to room.old room.new result }
{
    let mut from = at;
    for i in 0..BLOCK {
        if text.len() <= from {
            return Block {
                count: i,
                next: from,
            };
        }
        let l = texts::line_at(table, text, from);
        words::put_segment(room, to + evaluate::Segment::WORDS * i, l.segment);
        from = l.next;
    }
    Block {
        count: BLOCK,
        next: from,
    }
}

// Whether no two segments of the route at the start of these words share a base.
fn is_route_apart(words: &[u64], n: usize) -> bool
    requires { (n ≡ 1 + 4 * get_or words.now 0 0) × (n ≤ length words.now) × (n ≤ 65536) }
    ensures { result ≡ apart (segments_of (get_or words.now 0 0) (drop 1 words.now)) }
{
    overlap::are_apart(&words[0..n], 0, 1)
}

// The same of the first ones in a room, whose count is put before them.
fn are_first_apart(room: &mut [u64], count: usize) -> bool
    requires { (1 + 4 * count ≤ length room.old) × (count ≤ 2048) }
    ensures { FirstApart count room.old room.new result }
{
    room[0] = count as u64;
    is_route_apart(room, 1 + evaluate::Segment::WORDS * count)
}

// The same of the first ones and a block put behind them, and where the next block begins.
fn next_if_apart(
    room: &mut [u64],
    count: usize,
    table: &names::NameTable,
    text: &[u8],
    at: usize,
) -> Option<usize>
    requires { Lined text.now at × (8193 ≤ length room.old) × (count ≤ 1024) }
    ensures { NextApart (lines_of table.now.names.now) text.now at count room.old room.new result }
{
    let to = 1 + evaluate::Segment::WORDS * count;
    let b = put_block(room, to, table, text, at);
    are_first_apart(room, count + b.count).then_some(b.next)
}

// The same of the first ones and each later block in turn; where there is none, of the first ones alone.
fn are_later_apart(
    room: &mut [u64],
    count: usize,
    table: &names::NameTable,
    text: &[u8],
    at: usize,
) -> bool
    requires { Lined text.now at × (8193 ≤ length room.old) × (count ≤ 1024) }
    ensures { (result && apart (segments_from (lines_of table.now.names.now) text.now at)) ≡ apart (standing count room.old ++ segments_from (lines_of table.now.names.now) text.now at) }
{
    let mut from = at;
    while let Some(next) = next_if_apart(room, count, table, text, from) {
        if text.len() <= next {
            return true;
        }
        from = next;
    }
    false
}

// A block against itself and each later one; the last one has itself alone. Where the next one begins.
fn block_if_apart(
    room: &mut [u64],
    table: &names::NameTable,
    text: &[u8],
    at: usize,
) -> Option<usize>
    requires { Lined text.now at × (8193 ≤ length room.old) }
    ensures { BlockApart (lines_of table.now.names.now) text.now at result }
{
    let b = put_block(room, 1, table, text, at);
    are_later_apart(room, b.count, table, text, b.next).then_some(b.next)
}

// Whether no two segments of a text's lines share a base.
pub fn are_apart(table: &names::NameTable, text: &[u8]) -> bool
    requires { Lined text.now 0 }
    ensures { result ≡ apart (segments_from (lines_of table.now.names.now) text.now 0) }
{
    if bed_spread::is_spread(table, text) {
        return true;
    }
    let mut room = [0; 8193];
    let mut at = 0;
    while at < text.len() {
        match block_if_apart(&mut room, table, text, at) {
            Some(next) => at = next,
            None => return false,
        }
    }
    true
}
