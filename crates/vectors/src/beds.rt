// Kinds 12 and 13: routes written as BED, and read from it. The arguments of both begin with the table of names: how many bytes, then the bytes.
use crate::{record, rooms, spellings};

// The lines in the first bytes of out, of the first n words; more than there are is no call.
fn write_in(
    image: &[u8],
    names: &[u8],
    words: &[u64],
    n: usize,
    out: &mut [u8],
    room: usize,
) -> bed::BedReply {
    if n <= words.len() && room <= out.len() {
        return panel_routes::panel_routes_write_bed(image, names, &words[..n], &mut out[..room]);
    }
    bed::BedReply {
        refusal: u64::MAX,
        place: 0,
        length: 0,
    }
}

fn is_written(image: &[u8], names: &[u8], body: &[u8], rest: usize, at: usize, end: usize) -> bool {
    let room = record::next(body, rest, 0);
    let n = record::next(body, rest, 1);
    let words = rooms::left(0, body, record::onward(rest, 2), n);
    let mut out = [spellings::MARK; rooms::WORDS];
    let r = write_in(image, names, &words, n as usize, &mut out, room as usize);
    let reply = [r.refusal, r.place, r.length];
    let out_at = record::onward(at, 3);
    record::is_words(&reply, body, at)
        && spellings::is_left(&out, body, out_at, r.length)
        && record::onward(out_at, record::padded(r.length) as u64 / 8) == end
}

pub fn is_write(image: &[u8], body: &[u8], arguments: usize, at: usize, end: usize) -> bool {
    let Some(names) = record::bytes(body, arguments) else {
        return false;
    };
    let rest = record::past(names, arguments);
    is_written(image, names, body, rest, at, end)
}

// The words of the lines in the first words of out; more than there are is no call.
fn read_in(
    image: &[u8],
    names: &[u8],
    family: u64,
    text: &[u8],
    out: &mut [u64],
    room: usize,
) -> bed::BedReply {
    if room <= out.len() {
        return panel_routes::panel_routes_read_bed(image, names, family, text, &mut out[..room]);
    }
    bed::BedReply {
        refusal: u64::MAX,
        place: 0,
        length: 0,
    }
}

// The text stands behind the room's words and the family, as the table does: how many bytes, then the bytes.
fn is_held(image: &[u8], names: &[u8], body: &[u8], rest: usize, at: usize, end: usize) -> bool {
    let room = record::next(body, rest, 0);
    let family = record::next(body, rest, 1);
    let Some(text) = record::bytes(body, record::onward(rest, 2)) else {
        return false;
    };
    let mut out = rooms::marked();
    let r = read_in(image, names, family, text, &mut out, room as usize);
    let reply = [r.refusal, r.place, r.length];
    let out_at = record::onward(at, 3);
    record::is_words(&reply, body, at)
        && out == rooms::left(0, body, out_at, r.length)
        && record::onward(out_at, r.length) == end
}

pub fn is_read(image: &[u8], body: &[u8], arguments: usize, at: usize, end: usize) -> bool {
    let Some(names) = record::bytes(body, arguments) else {
        return false;
    };
    let rest = record::past(names, arguments);
    is_held(image, names, body, rest, at, end)
}
