// Kinds 10 and 11: the lanes' letters, and crops spelled. The arguments of both begin with the letters: how many, then their bytes.
use crate::{record, rooms};

// What stands in a room of bytes before a call: no letter, and none of BED.
pub const MARK: u8 = 0xa5;

// Whether the room has the n bytes behind a byte offset at its start and is as it was behind them.
pub fn is_left(room: &[u8; rooms::WORDS], body: &[u8], at: usize, n: u64) -> bool {
    if at > 16384 {
        return false;
    }
    for (i, x) in room.iter().enumerate() {
        let there = if (i as u64) < n {
            body.get(at + i).copied().unwrap_or(0)
        } else {
            MARK
        };
        if *x != there {
            return false;
        }
    }
    true
}

fn is_checked(image: &[u8], letters: &[u8], body: &[u8], at: usize) -> bool {
    let r = panel_routes::panel_routes_check_letters(image, letters);
    let reply = [r.refusal, r.place];
    record::is_words(&reply, body, at)
}

pub fn is_letters(image: &[u8], body: &[u8], arguments: usize, at: usize, end: usize) -> bool {
    record::bytes(body, arguments).is_some_and(|letters| is_checked(image, letters, body, at))
        && record::onward(at, 2) == end
}

// The crop in the first bytes of out, of the first n words; more than there are is no call.
fn spell_in(
    image: &[u8],
    letters: &[u8],
    words: &[u64],
    body: &[u8],
    rest: usize,
    out: &mut [u8],
) -> spell::SpellReply {
    let room = record::next(body, rest, 0) as usize;
    let slot = record::next(body, rest, 1);
    let from = record::next(body, rest, 2);
    let to = record::next(body, rest, 3);
    let n = record::next(body, rest, 4) as usize;
    if n <= words.len() && room <= out.len() {
        return panel_routes::panel_routes_spell(
            image,
            letters,
            &words[..n],
            slot,
            from,
            to,
            &mut out[..room],
        );
    }
    spell::SpellReply {
        refusal: u64::MAX,
        place: 0,
        letters: 0,
    }
}

fn is_spelled(
    image: &[u8],
    letters: &[u8],
    body: &[u8],
    rest: usize,
    at: usize,
    end: usize,
) -> bool {
    let words = rooms::left(
        0,
        body,
        record::onward(rest, 5),
        record::next(body, rest, 4),
    );
    let mut out = [MARK; rooms::WORDS];
    let r = spell_in(image, letters, &words, body, rest, &mut out);
    let reply = [r.refusal, r.place, r.letters];
    let out_at = record::onward(at, 3);
    record::is_words(&reply, body, at)
        && is_left(&out, body, out_at, r.letters)
        && record::onward(out_at, record::padded(r.letters) as u64 / 8) == end
}

pub fn is_spell(image: &[u8], body: &[u8], arguments: usize, at: usize, end: usize) -> bool {
    let Some(letters) = record::bytes(body, arguments) else {
        return false;
    };
    let rest = record::past(letters, arguments);
    is_spelled(image, letters, body, rest, at, end)
}
