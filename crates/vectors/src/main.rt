// Replays recorded answers of the original (oracle/README.md has the records' form) against the proved calls and what the walk
// program prints, and says of each kind how many agreed and how many did not.

#![tactic(auto)]

mod assignments;
mod beds;
mod bounds;
mod listings;
mod lookups;
mod plain_lists;
mod printed;
mod record;
mod rooms;
mod searches;
mod spellings;

ghost use Rattle.std.specs.Prelude.{◌<◌};

use crate::record::Head;

// How many records' answers were ours, and how many were not.
#[derive(Clone, Copy, PartialEq, Eq, Debug, Default)]
struct Score {
    agreed: u64,
    other: u64,
}

impl Score {
    fn counted(self, is_same: bool) -> Score {
        Score {
            agreed: self.agreed.saturating_add(u64::from(is_same)),
            other: self.other.saturating_add(u64::from(!is_same)),
        }
    }
}

// Whether a record's answer is ours.
fn is_same(h: Head, body: &[u8]) -> bool {
    match body.get(..h.image as usize) {
        Some(image) => answered(h, image, body),
        None => false,
    }
}

fn answered(h: Head, image: &[u8], body: &[u8]) -> bool {
    let arguments = record::padded(h.image);
    let at = record::expected_at(h);
    let end = record::end_at(h);
    match h.kind {
        1 => lookups::is_panel(image, body, at),
        2 => lookups::is_port(image, body, arguments, at),
        3 => lookups::is_bucket_of(image, body, arguments, at),
        4 => assignments::is_check(image, body, arguments, at),
        5 => listings::is_list(image, body, arguments, at, end),
        6 => searches::is_search(image, body, arguments, at, end),
        7 => printed::is_job(image, body, at, end),
        8 => bounds::is_bound(body, arguments, at, end),
        9 => plain_lists::is_plain(image, body, arguments, at, end),
        10 => spellings::is_letters(image, body, arguments, at, end),
        11 => spellings::is_spell(image, body, arguments, at, end),
        12 => beds::is_write(image, body, arguments, at, end),
        13 => beds::is_read(image, body, arguments, at, end),
        _ => false,
    }
}

// The kinds' names, in the order of their numbers; behind them that of every other.
const NAMES: [&str; 14] = [
    "panel", "port", "bucket", "check", "list", "search", "job", "bound", "plain", "letters",
    "spell", "write", "read", "unknown",
];

// A kind's place among the names.
fn place_of(kind: u64) -> usize
    ensures { result < 14 }
{
    if (1..=13).contains(&kind) {
        kind as usize - 1
    } else {
        13
    }
}

// Why no more records are read: the stream ends, or a record is none.
#[derive(Clone, Copy, PartialEq, Eq, Debug)]
enum Stop {
    End,
    Malformed,
}

// One record more: its kind, and whether its answer is ours. A head that is cut short ends the stream.
fn one_more() -> Result<(u64, bool), Stop> {
    let mut head = [0u8; 40];
    if io::read_full(0, &mut head) < 40 {
        return Err(Stop::End);
    }
    let h = record::head_of(&head);
    let mut room = io::buffer();
    if !(40..=4136).contains(&h.whole) {
        return Err(Stop::Malformed);
    }
    let n = h.whole as usize - 40;
    io::read_full(0, &mut room[..n]);
    Ok((h.kind, is_same(h, &room)))
}

fn print(name: &str, s: Score) {
    io::write_all(1, name.as_bytes());
    io::write_all(1, b" ");
    io::print_decimal(1, s.agreed);
    io::write_all(1, b" agree, ");
    io::print_decimal(1, s.other);
    io::write_all(1, b" differ\n");
}

fn main() {
    let mut scores = [Score::default(); 14];
    for _ in 0..1000000 {
        match one_more() {
            Ok((kind, same)) => {
                let place = place_of(kind);
                scores[place] = scores[place].counted(same);
            }
            Err(Stop::Malformed) => {
                scores[13] = scores[13].counted(false);
                break;
            }
            Err(Stop::End) => break,
        }
    }
    for (name, score) in NAMES.iter().zip(&scores) {
        print(name, *score);
    }
}
