// A line of BED: its columns, numbers in decimal, slot and strand read; the line written.
#![tactic(auto)]

ghost use Rattle.std.specs.Prelude.{◌≡◌, true, [], ◌∷◌, ◌++◌, ◌<◌, length, drop};
ghost use Rattle.std.specs.Bool.{then_some};
ghost use Rattle.search.specs.Sheet.{decimal, turn_text};
ghost use Rattle.text.specs.Inner.{Put};
ghost use Rattle.names.specs.Names.{same, cut, lines_of};
ghost use Rattle.names.specs.Inner.{Spans};
ghost use Rattle.rows.specs.Rows.{value_of, no_leading_zero, is_number, is_slot, is_turn, row_text};
ghost use Rattle.rows.specs.Inner.{fits, RowRead};

// A line that has the form: its name, where it stands, and what else it holds.
#[derive(Clone, Copy, PartialEq, Eq, Debug)]
pub struct Row<'a> {
    pub name: &'a [u8],
    pub start: u64,
    pub end: u64,
    pub slot: u64,
    pub reverse: bool,
}

// ---- numbers

// The number of these digits, if it is below 2^64.
fn digits_of(s: &[u8]) -> Option<u64>
    ensures { result ≡ then_some (fits s.now) (value_of s.now) }
{
    let mut value: u64 = 0;
    for x in s {
        if !x.is_ascii_digit() {
            return None;
        }
        value = value.checked_mul(10)?.checked_add(u64::from(*x - b'0'))?;
    }
    Some(value)
}

// Whether there is one digit, or the first is not 0.
fn leads(s: &[u8]) -> bool
    ensures { result ≡ no_leading_zero s.now }
{
    match s {
        [] => false,
        [_] => true,
        [first, ..] => *first != b'0',
    }
}

pub fn number_of(s: &[u8]) -> Option<u64>
    ensures { result ≡ then_some (is_number s.now) (value_of s.now) }
{
    if leads(s) { digits_of(s) } else { None }
}

// ---- slot, strand

fn slot_of(s: &[u8]) -> Option<u64>
    ensures { result ≡ then_some (is_slot s.now) (value_of (drop 1 s.now)) }
{
    number_of(s.strip_prefix(b"r")?)
}

// Whether the strand is the reverse one.
fn turn_of(s: &[u8]) -> Option<bool>
    ensures { result ≡ then_some (is_turn s.now) (same s.now (turn_text true)) }
{
    match s {
        b"+" => Some(false),
        b"-" => Some(true),
        _ => None,
    }
}

// ---- the columns of a line

// Of a line of six columns.
fn row_in<'a>(line: &'a [u8], starts: &[usize; 7], ends: &[usize; 7]) -> Option<Row<'a>>
    requires { Spans line.now (cut 9 line.now) starts.now ends.now 6 × (length (cut 9 line.now) ≡ 6) }
    ensures { RowRead line.now result }
{
    let name = names::part_at(line, starts, ends, 0);
    if !names::is_name(name) {
        return None;
    }
    let start = number_of(names::part_at(line, starts, ends, 1))?;
    let end = number_of(names::part_at(line, starts, ends, 2))?;
    let slot = slot_of(names::part_at(line, starts, ends, 3))?;
    if names::part_at(line, starts, ends, 4) != b"0".as_slice() {
        return None;
    }
    let reverse = turn_of(names::part_at(line, starts, ends, 5))?;
    Some(Row {
        name,
        start,
        end,
        slot,
        reverse,
    })
}

// The line, if it has the form of a row.
pub fn row_of(line: &[u8]) -> Option<Row<'_>>
    ensures { RowRead line.now result }
{
    let mut starts = [0usize; 7];
    let mut ends = [0usize; 7];
    if names::cut_into(line, b'\t', &mut starts, &mut ends) == 6 {
        row_in(line, &starts, &ends)
    } else {
        None
    }
}

// ---- written

fn put_tabbed(out: &mut [u8], at: usize, x: u64) -> usize
    ensures { Put (9 ∷ decimal x) out.old at out.new result }
{
    let next = text::put_byte(out, at, b'\t');
    text::put_number(out, next, x)
}

fn put_slot(out: &mut [u8], at: usize, slot: u64) -> usize
    ensures { Put (9 ∷ 114 ∷ decimal slot) out.old at out.new result }
{
    let next = text::put_text(out, at, b"\tr");
    text::put_number(out, next, slot)
}

// Score, strand and line feed.
fn put_turn(out: &mut [u8], at: usize, reverse: bool) -> usize
    ensures { Put (9 ∷ 48 ∷ 9 ∷ (turn_text reverse ++ (10 ∷ []))) out.old at out.new result }
{
    if reverse {
        text::put_text(out, at, b"\t0\t-\n")
    } else {
        text::put_text(out, at, b"\t0\t+\n")
    }
}

// The line of a segment.
pub fn put_row(
    out: &mut [u8],
    at: usize,
    table: &names::NameTable,
    slot: u64,
    s: evaluate::Segment,
) -> usize
    requires { s.source < table.now.lanes }
    ensures { Put (row_text (lines_of table.now.names.now) slot s ++ (10 ∷ [])) out.old at out.new result }
{
    let start = text::put_text(out, at, table.name(s.source as usize));
    let end = put_tabbed(out, start, s.start);
    let route = put_tabbed(out, end, s.end);
    let turn = put_slot(out, route, slot);
    put_turn(out, turn, s.reverse)
}
