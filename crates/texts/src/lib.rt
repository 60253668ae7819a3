// A text of BED, line by line: whether it has the form, the segments of its lines, and the words that it holds.
#![tactic(auto)]

ghost use Rattle.std.specs.Prelude.{◌≡◌, ◌||◌, suc, ◌+◌, ◌-◌, ◌*◌, ◌≤◌, ◌<◌, leb, eqb, length, MatchOption};
ghost use Rattle.std.specs.Iterator.{at_most};
ghost use Rattle.std.proofs.lemmas.List.Edits.{sets};
ghost use Rattle.names.specs.Names.{lines_of};
ghost use Rattle.texts.specs.Bed.{gathered};
ghost use Rattle.texts.specs.Inner.{refusal_number, Scanned, Lined, LineAt, place_for, words_from, Holding};

// Why a text is not read: a line is not in the form, or a name is not in the table.
#[derive(Clone, Copy, PartialEq, Eq, Debug)]
pub enum TextRefusal {
    Form,
    UnknownName,
}

impl TextRefusal {
    pub fn number(self) -> u64
        ensures { result ≡ refusal_number self }
    {
        match self {
            TextRefusal::Form => 35,
            TextRefusal::UnknownName => 36,
        }
    }
}

// How many lines and routes a text has.
#[derive(Clone, Copy, PartialEq, Eq, Debug)]
pub struct Scan {
    pub lines: usize,
    pub routes: usize,
}

impl Scan {
    // Whether the words of so many lines and routes fit: nothing here wraps.
    pub fn fits(self, room: usize) -> bool
        ensures { result ≡ leb (2 + self.routes + 4 * self.lines) room }
    {
        2 <= room
            && self.routes <= room - 2
            && self.lines <= (room - 2 - self.routes) / evaluate::Segment::WORDS
    }
}

// A line of a text that has the form: its segment, its slot, and where the next one begins.
#[derive(Clone, Copy, PartialEq, Eq, Debug)]
pub struct Line {
    pub segment: evaluate::Segment,
    pub slot: u64,
    pub next: usize,
}

// Where the words of the next segment go: behind those so far, in the route whose count stands at `head`, of `routes` routes.
#[derive(Clone, Copy, PartialEq, Eq, Debug)]
pub struct Place {
    pub to: usize,
    pub head: usize,
    pub count: u64,
    pub routes: u64,
}

// ---- whether it has the form

// Whether a slot is that of the last of so many routes, or the next.
fn follows(slot: u64, routes: u64) -> bool
    ensures { result ≡ (eqb slot routes || eqb (suc slot) routes) }
{
    slot <= routes && routes - slot <= 1
}

// 35, 36, or how many lines and routes there are.
pub fn scan_text(table: &names::NameTable, text: &[u8]) -> Result<Scan, TextRefusal>
    ensures { Scanned (lines_of table.now.names.now) text.now result }
{
    let mut at: usize = 0;
    let mut lines: usize = 0;
    let mut routes: u64 = 0;
    let mut known = true;
    while at < text.len() {
        let e = names::place_of(text, at, b'\n');
        if text.len() <= e {
            return Err(TextRefusal::Form);
        }
        let Some(row) = rows::row_of(&text[at..e]) else {
            return Err(TextRefusal::Form);
        };
        if !follows(row.slot, routes) {
            return Err(TextRefusal::Form);
        }
        known = known && table.find(row.name).is_some();
        routes = row.slot + 1;
        lines += 1;
        at = e + 1;
    }
    if known {
        Ok(Scan {
            lines,
            routes: routes as usize,
        })
    } else {
        Err(TextRefusal::UnknownName)
    }
}

// ---- line by line

// The line at a place.
pub fn line_at(table: &names::NameTable, text: &[u8], at: usize) -> Line
    requires { Lined text.now at × (at < length text.now) }
    ensures { LineAt (lines_of table.now.names.now) text.now at result }
{
    let e = names::place_of(text, at, b'\n');
    let Some(row) = rows::row_of(&text[at..e]) else {
        unreachable!()
    };
    let segment = evaluate::Segment {
        source: table.lane_of(row.name) as u64,
        start: row.start,
        end: row.end,
        reverse: row.reverse,
    };
    Line {
        segment,
        slot: row.slot,
        next: e + 1,
    }
}

// The lines from a place on, one by one.
#[derive(Clone, Copy)]
pub struct Lines<'a> {
    pub table: names::NameTable<'a>,
    pub text: &'a [u8],
    pub at: usize,
    pub ghost lined: { Lined text.now at },
}

impl Iterator for Lines<'_> {
    type Item = Line;

    ghost remaining = { λ s. at_most (length s.text.now - s.at) };

    ghost next_gives = { λ a r b. (b.table.names.now ≡ a.table.names.now) × (b.text.now ≡ a.text.now) × MatchOption r (length a.text.now ≤ a.at) (λ l. (a.at < length a.text.now) × LineAt (lines_of a.table.names.now) a.text.now a.at l × (b.at ≡ l.next)) };

    fn next(&mut self) -> Option<Line> {
        if self.text.len() <= self.at {
            return None;
        }
        let l = line_at(&self.table, self.text, self.at);
        self.at = l.next;
        Some(l)
    }
}

impl<'a> Lines<'a> {
    // All lines of a text.
    pub fn of(table: names::NameTable<'a>, text: &'a [u8]) -> Lines<'a>
        requires { Lined text.now 0 }
        ensures { (result.table.names.now ≡ table.entry.names.now) × (result.text.now ≡ text.now) × (result.at ≡ 0) }
    {
        Lines { table, text, at: 0 }
    }
}

// ---- the words that a text holds

// Of a line of this slot: in the route at hand, or in a new one.
fn place_for(p: Place, slot: u64) -> Place
    requires { (p.to < 65536) × (p.count < 200000) × (p.routes < 200000) }
    ensures { result ≡ place_for p.to p.head p.count p.routes slot }
{
    if slot == p.routes {
        Place {
            to: p.to + 1,
            head: p.to,
            count: 1,
            routes: p.routes + 1,
        }
    } else {
        Place {
            count: p.count + 1,
            ..p
        }
    }
}

// The routes, from the third word on.
pub fn put_lines(room: &mut [u64], table: &names::NameTable, text: &[u8], routes: u64)
    requires { Holding (lines_of table.now.names.now) text.now routes room.old }
    ensures { room.new ≡ sets room.old 2 (words_from (gathered (lines_of table.now.names.now) 0 (lines_of text.now))) }
{
    let mut place = Place {
        to: 2,
        head: 1,
        count: routes,
        routes: 0,
    };
    for l in Lines::of(*table, text) {
        place = place_for(place, l.slot);
        room[place.head] = place.count;
        words::put_segment(room, place.to, l.segment);
        place.to += evaluate::Segment::WORDS;
    }
}
