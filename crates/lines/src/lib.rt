// The lines of the walk program's sheet (01, "The program"): the status, the counters, the incumbent read from its words.
#![tactic(auto)]

ghost use Rattle.std.specs.Prelude.{◌≡◌, [], ◌∷◌, ◌++◌, ◌+◌, ◌-◌, ◌*◌, ◌≤◌, eqb, length, drop};
ghost use Rattle.ground.specs.Lists.{pick};
ghost use Rattle.image.specs.Image.{paths_of};
ghost use Rattle.image.specs.Inner.{Groups};
ghost use Rattle.image.specs.Panel.{panel_of};
ghost use Rattle.panel.specs.Inner.{Accepted};
ghost use Rattle.evaluate.specs.Properties.{Each};
ghost use Rattle.words.specs.Inner.{segments_of, routes_of, assignment_of};
ghost use Rattle.search.specs.Sheet.{line, status_text, status_bytes, tally_lines, turn_text, route_lines, routes_lines, foreign_in, foreign_on, foreign, refusal_line};
ghost use Rattle.text.specs.Inner.{Put};
ghost use Rattle.lines.specs.Inner.{status_from, tally_in, slot_text, segment_line, Readable, Low, Few, Incumbent, Held, incumbent_text, sheet_of};

use search::SearchReply;

// ---- fixed texts

// A status by its number.
fn status_text(status: u64) -> &'static [u8]
    ensures { result.now ≡ status_bytes (status_from status) }
{
    match status {
        1 => b"domain-exhausted-optimum-and-correlated-support-certified",
        2 => b"domain-exhausted-optimum-certified-support-incomplete",
        3 => b"work-budget-exhausted",
        4 => b"evaluation-budget-exhausted",
        _ => b"frontier-budget-exhausted",
    }
}

fn put_status(out: &mut [u8], at: usize, status: u64) -> usize
    ensures { Put (line (status_text ∷ status_bytes (status_from status) ∷ [])) out.old at out.new result }
{
    let word = text::put_word(out, at, b"status");
    let end = text::put_text(out, word, status_text(status));
    text::put_byte(out, end, b'\n')
}

// `refused N PLACE`
pub fn put_refusal(out: &mut [u8], at: usize, number: u64, place: u64) -> usize
    ensures { Put (refusal_line (record { number = number; place = place })) out.old at out.new result }
{
    let word = text::put_word(out, at, b"refused");
    let next = text::put_count(out, word, number);
    text::put_last(out, next, place)
}

// ---- the counters

fn put_tally(out: &mut [u8], at: usize, r: SearchReply) -> usize
    ensures { Put (tally_lines (tally_in r)) out.old at out.new result }
{
    let at = text::put_field(out, at, b"work", r.work);
    let at = text::put_field(out, at, b"evaluations", r.evaluations);
    let at = text::put_field(out, at, b"natives", r.natives);
    let at = text::put_field(out, at, b"donors", r.donors);
    let at = text::put_field(out, at, b"non-native", r.non_native);
    let at = text::put_field(out, at, b"mixed", r.mixed);
    let at = text::put_field(out, at, b"mixed-identity", r.mixed_identity);
    let at = text::put_field(out, at, b"switches", r.switches);
    text::put_field(out, at, b"families", r.families)
}

// ---- the incumbent's segments

fn put_turn(out: &mut [u8], at: usize, reverse: bool) -> usize
    ensures { Put (turn_text reverse ++ (10 ∷ [])) out.old at out.new result }
{
    if reverse {
        text::put_text(out, at, b"-\n")
    } else {
        text::put_text(out, at, b"+\n")
    }
}

// "slot, lane, start, end, orientation"
fn put_segment(out: &mut [u8], at: usize, slot: u64, s: evaluate::Segment) -> usize
    ensures { Put (segment_line slot s) out.old at out.new result }
{
    let lane = put_slot(out, at, slot);
    let start = text::put_count(out, lane, s.source);
    let end = text::put_count(out, start, s.start);
    let turn = text::put_count(out, end, s.end);
    put_turn(out, turn, s.reverse)
}

fn put_slot(out: &mut [u8], at: usize, slot: u64) -> usize
    ensures { Put (slot_text slot) out.old at out.new result }
{
    let next = text::put_word(out, at, b"route");
    text::put_count(out, next, slot)
}

fn put_route(out: &mut [u8], at: usize, slot: u64, words: &[u64], from: usize, left: usize) -> usize
    requires { from + 4 * left ≤ length words.now }
    ensures { Put (route_lines slot (segments_of left (drop from words.now))) out.old at out.new result }
{
    let mut to = at;
    for i in 0..left {
        let s = words::segment_at(words, from + evaluate::Segment::WORDS * i);
        to = put_segment(out, to, slot, s);
    }
    to
}

fn put_routes(out: &mut [u8], at: usize, words: &[u64], routes: usize) -> usize
    requires { Readable words.now routes 2 }
    ensures { Put (routes_lines 0 (routes_of routes (drop 2 words.now))) out.old at out.new result }
{
    let mut to = at;
    let mut place = 2;
    for slot in 0..routes {
        let left = words::count_at(words, place);
        to = put_route(out, to, slot as u64, words, place + 1, left);
        place += 1 + evaluate::Segment::WORDS * left;
    }
    to
}

// ---- foreign bases

// The bases of a segment, where it is off the target lane.
fn foreign_of(s: evaluate::Segment, target: u64) -> u64
    requires { Low s }
    ensures { Few (pick (eqb s.source target) 0 (s.end - s.start)) 1 result }
{
    if s.source == target {
        0
    } else {
        s.end.saturating_sub(s.start)
    }
}

fn foreign_in(words: &[u64], at: usize, left: usize, target: u64) -> u64
    requires { (at + 4 * left ≤ length words.now) × (length words.now ≤ 65536) × Each Low (segments_of left (drop at words.now)) }
    ensures { Few (foreign_in target (segments_of left (drop at words.now))) left result }
{
    let mut sum = 0;
    for i in 0..left {
        let s = words::segment_at(words, at + evaluate::Segment::WORDS * i);
        sum += foreign_of(s, target);
    }
    sum
}

// Of the routes that have a path of the family.
fn foreign_on(image: &[u8], h: image::Header, f: image::Family, words: &[u64], routes: usize) -> u64
    requires { Groups image.now h f × Incumbent words.now routes }
    ensures { result ≡ foreign_on (paths_of h image.now f.number) (routes_of routes (drop 2 words.now)) }
{
    let mut sum = 0;
    let mut place = 2;
    for slot in 0..routes.min(f.count) {
        let left = words::count_at(words, place);
        let target = image::family_path(image, h, f, slot) as u64;
        sum += foreign_in(words, place + 1, left, target);
        place += 1 + evaluate::Segment::WORDS * left;
    }
    sum
}

fn foreign(image: &[u8], h: image::Header, words: &[u64]) -> u64
    requires { Accepted image.now h × Held words.now }
    ensures { result ≡ foreign (panel_of image.now) (assignment_of words.now) }
{
    let number = words[0] as usize;
    let routes = words[1] as usize;
    if number < h.families {
        let f = assignment::family_of(image, h, number);
        foreign_on(image, h, f, words, routes)
    } else {
        0
    }
}

// ---- the sheet

fn put_incumbent(out: &mut [u8], at: usize, image: &[u8], h: image::Header, words: &[u64]) -> usize
    requires { Accepted image.now h × Held words.now }
    ensures { Put (incumbent_text (panel_of image.now) (assignment_of words.now)) out.old at out.new result }
{
    let bases = foreign(image, h, words);
    let next = text::put_field(out, at, b"foreign", bases);
    put_routes(out, next, words, words[1] as usize)
}

pub fn put_sheet(
    out: &mut [u8],
    image: &[u8],
    h: image::Header,
    kept: &[u64],
    r: SearchReply,
) -> usize
    requires { Accepted image.now h × Held kept.now }
    ensures { Put (sheet_of (panel_of image.now) r (assignment_of kept.now)) out.old 0 out.new result }
{
    let tally = put_status(out, 0, r.status);
    let optima = put_tally(out, tally, r);
    let incumbent = text::put_field(out, optima, b"optima", r.optima);
    put_incumbent(out, incumbent, image, h, kept)
}
