// The plain engine (02, item 10): the search without a stored stack. The step at a place calls the step through a hub, which calls the step
// at the next place, with the depth left going down. Only the path is kept; what is still to be tried at a place is in its step's locals.
#![tactic(auto)]

ghost use Rattle.std.specs.Prelude.{◌≡◌, true, ◌+◌, ◌*◌, ◌≤◌, ◌<◌, length};
ghost use Rattle.image.specs.Panel.{panel_of};
ghost use Rattle.image.specs.Inner.{Started};
ghost use Rattle.panel.specs.Inner.{Accepted};
ghost use Rattle.search.specs.Rooms.{frame_width};
ghost use Rattle.frames.specs.Inner.{path_at, frame_with};
ghost use Rattle.landings.specs.Inner.{Known};
ghost use Rattle.advance.specs.Inner.{Child, Flagged, moved_to};
ghost use Rattle.engine.specs.Answer.{plain_answer, plain_out, PlainHolds};
ghost use Rattle.plain.specs.Steps.{depth, plain_marks};
ghost use Rattle.engine.specs.Inner.{slot_words, below, is_over, has_port, in_reach, looking, listing_from, Standing, Stepped, Acts, InHand, place_tells, act_tells, hub_tells, ports_tell, Given, Ample, Swept, Replied};

use advance::{Action, Turn};
use evaluate::Segment;
use frames::Stored;
use image::{Family, Header, Lane};
use listing::Listing;

// How far down the engine goes.
pub const DEPTH: usize = 64;

// The path: a record for each place, and one more, where a place that lies too deep would stand.
pub const PATH: usize = (DEPTH + 1) * Stored::WORDS;

// The words of an assignment of as many pieces.
pub const SLOT: usize = 2 + DEPTH + Segment::WORDS * DEPTH;

// Where a step stands: in which family, how many places lie below it on the path, and the depth left.
#[derive(Clone, Copy)]
pub struct Here {
    pub h: Header,
    pub family: Family,
    pub top: usize,
    pub left: usize,
}

// What is listed so far; whether places that lie too deep are looked for (else it is known that there are none); whether one was met.
#[derive(Clone, Copy)]
pub struct Told {
    pub listing: Listing,
    pub looks: bool,
    pub deep: bool,
}

// Whether nothing more is to be done: a place lay too deep, or all that is left is to list and nothing more fits.
fn is_over(l: Told) -> bool
    ensures { result ≡ is_over l }
{
    l.deep || (!l.looks && l.listing.full)
}

fn too_deep(l: Told) -> Told
    ensures { result ≡ record { listing = l.listing; looks = l.looks; deep = true } }
{
    Told { deep: true, ..l }
}

// Whether a port remains that is to be tried.
fn has_port(f: Stored, count: usize, l: Told) -> bool
    ensures { result ≡ has_port l f.next count }
{
    !is_over(l) && f.next != 0 && f.next as usize <= count
}

// The frame with its hub closed.
fn shut(f: Stored) -> Stored
    ensures { result ≡ moved_to f f.next 0 0 }
{
    Stored {
        terminal: false,
        hub_next: 0,
        hub_end: 0,
        ..f
    }
}

// The frame with its hub open if the piece up to its port is clear of the path; else all its members are passed over.
fn in_reach(t: Turn) -> Stored
    ensures { result ≡ in_reach t.frame t.clear }
{
    if t.clear { t.frame } else { shut(t.frame) }
}

// One is listed, where it still may fit: the assignment that the path and a closing piece complete.
fn give(
    family: u64,
    path: &[u64],
    slot: &mut [u64],
    out: &mut [u64],
    top: usize,
    s: Segment,
    l: Told,
) -> Told
    requires { ((top + 1) * frame_width ≤ length path.now) × (top < depth) × (slot_words ≤ length slot.old) × (l.listing.words ≤ length out.old) × (l.listing.written ≤ l.listing.words) }
    ensures { Given family path.now slot.old out.old top s l slot.new out.new result }
{
    if l.listing.full {
        return l;
    }
    let n = writer::put_path(slot, path, top, family, s);
    let listing = listing::hand_over(out, l.listing, slot, n);
    Told { listing, ..l }
}

// ---- the steps

// The step at a place: its terminal, then its ports.
#[cycle(steps)]
fn place_step(
    image: &[u8],
    starts: &[usize; 4096],
    memo: &mut [usize; landings::MEMO],
    path: &mut [u64],
    slot: &mut [u64],
    out: &mut [u64],
    here: Here,
    c: Stored,
    l: Told,
) -> Told
    requires { Standing image.now starts.now memo.old path.old slot.old out.old here l × Child image.now here.h here.family.count c }
    ensures { Stepped image.now here path.old slot.old out.old l (place_tells image.now here path.old c) memo.new path.new slot.new out.new result }
{
    if here.left == 0 {
        return too_deep(l);
    }
    let h = here.h;
    let family = here.family;
    frames::put_frame(path, here.top, c);
    let lane = image::lane_of(image, h, starts, c.source as usize);
    let f = advance::enter(image, h, starts, c);
    let t = advance::terminal_unit(image, h, family, lane, path, here.top, f);
    let now = act_step(image, starts, memo, path, slot, out, here, t.action, l);
    ports_step(
        image, starts, memo, path, slot, out, here, lane, t.frame, now,
    )
}

// The ports ahead, one after the other, each with its hub.
#[cycle(steps)]
fn ports_step(
    image: &[u8],
    starts: &[usize; 4096],
    memo: &mut [usize; landings::MEMO],
    path: &mut [u64],
    slot: &mut [u64],
    out: &mut [u64],
    here: Here,
    lane: Lane,
    first: Stored,
    l: Told,
) -> Told
    requires { (0 < here.left) × Standing image.now starts.now memo.old path.old slot.old out.old (below here) l × InHand image.now here lane path.old first × (first.hub_end ≡ 0) }
    ensures { Stepped image.now (below here) path.old slot.old out.old l (ports_tell image.now here path.old first) memo.new path.new slot.new out.new result }
{
    let h = here.h;
    let family = here.family;
    let mut g = first;
    let mut now = l;
    while has_port(g, lane.count, now) {
        let t = advance::pass_port(image, h, memo, family, lane, path, here.top, g);
        let f = in_reach(t);
        now = hub_step(image, starts, memo, path, slot, out, here, lane, f, now);
        g = shut(f);
    }
    now
}

// The step through a hub: its members from the next to the end, by halves, so that few calls are under way at once.
#[cycle(steps)]
fn hub_step(
    image: &[u8],
    starts: &[usize; 4096],
    memo: &mut [usize; landings::MEMO],
    path: &mut [u64],
    slot: &mut [u64],
    out: &mut [u64],
    here: Here,
    lane: Lane,
    g: Stored,
    l: Told,
) -> Told
    requires { (0 < here.left) × Standing image.now starts.now memo.old path.old slot.old out.old (below here) l × InHand image.now here lane path.old g × Flagged (panel_of image.now) (frame_with (path_at path.old here.top) g) true }
    ensures { Stepped image.now (below here) path.old slot.old out.old l (hub_tells image.now here path.old g) memo.new path.new slot.new out.new result }
{
    if is_over(l) || g.hub_end <= g.hub_next {
        return l;
    }
    let n = g.hub_end - g.hub_next;
    if n == 1 {
        let action = advance::meet(image, here.h, here.family, lane, g, true);
        return act_step(image, starts, memo, path, slot, out, here, action, l);
    }
    let mid = g.hub_next + n / 2;
    let low = Stored { hub_end: mid, ..g };
    let high = Stored { hub_next: mid, ..g };
    let now = hub_step(image, starts, memo, path, slot, out, here, lane, low, l);
    hub_step(image, starts, memo, path, slot, out, here, lane, high, now)
}

// What a terminal or a hub's member does: it leads down to the next place, or one is listed, or it is passed over.
#[cycle(steps)]
fn act_step(
    image: &[u8],
    starts: &[usize; 4096],
    memo: &mut [usize; landings::MEMO],
    path: &mut [u64],
    slot: &mut [u64],
    out: &mut [u64],
    here: Here,
    action: Action,
    l: Told,
) -> Told
    requires { (0 < here.left) × Standing image.now starts.now memo.old path.old slot.old out.old (below here) l × Acts image.now here action }
    ensures { Stepped image.now (below here) path.old slot.old out.old l (act_tells image.now here path.old action) memo.new path.new slot.new out.new result }
{
    match action {
        Action::Down(c) => {
            let next = Here {
                top: here.top + 1,
                left: here.left - 1,
                ..here
            };
            place_step(image, starts, memo, path, slot, out, next, c, l)
        }
        Action::Give(s) => {
            let family = here.family.number as u64;
            give(family, path, slot, out, here.top, s, l)
        }
        Action::Pass | Action::Leave => l,
    }
}

// ---- family by family

fn sweep_families(
    image: &[u8],
    h: Header,
    starts: &[usize; 4096],
    memo: &mut [usize; landings::MEMO],
    path: &mut [u64],
    slot: &mut [u64],
    out: &mut [u64],
    first: Told,
) -> Told
    requires { Accepted image.now h × Started image.now h starts.now × Known image.now h memo.old × Ample path.old slot.old out.old first }
    ensures { Swept out.old first (plain_marks (panel_of image.now)) out.new result }
{
    let mut told = first;
    let mut start = 0;
    for n in 0..h.families {
        let family = image::family_from(image, h, n, start);
        let c = walks::root(image, h, family);
        let here = Here {
            h,
            family,
            top: 0,
            left: DEPTH,
        };
        told = place_step(image, starts, memo, path, slot, out, here, c, told);
        start = image::family_end(image, h, family);
    }
    told
}

// All is gone through once.
fn sweep(image: &[u8], h: Header, first: Told, out: &mut [u64]) -> Told
    requires { Accepted image.now h × (first.listing.words ≡ 0) × (first.listing.written ≡ 0) }
    ensures { Swept out.old first (plain_marks (panel_of image.now)) out.new result }
{
    let starts = image::lane_starts(image, h);
    let mut memo = landings::no_memo();
    let mut path = [0u64; PATH];
    let mut slot = [0u64; SLOT];
    sweep_families(
        image, h, &starts, &mut memo, &mut path, &mut slot, out, first,
    )
}

// ---- the call

#[repr(C)]
#[derive(Clone, Copy)]
pub struct PlainReply {
    pub refusal: u64,
    pub place: u64,
    pub written: u64,
    pub words: u64,
}

fn refused(number: u64) -> PlainReply
    ensures { result ≡ record { refusal = number; place = 0; written = 0; words = 0 } }
{
    PlainReply {
        refusal: number,
        place: 0,
        written: 0,
        words: 0,
    }
}

fn reply(l: Told) -> PlainReply
    ensures { result ≡ record { refusal = 0; place = 0; written = l.listing.written; words = l.listing.words } }
{
    PlainReply {
        refusal: 0,
        place: 0,
        written: l.listing.written,
        words: l.listing.words as u64,
    }
}

// For the sweep that looks: nothing is listed.
fn to_look() -> Told
    ensures { result ≡ looking }
{
    let listing = Listing {
        skip: 0,
        full: true,
        written: 0,
        words: 0,
    };
    Told {
        listing,
        looks: true,
        deep: false,
    }
}

// For the sweep that lists.
fn to_list(from: u64) -> Told
    ensures { result ≡ listing_from from }
{
    let listing = Listing {
        skip: from,
        full: false,
        written: 0,
        words: 0,
    };
    Told {
        listing,
        looks: false,
        deep: false,
    }
}

// Over an accepted panel: a first sweep, with no room to list, tells whether a place lies too deep; a second one lists.
fn list_in(image: &[u8], h: Header, from: u64, out: &mut [u64]) -> PlainReply
    requires { Accepted image.now h }
    ensures { Replied (panel_of image.now) from out.old out.new result }
{
    let mut none = [0u64; 1];
    let look = sweep(image, h, to_look(), &mut none);
    if look.deep {
        return refused(42);
    }
    let l = sweep(image, h, to_list(from), out);
    reply(l)
}

// The legal assignments with numbers from + 1 on, until one doesn't fit into out.
pub fn list(image: &[u8], from: u64, out: &mut [u64]) -> PlainReply
    ensures value { result ≡ plain_answer image.now from (length out.old) }
    ensures out_after { out.new ≡ plain_out image.now from out.old }
    ensures plain_holds { PlainHolds image.now from out.old result out.new }
{
    match graph::check_panel(image) {
        Ok(h) => list_in(image, h, from, out),
        Err(e) => refused(e.number()),
    }
}
