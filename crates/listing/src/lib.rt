// The listing: the walk without scores; an assignment's words go to out, if their turn has come and they fit.
#![tactic(auto)]

ghost use Rattle.std.specs.Prelude.{◌≡◌, false, ◌++◌, ◌+◌, ◌*◌, ◌-◌, ◌≤◌, ◌<◌, length, take, drop};
ghost use Rattle.image.specs.Inner.{Groups, Started};
ghost use Rattle.image.specs.Panel.{panel_of};
ghost use Rattle.panel.specs.Inner.{Accepted};
ghost use Rattle.evaluate.specs.Segments.{native_of};
ghost use Rattle.evaluate.specs.Words.{encode};
ghost use Rattle.search.specs.Rooms.{frame_width, slot_width};
ghost use Rattle.search.specs.Run.{walk};
ghost use Rattle.search.specs.Counters.{status_of, status_number};
ghost use Rattle.search.specs.Answers.{ListRooms, refused_list, list_answer, list_rooms};
ghost use Rattle.landings.specs.Inner.{Known};
ghost use Rattle.walks.specs.Inner.{assigned, to_go, Walking};
ghost use Rattle.listing.specs.Inner.{Handed, seed_tally, FrameRoom, Onward, Entered, Ended, Sown, Told, Checked, Replied, list_panel_refusal};

use budget::BudgetRefusal;
use evaluate::Segment;
use search::{ListReply, SearchBudget, Stop, Tally};
use walks::{Halt, Standing};

// How many evaluations are still to be skipped, whether one did not fit, how many were written, and their words.
#[derive(Clone, Copy, PartialEq, Eq, Debug)]
pub struct Listing {
    pub skip: u64,
    pub full: bool,
    pub written: u64,
    pub words: usize,
}

// How a listing ended: which budget stopped it, and where its walk then stands.
#[derive(Clone, Copy)]
pub struct Listed {
    pub stop: Stop,
    pub at: Standing,
    pub listing: Listing,
}

// Where seeding ended.
#[derive(Clone, Copy, PartialEq, Eq, Debug)]
pub struct Seeded {
    pub natives: usize,
    pub listing: Listing,
}

// ---- one evaluation

// The first n words, put at a place: one by one, since a copy of slices makes the archive ask for memmove.
fn copy_words(out: &mut [u64], at: usize, words: &[u64], n: usize)
    requires { (at + n ≤ length out.old) × (n ≤ length words.now) }
    ensures { out.new ≡ take at out.old ++ (take n words.now ++ drop (at + n) out.old) }
{
    for i in 0..n {
        out[at + i] = words[i];
    }
}

// An evaluation is handed over: the first n words of the slot.
pub fn hand_over(out: &mut [u64], l: Listing, slot: &[u64], n: usize) -> Listing
    requires { (n ≤ length slot.now) × (l.words ≤ length out.old) × (l.written ≤ l.words) × (0 < n) }
    ensures { Handed (take n slot.now) out.old out.new l result }
{
    if l.full {
        return l;
    }
    if 0 < l.skip {
        return Listing {
            skip: l.skip - 1,
            ..l
        };
    }
    if out.len() - l.words < n {
        return Listing { full: true, ..l };
    }
    let words = l.words + n;
    copy_words(out, l.words, slot, n);
    Listing {
        written: l.written + 1,
        words,
        ..l
    }
}

// An evaluation of the walk: the assignment that the path and a closing piece complete.
fn list_path(
    frames: &[u64],
    slot: &mut [u64],
    out: &mut [u64],
    at: Standing,
    s: Segment,
    l: Listing,
) -> Listing
    requires { (0 < at.depth) × (at.depth * frame_width ≤ length frames.now) × (length (encode (assigned at.tally.families frames.now (at.depth - 1) s)) ≤ length slot.old) × (l.words ≤ length out.old) × (l.written ≤ l.words) }
    ensures { Entered (assigned at.tally.families frames.now (at.depth - 1) s) slot.old out.old slot.new out.new l result }
{
    let n = writer::put_path(slot, frames, at.depth - 1, at.tally.families, s);
    hand_over(out, l, slot, n)
}

// An evaluation of seeding: a family's native assignment.
fn list_native(
    image: &[u8],
    h: image::Header,
    slot: &mut [u64],
    out: &mut [u64],
    family: image::Family,
    l: Listing,
) -> Listing
    requires { Accepted image.now h × Groups image.now h family × (length (encode (native_of (panel_of image.now) family.number)) ≤ length slot.old) × (l.words ≤ length out.old) × (l.written ≤ l.words) }
    ensures { Entered (native_of (panel_of image.now) family.number) slot.old out.old slot.new out.new l result }
{
    let n = writer::put_native(slot, image, h, family);
    hand_over(out, l, slot, n)
}

// ---- the listing under way

// The walk goes on from where it stands; each evaluation that is due is listed.
fn run(
    image: &[u8],
    h: image::Header,
    starts: &[usize; 4096],
    memo: &mut [usize; landings::MEMO],
    b: SearchBudget,
    v: usize,
    frames: &mut [u64],
    slot: &mut [u64],
    out: &mut [u64],
    from: Standing,
    first: Listing,
) -> Listed
    requires accepted { Accepted image.now h × Started image.now h starts.now × Known image.now h memo.old }
    requires walking { Walking image.now h b frames.old from.tally from.depth from.start from.clear }
    requires onward { Onward v (to_go (panel_of image.now) b from.tally frames.old from.depth) first slot.old out.old }
    ensures { Ended b v (to_go (panel_of image.now) b from.tally frames.old from.depth) first frames.old slot.old out.old frames.new slot.new out.new result }
{
    let mut at = from;
    let mut listing = first;
    loop {
        let pause = walks::go_on(image, h, starts, memo, b, frames, at);
        at = pause.at;
        match pause.halt {
            Halt::Stopped(stop) => return Listed { stop, at, listing },
            Halt::Due(s) => {
                listing = list_path(frames, slot, out, at, s, listing);
            }
        }
    }
}

// The natives, family by family, while work and evaluations are left.
fn seed(
    image: &[u8],
    h: image::Header,
    b: SearchBudget,
    v: usize,
    slot: &mut [u64],
    out: &mut [u64],
    first: Listing,
) -> Seeded
    requires { Accepted image.now h × Onward v (walk (panel_of image.now) b) first slot.old out.old }
    ensures { Sown (panel_of image.now) h b v first slot.old out.old slot.new out.new result }
{
    let mut start: usize = 0;
    let mut listing = first;
    for natives in 0..h.families {
        if natives as u64 >= b.max_work || natives as u64 >= b.max_evaluations {
            return Seeded { natives, listing };
        }
        let family = image::family_from(image, h, natives, start);
        listing = list_native(image, h, slot, out, family, listing);
        start = image::family_end(image, h, family);
    }
    Seeded {
        natives: h.families,
        listing,
    }
}

// The counters after so many natives.
fn seeded_tally(natives: usize) -> Tally
    ensures { result ≡ seed_tally natives }
{
    let n = natives as u64;
    Tally {
        work: n,
        evaluations: n,
        natives: n,
        donors: 0,
        non_native: 0,
        mixed: 0,
        mixed_identity: 0,
        switches: 0,
        families: 0,
    }
}

// Seeding, then the walk over all families.
fn list_families(
    image: &[u8],
    h: image::Header,
    starts: &[usize; 4096],
    memo: &mut [usize; landings::MEMO],
    b: SearchBudget,
    v: usize,
    frames: &mut [u64],
    slot: &mut [u64],
    out: &mut [u64],
    first: Listing,
) -> Listed
    requires accepted { Accepted image.now h × Started image.now h starts.now × Known image.now h memo.old × FrameRoom b frames.old }
    requires onward { Onward v (walk (panel_of image.now) b) first slot.old out.old }
    ensures { Ended b v (walk (panel_of image.now) b) first frames.old slot.old out.old frames.new slot.new out.new result }
{
    let seeded = seed(image, h, b, v, slot, out, first);
    let n = seeded.natives;
    let listing = seeded.listing;
    let at = Standing {
        tally: seeded_tally(n),
        depth: 0,
        start: 0,
        clear: true,
    };
    if n < h.families {
        let stop = if n as u64 >= b.max_evaluations {
            Stop::Evaluation
        } else {
            Stop::Work
        };
        return Listed { stop, at, listing };
    }
    if h.families == 0 {
        return Listed {
            stop: Stop::Exhausted,
            at,
            listing,
        };
    }
    walks::put_root(image, h, starts, frames, 0, 0);
    let root = Standing { depth: 1, ..at };
    run(
        image, h, starts, memo, b, v, frames, slot, out, root, listing,
    )
}

// ---- the answer

fn reply(e: Listed) -> ListReply
    ensures { result ≡ record { refusal = 0; place = 0; status = status_number (status_of e.stop false); written = e.listing.written; words = e.listing.words; evaluations = e.at.tally.evaluations } }
{
    ListReply {
        refusal: 0,
        place: 0,
        status: walks::status_number(e.stop, false),
        written: e.listing.written,
        words: e.listing.words as u64,
        evaluations: e.at.tally.evaluations,
    }
}

// The listing, for which there is room: the frame room past the frames left and the slot are zeroed.
fn list_in(
    image: &[u8],
    h: image::Header,
    b: SearchBudget,
    v: usize,
    from: u64,
    frames: &mut [u64],
    slot: &mut [u64],
    out: &mut [u64],
) -> ListReply
    requires accepted { Accepted image.now h × FrameRoom b frames.old }
    requires width { (v ≡ slot_width (panel_of image.now) b) × (v ≤ length slot.old) }
    ensures { Told (panel_of image.now) b from frames.old slot.old out.old frames.new slot.new out.new result }
{
    let starts = image::lane_starts(image, h);
    let mut memo = landings::no_memo();
    let first = Listing {
        skip: from,
        full: false,
        written: 0,
        words: 0,
    };
    let e = list_families(image, h, &starts, &mut memo, b, v, frames, slot, out, first);
    walks::leave_frames(b, frames, e.stop, e.at.depth);
    frames::clear_words(slot, 0, v);
    reply(e)
}

fn refused(number: u64) -> ListReply
    ensures { result ≡ refused_list (record { number = number; place = 0 }) }
{
    ListReply {
        refusal: number,
        place: 0,
        status: 0,
        written: 0,
        words: 0,
        evaluations: 0,
    }
}

// The words of a slot, where neither the budgets nor the rooms are refused.
fn checked_width(
    image: &[u8],
    h: image::Header,
    b: SearchBudget,
    frames: usize,
    slot: usize,
) -> Result<usize, BudgetRefusal>
    requires { Accepted image.now h }
    ensures { Checked (panel_of image.now) b frames slot result }
{
    budget::budget_refusal(b)?;
    let v = budget::slot_width(image, h, b);
    budget::list_rooms_refusal(b, v, frames, slot)?;
    Ok(v)
}

// 11 to 13, and the listing, over an accepted panel.
fn list_panel(
    image: &[u8],
    h: image::Header,
    b: SearchBudget,
    from: u64,
    frames: &mut [u64],
    slot: &mut [u64],
    out: &mut [u64],
) -> ListReply
    requires { Accepted image.now h }
    ensures { Replied (panel_of image.now) b from (list_panel_refusal (panel_of image.now) b (length frames.entry.now) (length slot.old)) (record { frames = frames.entry.now; slot = slot.old; out = out.old }) (record { frames = frames.exit.now; slot = slot.new; out = out.new }) result }
{
    match checked_width(image, h, b, frames.len(), slot.len()) {
        Ok(v) => list_in(image, h, b, v, from, frames, slot, out),
        Err(e) => refused(e.number()),
    }
}

// The listing: the walk's assignments with numbers from + 1 on, as many as fit into out.
pub fn list(
    image: &[u8],
    b: SearchBudget,
    from: u64,
    frames: &mut [u64],
    slot: &mut [u64],
    out: &mut [u64],
) -> search::ListReply
    ensures value { result ≡ list_answer image.now b from (record { frames = frames.entry.now; slot = slot.old; out = out.old }) }
    ensures rooms_after { ◌≡◌ {A = ListRooms} (record { frames = frames.exit.now; slot = slot.new; out = out.new }) (list_rooms image.now b from (record { frames = frames.entry.now; slot = slot.old; out = out.old })) }
{
    match graph::check_panel(image) {
        Ok(h) => list_panel(image, h, b, from, frames, slot, out),
        Err(e) => refused(e.number()),
    }
}
