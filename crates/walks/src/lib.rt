// The budgeted walk over all families (search.rs, search): it goes on until a budget stops it, all is walked, or an evaluation is due.
#![tactic(auto)]

ghost use Rattle.std.specs.Prelude.{◌≡◌, true, false, ◌+◌, ◌-◌, ◌*◌, ◌≤◌, ◌<◌, ltb, length, take, get_or};
ghost use Rattle.ground.specs.Lists.{pick, sum};
ghost use Rattle.image.specs.Image.{path_counts};
ghost use Rattle.image.specs.Inner.{Started, Stands, Groups};
ghost use Rattle.image.specs.Panel.{panel_of, paths_at};
ghost use Rattle.panel.specs.Inner.{Accepted};
ghost use Rattle.search.specs.Rooms.{frame_width};
ghost use Rattle.search.specs.Counters.{status_of, status_number};
ghost use Rattle.frames.specs.Inner.{put, no_segment};
ghost use Rattle.landings.specs.Inner.{Known};
ghost use Rattle.advance.specs.Inner.{moved_to, child_of, Child};
ghost use Rattle.walks.specs.Inner.{root_of, Walking, Paused, Further, Under, Stuck, Passed, pending_at, used_by, zeroed};

use advance::Action;
use evaluate::Segment;
use frames::Stored;
use search::{SearchBudget, Status, Stop, Tally};

// Where a walk stands: its counters, its frames, where its family's paths begin, and whether the piece to the top's open hub is clear.
#[derive(Clone, Copy, PartialEq, Eq, Debug)]
pub struct Standing {
    pub tally: Tally,
    pub depth: usize,
    pub start: usize,
    pub clear: bool,
}

// Why a walk halts: it is stopped, or the route closed by this piece completes what is to be evaluated.
#[derive(Clone, Copy)]
pub enum Halt {
    Stopped(Stop),
    Due(Segment),
}

#[derive(Clone, Copy)]
pub struct Pause {
    pub halt: Halt,
    pub at: Standing,
}

// The root of a family: slot 0, its first path, cut 0, forward.
pub fn root(image: &[u8], h: image::Header, family: image::Family) -> Stored
    requires { Accepted image.now h × Groups image.now h family }
    ensures child { Child image.now h family.count result }
    ensures is { result ≡ child_of 0 (record { source = get_or (paths_at (panel_of image.now) family.number) 0 0; cut = 0; reverse = false }) no_segment }
{
    let lane = image::family_path(image, h, family, 0);
    Stored {
        slot: 0,
        source: lane as u64,
        cut: 0,
        reverse: false,
        terminal: true,
        next: 0,
        hub_next: 0,
        hub_end: 0,
        start: 0,
        end: 0,
    }
}

// It is entered, and put at the bottom of the stack.
pub fn put_root(
    image: &[u8],
    h: image::Header,
    starts: &[usize; 4096],
    frames: &mut [u64],
    number: usize,
    start: usize,
)
    requires { Accepted image.now h × Started image.now h starts.now × (number < h.families) × (start ≡ sum (take number (path_counts h image.now))) × (frame_width ≤ length frames.old) }
    ensures { frames.new ≡ put frames.old 0 (root_of (panel_of image.now) number) }
{
    let family = image::family_from(image, h, number, start);
    let f = advance::enter(image, h, starts, root(image, h, family));
    frames::put_frame(frames, 0, f);
}

// ---- ports passed over

// The open hub with m members fewer.
fn with_fewer(f: Stored, m: u64) -> Stored
    requires { m ≤ f.hub_end - f.hub_next }
    ensures { result ≡ moved_to f f.next (f.hub_next + m) f.hub_end }
{
    Stored {
        terminal: false,
        hub_next: f.hub_next + m,
        ..f
    }
}

// The units that closing the hub takes, if one is open.
fn to_close(f: Stored) -> u64
    ensures { (result ≡ pick (ltb 0 f.hub_end) 1 0) × (result ≤ 1) }
{
    u64::from(0 < f.hub_end)
}

// Whether a port is left, and work for it.
fn goes_past(b: SearchBudget, l: image::Lane, f: Stored, t: Tally) -> bool
    requires { t.work < b.max_work }
    ensures { result ≡ true → Further b l f t }
{
    3 <= b.max_work - t.work && 0 < f.next && f.next as usize <= l.count
}

// The frame on top, whose ports ahead are all blocked, past members and ports as far as work leads; one unit is left.
fn pass_ports(
    image: &[u8],
    h: image::Header,
    memo: &mut [usize; landings::MEMO],
    b: SearchBudget,
    frames: &mut [u64],
    depth: usize,
    l: image::Lane,
    first: Stored,
    from: Tally,
) -> Tally
    requires { Accepted image.now h × Stands image.now h l × Known image.now h memo.old × Stuck image.now h b frames.old from depth l first }
    ensures passed { Passed image.now h b frames.old frames.new from result depth false }
    ensures known { Known image.now h memo.new }
{
    let mut f = first;
    let mut t = from;
    loop {
        let members = f.hub_end.saturating_sub(f.hub_next);
        let m = members.min(b.max_work - t.work - 1);
        f = with_fewer(f, m);
        t.work += m;
        t.donors += m;
        if !goes_past(b, l, f, t) {
            break;
        }
        let n = to_close(f);
        f = advance::past_next(image, h, memo, l, f);
        t.work += n + 1;
    }
    frames::put_frame(frames, depth - 1, f);
    t
}

// Where the piece to the top's open hub is not clear, that hub and the ports ahead are passed over at once.
fn pass_over(
    image: &[u8],
    h: image::Header,
    starts: &[usize; 4096],
    memo: &mut [usize; landings::MEMO],
    b: SearchBudget,
    frames: &mut [u64],
    depth: usize,
    clear: bool,
    t: Tally,
) -> Tally
    requires { Accepted image.now h × Started image.now h starts.now × Known image.now h memo.old × Under image.now h b frames.old t depth clear }
    ensures passed { Passed image.now h b frames.old frames.new t result depth clear }
    ensures known { Known image.now h memo.new }
{
    if clear {
        return t;
    }
    let f = frames::frame_at(frames, depth - 1);
    if f.terminal || f.hub_end == 0 {
        return t;
    }
    let l = image::lane_of(image, h, starts, f.source as usize);
    if advance::leads_on(image, h, l, f) {
        pass_ports(image, h, memo, b, frames, depth, l, f, t)
    } else {
        t
    }
}

// The walk goes on from where it stands.
pub fn go_on(
    image: &[u8],
    h: image::Header,
    starts: &[usize; 4096],
    memo: &mut [usize; landings::MEMO],
    b: SearchBudget,
    frames: &mut [u64],
    from: Standing,
) -> Pause
    requires { Accepted image.now h × Started image.now h starts.now × Walking image.now h b frames.old from.tally from.depth from.start from.clear × Known image.now h memo.old }
    ensures paused { Paused image.now h b frames.old frames.new from result }
    ensures known { Known image.now h memo.new }
{
    let mut t = from.tally;
    let mut depth = from.depth;
    let mut start = from.start;
    let mut clear = from.clear;
    let halt = 'families: loop {
        let family = image::family_from(image, h, t.families as usize, start);
        while depth != 0 {
            if t.work >= b.max_work {
                break 'families Halt::Stopped(Stop::Work);
            }
            if t.evaluations >= b.max_evaluations {
                break 'families Halt::Stopped(Stop::Evaluation);
            }
            t = pass_over(image, h, starts, memo, b, frames, depth, clear, t);
            let turn = advance::advance(image, h, starts, memo, family, frames, depth - 1, clear);
            t.work += 1;
            t.donors += turn.taken;
            clear = turn.clear;
            match turn.action {
                Action::Leave => depth -= 1,
                Action::Pass => {}
                Action::Down(f) => {
                    if depth as u64 >= b.max_frontier {
                        frames::put_frame(frames, depth, f);
                        break 'families Halt::Stopped(Stop::Frontier);
                    }
                    let e = advance::enter(image, h, starts, f);
                    frames::put_frame(frames, depth, e);
                    depth += 1;
                }
                Action::Give(s) => {
                    t.evaluations += 1;
                    break 'families Halt::Due(s);
                }
            }
        }
        start = image::family_end(image, h, family);
        t.families += 1;
        if t.families as usize >= h.families {
            break 'families Halt::Stopped(Stop::Exhausted);
        }
        put_root(image, h, starts, frames, t.families as usize, start);
        depth = 1;
        clear = true;
    };
    Pause {
        halt,
        at: Standing {
            tally: t,
            depth,
            start,
            clear,
        },
    }
}

// ---- a walk that stopped

// Whether a child is pending where this stopped the walk.
pub fn is_pending(s: Stop) -> bool
    ensures { result ≡ pending_at s }
{
    matches!(s, Stop::Frontier)
}

// The status: exhausted with or without an assignment discarded, or the budget that stopped the walk.
pub fn status_of(s: Stop, discarded: bool) -> Status
    ensures { result ≡ status_of s discarded }
{
    match s {
        Stop::Exhausted if discarded => Status::SupportIncomplete,
        Stop::Exhausted => Status::Certified,
        Stop::Work => Status::WorkExhausted,
        Stop::Evaluation => Status::EvaluationExhausted,
        Stop::Frontier => Status::FrontierExhausted,
    }
}

pub fn status_number(s: Stop, discarded: bool) -> u64
    ensures { result ≡ status_number (status_of s discarded) }
{
    status_of(s, discarded).number()
}

fn frames_used(s: Stop, depth: usize) -> usize
    requires { depth ≤ 1024 }
    ensures { (result ≡ used_by s depth) × (result ≤ depth + 1) }
{
    match s {
        Stop::Exhausted | Stop::Work | Stop::Evaluation => depth,
        Stop::Frontier => depth + 1,
    }
}

// The frame room past the stack, and past a child that is pending, is zeroed.
pub fn leave_frames(b: SearchBudget, frames: &mut [u64], stop: Stop, depth: usize)
    requires { (b.max_frontier ≤ 1024) × (depth ≤ b.max_frontier) × ((b.max_frontier + 1) * frame_width ≤ length frames.old) }
    ensures { frames.new ≡ zeroed (used_by stop depth * frame_width) ((b.max_frontier + 1) * frame_width) frames.old }
{
    let needed = (b.max_frontier as usize + 1) * Stored::WORDS;
    let used = frames_used(stop, depth) * Stored::WORDS;
    frames::clear_words(frames, used, needed);
}
