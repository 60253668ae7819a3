// One unit of the walk on the top frame (search.rs, Frame::advance).
#![tactic(auto)]

ghost use Rattle.std.specs.Prelude.{◌≡◌, true, false, ◌+◌, ◌*◌, ◌≤◌, ◌<◌, length, get_or};
ghost use Rattle.storage.specs.Records.{no_port};
ghost use Rattle.image.specs.Image.{ports_of};
ghost use Rattle.image.specs.Inner.{Started, Stands, Groups};
ghost use Rattle.image.specs.Panel.{panel_of};
ghost use Rattle.panel.specs.Inner.{Accepted};
ghost use Rattle.search.specs.Walk.{piece_to, behind, onward};
ghost use Rattle.search.specs.Rooms.{frame_width};
ghost use Rattle.frames.specs.Inner.{path_at, frame_with, pieces};
ghost use Rattle.landings.specs.Inner.{Known};
ghost use Rattle.advance.specs.Inner.{bare, moved_to, child_of, entered, leaving, closes_by, Sound, Flagged, Ends, Meets, On, Turned, Ready, Moved, leads_on, Past};

use evaluate::Segment;
use frames::Stored;
use landings::Landing;

// The frame of a place that is come to.
pub fn enter(image: &[u8], h: image::Header, starts: &[usize; 4096], f: Stored) -> Stored
    requires { Accepted image.now h × Started image.now h starts.now × (f.source < h.lanes) }
    ensures { result ≡ entered (panel_of image.now) f }
{
    let l = image::lane_of(image, h, starts, f.source as usize);
    let n = landings::ports_reached(image, h, l, f.cut, f.reverse) as u64;
    let next = if f.reverse { n } else { n + 1 };
    Stored { next, ..f }
}

// What a unit does.
#[derive(Clone, Copy)]
pub enum Action {
    Leave,
    Pass,
    Down(Stored),
    Give(Segment),
}

// What it does, the frame as it is then, the hub members taken, and whether the piece to the open hub's port is clear of the path.
#[derive(Clone, Copy)]
pub struct Turn {
    pub action: Action,
    pub frame: Stored,
    pub taken: u64,
    pub clear: bool,
}

// The piece from a frame's cut to another.
fn piece_to(f: Stored, to: u64) -> Segment
    ensures { result ≡ piece_to (bare f) to }
{
    Segment {
        source: f.source,
        start: f.cut.min(to),
        end: f.cut.max(to),
        reverse: f.reverse,
    }
}

fn moved(f: Stored, next: u64, lo: u64, hi: u64) -> Stored
    ensures { result ≡ moved_to f next lo hi }
{
    Stored {
        terminal: false,
        next,
        hub_next: lo,
        hub_end: hi,
        ..f
    }
}

// A child: where it lands, and the piece that leads there.
fn child(slot: u64, to: Landing, s: Segment) -> Stored
    ensures { result ≡ child_of slot to s }
{
    Stored {
        slot,
        source: to.source,
        cut: to.cut,
        reverse: to.reverse,
        terminal: true,
        next: 0,
        hub_next: 0,
        hub_end: 0,
        start: s.start,
        end: s.end,
    }
}

// ---- the terminal

// Whether the frame's route can be closed on the target lane.
fn closes(target: usize, len: u64, frames: &[u64], top: usize, f: Stored) -> bool
    requires { (top + 1) * frame_width ≤ length frames.now }
    ensures { result ≡ closes_by target len f (pieces frames.now top) }
{
    f.source as usize == target
        && !f.reverse
        && f.cut < len
        && frames::is_clear(frames, top, piece_to(f, len))
}

// The last slot's route is given; another's leads to the next slot.
fn end_route(image: &[u8], h: image::Header, family: image::Family, f: Stored, len: u64) -> Action
    requires { Accepted image.now h × Groups image.now h family × (f.slot < family.count) }
    ensures { Ends image.now h family f len result }
{
    let s = piece_to(f, len);
    let slot = f.slot + 1;
    if slot as usize == family.count {
        Action::Give(s)
    } else {
        let lane = image::family_path(image, h, family, slot as usize);
        let to = Landing {
            source: lane as u64,
            cut: 0,
            reverse: false,
        };
        Action::Down(child(slot, to, s))
    }
}

pub fn terminal_unit(
    image: &[u8],
    h: image::Header,
    family: image::Family,
    l: image::Lane,
    frames: &[u64],
    top: usize,
    f: Stored,
) -> Turn
    requires { On image.now h family l frames.now top f × (f.terminal ≡ true) }
    ensures { Turned image.now h family (path_at frames.now top) f result }
{
    let target = image::family_path(image, h, family, f.slot as usize);
    let frame = moved(f, f.next, f.hub_next, f.hub_end);
    let action = if closes(target, l.len, frames, top, f) {
        end_route(image, h, family, f, l.len)
    } else {
        Action::Pass
    };
    Turn {
        action,
        frame,
        taken: 0,
        clear: true,
    }
}

// ---- the open hub

// The port whose bucket is open: the one behind the next.
fn behind_next(f: Stored) -> usize
    requires { f.reverse ≡ false → 2 ≤ f.next }
    ensures { result ≡ behind f.reverse f.next }
{
    let next = f.next as usize;
    if f.reverse { next } else { next - 2 }
}

// A hub member: the piece up to the outgoing cut is not clear, so it is passed over unread, or it is the outgoing port itself, or it is
// gone down to.
pub fn meet(
    image: &[u8],
    h: image::Header,
    family: image::Family,
    l: image::Lane,
    f: Stored,
    clear: bool,
) -> Action
    requires { Accepted image.now h × Stands image.now h l × (l.number ≡ f.source) × Sound image.now h family.count f × (f.hub_next < f.hub_end) }
    ensures { Meets image.now h family f clear result }
{
    if !clear {
        return Action::Pass;
    }
    let out = landings::lane_landing(image, h, l, behind_next(f));
    let to = landings::hub_landing(image, h, f.hub_next as usize);
    if to == out {
        return Action::Pass;
    }
    Action::Down(child(f.slot, to, piece_to(f, out.cut)))
}

// A member is taken, or the used-up hub is closed.
fn hub_unit(
    image: &[u8],
    h: image::Header,
    family: image::Family,
    l: image::Lane,
    frames: &[u64],
    top: usize,
    f: Stored,
    clear: bool,
) -> Turn
    requires { On image.now h family l frames.now top f × (f.terminal ≡ false) × (f.hub_end ≡ 0 → ⊥) × Flagged (panel_of image.now) (frame_with (path_at frames.now top) f) clear }
    ensures { Turned image.now h family (path_at frames.now top) f result }
{
    if f.hub_next < f.hub_end {
        let action = meet(image, h, family, l, f, clear);
        let frame = moved(f, f.next, f.hub_next + 1, f.hub_end);
        Turn {
            action,
            frame,
            taken: 1,
            clear,
        }
    } else {
        let frame = moved(f, f.next, 0, 0);
        Turn {
            action: Action::Pass,
            frame,
            taken: 0,
            clear: true,
        }
    }
}

// ---- the next port

// Rising when forward, falling when reverse.
fn go_onward(f: Stored) -> u64
    requires { (0 < f.next) × (f.next ≤ 4194304) }
    ensures { result ≡ onward f.reverse f.next }
{
    if f.reverse { f.next - 1 } else { f.next + 1 }
}

// The frame past its next port: one of the frame's orientation opens its bucket, another is passed over. A hub that was open is closed by it.
pub fn past_next(
    image: &[u8],
    h: image::Header,
    memo: &mut [usize; landings::MEMO],
    l: image::Lane,
    f: Stored,
) -> Stored
    requires { Accepted image.now h × Stands image.now h l × (0 < f.next) × (f.next ≤ l.count) × Known image.now h memo.old }
    ensures past { Past image.now h l f result }
    ensures known { Known image.now h memo.new }
{
    let i = f.next as usize - 1;
    let q = landings::lane_landing(image, h, l, i);
    let on = go_onward(f);
    if q.reverse == f.reverse {
        let m = landings::port_bucket(image, h, memo, l, i);
        moved(f, on, m.lo as u64, m.hi as u64)
    } else {
        moved(f, on, 0, 0)
    }
}

// The next port is passed; where its bucket opens, the piece up to it is held against the path.
pub fn pass_port(
    image: &[u8],
    h: image::Header,
    memo: &mut [usize; landings::MEMO],
    family: image::Family,
    l: image::Lane,
    frames: &[u64],
    top: usize,
    f: Stored,
) -> Turn
    requires { On image.now h family l frames.now top f × (f.terminal ≡ false) × (f.hub_end ≡ 0) × (0 < f.next) × (f.next ≤ l.count) × Known image.now h memo.old }
    ensures turned { Turned image.now h family (path_at frames.now top) f result }
    ensures known { Known image.now h memo.new }
{
    let frame = past_next(image, h, memo, l, f);
    if frame.hub_end == 0 {
        return Turn {
            action: Action::Pass,
            frame,
            taken: 0,
            clear: true,
        };
    }
    let q = landings::lane_landing(image, h, l, f.next as usize - 1);
    let clear = frames::is_clear(frames, top, piece_to(f, q.cut));
    Turn {
        action: Action::Pass,
        frame,
        taken: 0,
        clear,
    }
}

// No port remains.
fn leave(f: Stored) -> Turn
    ensures { result ≡ leaving f }
{
    Turn {
        action: Action::Leave,
        frame: f,
        taken: 0,
        clear: true,
    }
}

fn port_unit(
    image: &[u8],
    h: image::Header,
    memo: &mut [usize; landings::MEMO],
    family: image::Family,
    l: image::Lane,
    frames: &[u64],
    top: usize,
    f: Stored,
) -> Turn
    requires { On image.now h family l frames.now top f × (f.terminal ≡ false) × (f.hub_end ≡ 0) × Known image.now h memo.old }
    ensures turned { Turned image.now h family (path_at frames.now top) f result }
    ensures known { Known image.now h memo.new }
{
    if f.next == 0 || l.count < f.next as usize {
        return leave(f);
    }
    pass_port(image, h, memo, family, l, frames, top, f)
}

// ---- one unit

fn unit(
    image: &[u8],
    h: image::Header,
    memo: &mut [usize; landings::MEMO],
    family: image::Family,
    l: image::Lane,
    frames: &[u64],
    top: usize,
    f: Stored,
    clear: bool,
) -> Turn
    requires { On image.now h family l frames.now top f × Flagged (panel_of image.now) (frame_with (path_at frames.now top) f) clear × Known image.now h memo.old }
    ensures turned { Turned image.now h family (path_at frames.now top) f result }
    ensures known { Known image.now h memo.new }
{
    if f.terminal {
        return terminal_unit(image, h, family, l, frames, top, f);
    }
    if f.hub_end == 0 {
        port_unit(image, h, memo, family, l, frames, top, f)
    } else {
        hub_unit(image, h, family, l, frames, top, f, clear)
    }
}

// One unit on the frame at top.
pub fn advance(
    image: &[u8],
    h: image::Header,
    starts: &[usize; 4096],
    memo: &mut [usize; landings::MEMO],
    family: image::Family,
    frames: &mut [u64],
    top: usize,
    clear: bool,
) -> Turn
    requires { Ready image.now h starts.now family frames.old top clear × Known image.now h memo.old }
    ensures moved { Moved image.now h family frames.old frames.new top result }
    ensures known { Known image.now h memo.new }
{
    let f = frames::frame_at(frames, top);
    let l = image::lane_of(image, h, starts, f.source as usize);
    let t = unit(image, h, memo, family, l, frames, top, f, clear);
    frames::put_frame(frames, top, t.frame);
    t
}

// ---- a frame whose ports ahead are all blocked

// Whether the open hub's port is of the frame's orientation and not behind its cut. Then the piece to any port ahead of it is longer: where
// the one is not clear, none is.
pub fn leads_on(image: &[u8], h: image::Header, l: image::Lane, f: Stored) -> bool
    requires { Accepted image.now h × Stands image.now h l × (l.number ≡ f.source) × (behind f.reverse f.next < l.count) × (f.reverse ≡ false → 2 ≤ f.next) }
    ensures { result ≡ leads_on h.k f (get_or (ports_of h image.now l.number) (behind f.reverse f.next) no_port) }
{
    let out = landings::lane_landing(image, h, l, behind_next(f));
    if out.reverse != f.reverse {
        return false;
    }
    if f.reverse {
        out.cut <= f.cut
    } else {
        f.cut <= out.cut
    }
}
