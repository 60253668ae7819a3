// The walk's stack: frames of ten words in a lent room.
#![tactic(auto)]

ghost use Rattle.std.specs.Prelude.{◌≡◌, ◌++◌, ◌+◌, ◌-◌, ◌*◌, ◌≤◌, length, take, drop, replicate};
ghost use Rattle.evaluate.specs.Segments.{clear};
ghost use Rattle.search.specs.Rooms.{frame_width};
ghost use Rattle.frames.specs.Inner.{put, stored_at, piece_at, pieces, apart_from};

// A frame as it is stored (01, "Room left behind"): its words in their order.
#[derive(Clone, Copy, PartialEq, Eq, Debug)]
pub struct Stored {
    pub slot: u64,
    pub source: u64,
    pub cut: u64,
    pub reverse: bool,
    pub terminal: bool,
    pub next: u64,
    pub hub_next: u64,
    pub hub_end: u64,
    pub start: u64,
    pub end: u64,
}

impl Stored {
    // The words of a frame.
    pub const WORDS: usize = 10;
}

#[tactic(auto, unfolding(crate::specs::Inner::put))]
pub fn put_frame(frames: &mut [u64], index: usize, f: Stored)
    requires { (index + 1) * frame_width ≤ length frames.old }
    ensures { frames.new ≡ put frames.old index f }
{
    let at = index * Stored::WORDS;
    frames[at] = f.slot;
    frames[at + 1] = f.source;
    frames[at + 2] = f.cut;
    frames[at + 3] = u64::from(f.reverse);
    frames[at + 4] = u64::from(f.terminal);
    frames[at + 5] = f.next;
    frames[at + 6] = f.hub_next;
    frames[at + 7] = f.hub_end;
    frames[at + 8] = f.start;
    frames[at + 9] = f.end;
}

#[tactic(auto, unfolding(crate::specs::Inner::stored_at))]
pub fn frame_at(frames: &[u64], index: usize) -> Stored
    requires { (index + 1) * frame_width ≤ length frames.now }
    ensures { result ≡ stored_at frames.now index }
{
    let at = index * Stored::WORDS;
    Stored {
        slot: frames[at],
        source: frames[at + 1],
        cut: frames[at + 2],
        reverse: frames[at + 3] == 1,
        terminal: frames[at + 4] == 1,
        next: frames[at + 5],
        hub_next: frames[at + 6],
        hub_end: frames[at + 7],
        start: frames[at + 8],
        end: frames[at + 9],
    }
}

// Zeroes the words from one place up to another.
pub fn clear_words(room: &mut [u64], from: usize, to: usize)
    requires { (from ≤ to) × (to ≤ length room.old) }
    ensures { room.new ≡ take from room.old ++ (replicate (to - from) 0 ++ drop to room.old) }
{
    room[from..to].fill(0);
}

// ---- the path: the pieces that lead from frame to frame

// The piece that leads from frame i to the next: on the lane and in the orientation of frame i.
pub fn piece_at(frames: &[u64], i: usize) -> evaluate::Segment
    requires { (i + 2) * frame_width ≤ length frames.now }
    ensures { result ≡ piece_at frames.now i }
{
    let at = i * Stored::WORDS;
    let above = at + Stored::WORDS;
    evaluate::Segment {
        source: frames[at + 1],
        start: frames[above + 8],
        end: frames[above + 9],
        reverse: frames[at + 3] == 1,
    }
}

// Whether two segments share no base: on one path most are of other lanes, so this is asked first, and left.
#[tactic(auto, unfolding(crate::specs::Inner::apart_from))]
fn are_apart(s: evaluate::Segment, t: evaluate::Segment) -> bool
    ensures { result ≡ apart_from s t }
{
    if s.source != t.source {
        return true;
    }
    t.end <= s.start || s.end <= t.start
}

// Whether a segment shares no base with the pieces that lead up to frame n.
pub fn is_clear(frames: &[u64], n: usize, s: evaluate::Segment) -> bool
    requires { (n + 1) * frame_width ≤ length frames.now }
    ensures { result ≡ clear s (pieces frames.now n) }
{
    (0..n).all(|i| are_apart(s, piece_at(frames, i)))
}
