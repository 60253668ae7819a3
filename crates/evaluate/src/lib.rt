// Segments, routes and assignments (evaluate.rs).
#![tactic(auto)]

ghost use Rattle.std.specs.Prelude.{◌≡◌};
ghost use Rattle.evaluate.specs.Segments.{entry, exit};

// A piece of a lane: its bases from start up to end, read forward or reverse.
#[derive(Clone, Copy, PartialEq, Eq, Debug)]
pub struct Segment {
    pub source: u64,
    pub start: u64,
    pub end: u64,
    pub reverse: bool,
}

impl Segment {
    // How many words a segment has.
    pub const WORDS: usize = 4;

    // Where a route comes onto the segment.
    pub fn entry(self) -> u64
        ensures { result ≡ entry self }
    {
        if self.reverse { self.end } else { self.start }
    }

    // Where a route goes off it.
    pub fn exit(self) -> u64
        ensures { result ≡ exit self }
    {
        if self.reverse { self.start } else { self.end }
    }
}

// A refusal: its number, 0 where nothing is refused, and its place.
#[derive(Clone, Copy, PartialEq, Eq, Debug)]
pub struct Refusal {
    pub number: u64,
    pub place: u64,
}

// What the assignment check answers: the refusal, and how many words of out it wrote.
#[repr(C)]
#[derive(Clone, Copy, PartialEq, Eq, Debug)]
pub struct AssignmentReply {
    pub refusal: u64,
    pub place: u64,
    pub words: u64,
}
