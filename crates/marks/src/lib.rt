// What the counters ask of one assignment, read from its words: its switches, and whether a route is over two lanes or two identities.
#![tactic(auto)]

ghost use Rattle.std.specs.Prelude.{◌≡◌, ℕ, ◌+◌, ◌*◌, ◌≤◌, length, drop};
ghost use Rattle.ground.specs.Lists.{any};
ghost use Rattle.image.specs.Inner.{Framed};
ghost use Rattle.image.specs.Panel.{panel_of, lane_at};
ghost use Rattle.evaluate.specs.declared.Segment.{Segment};
ghost use Rattle.evaluate.specs.Segments.{flat};
ghost use Rattle.words.specs.Inner.{segments_of, routes_of, assignment_of, Parsed, Formed};
ghost use Rattle.search.specs.Counters.{varies};
ghost use Rattle.marks.specs.Inner.{Tells, marks_of};

#[derive(Clone, Copy, PartialEq, Eq, Debug)]
pub struct Marks {
    pub switches: u64,
    pub lanes: bool,
    pub identities: bool,
}

// The identity of a lane; where there is no such lane, 0.
fn identity(image: &[u8], h: image::Header, lane: usize) -> u64
    requires { Framed image.now h }
    ensures { result ≡ (lane_at (panel_of image.now) lane).identity }
{
    if lane < h.lanes {
        image::lane_entry(image, h, lane).identity
    } else {
        0
    }
}

// ---- a route over two values of a segment: two lanes, two identities

// Whether a route's segments have two values.
fn varies<F: Fn(evaluate::Segment) -> u64>(words: &[u64], at: usize, left: usize, value: &F) -> bool
    requires room { at + 4 * left ≤ length words.now }
    requires callable { F.IsAlwaysCallable value.now }
    ensures { (f : Segment → ℕ) → Tells (F.post value.now) f → result ≡ varies f (segments_of left (drop at words.now)) }
{
    if left == 0 {
        return false;
    }
    let first = value(words::segment_at(words, at));
    (1..left).any(|i| {
        let s = words::segment_at(words, at + evaluate::Segment::WORDS * i);
        value(s) != first
    })
}

// Whether any route has two values.
fn mixes<F: Fn(evaluate::Segment) -> u64>(words: &[u64], at: usize, routes: usize, value: F) -> bool
    requires routes { Parsed words.now routes at }
    requires callable { F.IsAlwaysCallable value }
    ensures { (f : Segment → ℕ) → Tells (F.post value) f → result ≡ any (varies f) (routes_of routes (drop at words.now)) }
{
    let mut place = at;
    for _ in 0..routes {
        let left = words::count_at(words, place);
        if varies(words, place + 1, left, &value) {
            return true;
        }
        place += 1 + evaluate::Segment::WORDS * left;
    }
    false
}

// ---- switches

// The segments of all routes.
fn segment_count(words: &[u64], at: usize, routes: usize) -> usize
    requires { Parsed words.now routes at }
    ensures { result ≡ length (flat (routes_of routes (drop at words.now))) }
{
    let mut place = at;
    let mut count = 0;
    for _ in 0..routes {
        let left = words::count_at(words, place);
        count += left;
        place += 1 + evaluate::Segment::WORDS * left;
    }
    count
}

pub fn marks_of(image: &[u8], h: image::Header, words: &[u64]) -> Marks
    requires { Framed image.now h × Formed words.now }
    ensures { result ≡ marks_of (panel_of image.now) (assignment_of words.now) }
{
    let routes = words[1] as usize;
    let lanes = mixes(words, 2, routes, |s| s.source);
    let identities = mixes(words, 2, routes, |s| identity(image, h, s.source as usize));
    let switches = segment_count(words, 2, routes).saturating_sub(routes) as u64;
    Marks {
        switches,
        lanes,
        identities,
    }
}
