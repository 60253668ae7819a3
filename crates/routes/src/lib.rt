// Refusals 25 to 30, route by route.
#![tactic(auto)]

ghost use Rattle.std.specs.Prelude.{◌≡◌, not, ◌&&◌, ◌+◌, ◌*◌, ◌≤◌, ◌<◌, eqb, length, drop};
ghost use Rattle.ground.specs.Lists.{all};
ghost use Rattle.image.specs.Inner.{Framed, Started, Groups};
ghost use Rattle.image.specs.Panel.{panel_of, lane_at, paths_at};
ghost use Rattle.panel.specs.Inner.{Accepted};
ghost use Rattle.graph.specs.Lookups.{found, ports_at};
ghost use Rattle.evaluate.specs.Segments.{sound_span};
ghost use Rattle.evaluate.specs.Check.{leaves, joint_refusal, joints_refusal, normal_refusal, route_refusal, routes_refusal};
ghost use Rattle.words.specs.Inner.{segments_of, routes_of, Parsed, normal_of, normal_from};
ghost use Rattle.routes.specs.Refusals.{number_of, refusal_of, refused_of};

// What is refused of a route.
#[derive(Clone, Copy, PartialEq, Eq, Debug)]
pub enum RouteRefusal {
    Empty,
    Span,
    Ends,
    NoExit,
    NoEntry,
    Words,
}

impl RouteRefusal {
    // Its number, 25 to 30.
    pub fn number(self) -> u64
        ensures { result ≡ number_of self }
    {
        match self {
            RouteRefusal::Empty => 25,
            RouteRefusal::Span => 26,
            RouteRefusal::Ends => 27,
            RouteRefusal::NoExit => 28,
            RouteRefusal::NoEntry => 29,
            RouteRefusal::Words => 30,
        }
    }
}

// The first route that is refused, and why.
#[derive(Clone, Copy, PartialEq, Eq, Debug)]
pub struct RefusedRoute {
    pub route: u64,
    pub why: RouteRefusal,
}

// The length of a lane; where there is no such lane, none.
pub fn lane_len(image: &[u8], h: image::Header, lane: usize) -> u64
    requires { Framed image.now h }
    ensures { result ≡ (lane_at (panel_of image.now) lane).len }
{
    if lane < h.lanes {
        image::lane_entry(image, h, lane).len
    } else {
        0
    }
}

// 26.
#[tactic(auto, using(crate::proofs::Laws::lane_count))]
pub fn is_sound(image: &[u8], h: image::Header, s: evaluate::Segment) -> bool
    requires { Framed image.now h }
    ensures { result ≡ sound_span (panel_of image.now) s }
{
    s.source < h.lanes as u64 && s.start < s.end && s.end <= lane_len(image, h, s.source as usize)
}

// Whether every segment as given is a sound span.
fn are_sound(image: &[u8], h: image::Header, words: &[u64], at: usize, left: usize) -> bool
    requires { Framed image.now h × (at + 4 * left ≤ length words.now) }
    ensures { result ≡ all (sound_span (panel_of image.now)) (segments_of left (drop at words.now)) }
{
    (0..left).all(|i| {
        let s = words::segment_at(words, at + evaluate::Segment::WORDS * i);
        is_sound(image, h, s)
    })
}

// 27: whether a segment is of this lane, forward, with this cut where it should be.
pub fn is_forward_at(s: evaluate::Segment, target: u64, cut: u64, wanted: u64) -> bool
    ensures { result ≡ (eqb s.source target && eqb cut wanted && not s.reverse) }
{
    s.source == target && cut == wanted && !s.reverse
}

// Whether a route in normal form leaves its target lane forward at the lane's end.
#[tactic(auto, using(crate::proofs::Laws::leaving_steps))]
fn is_leaving(
    image: &[u8],
    h: image::Header,
    words: &[u64],
    target: usize,
    first: words::Cursor,
) -> bool
    requires { Framed image.now h × (first.at + 4 * first.left ≤ length words.now) }
    ensures { result ≡ leaves (panel_of image.now) target (normal_from words.now first) }
{
    let len = lane_len(image, h, target);
    let mut c = first;
    while 0 < c.left {
        c = words::normal_at(words, c.at, c.left);
    }
    let s = c.segment;
    is_forward_at(s, target as u64, s.exit(), len)
}

// The port of a lane at a cut; where there is no such lane, none.
#[tactic(auto, using(crate::proofs::Laws::port_steps))]
fn port_of(
    image: &[u8],
    h: image::Header,
    starts: &[usize; 4096],
    lane: usize,
    cut: u64,
    reverse: bool,
) -> Option<storage::Port>
    requires { Accepted image.now h × Started image.now h starts.now }
    ensures { result ≡ found (ports_at (panel_of image.now) lane cut reverse) }
{
    if h.lanes <= lane {
        return None;
    }
    let l = image::lane_of(image, h, starts, lane);
    graph::lane_port_at_cut(image, h, l, cut, reverse)
}

// 28, 29, 30.
#[tactic(auto, using(crate::proofs::Laws::joint_steps))]
pub fn check_joint(
    image: &[u8],
    h: image::Header,
    starts: &[usize; 4096],
    s: evaluate::Segment,
    t: evaluate::Segment,
) -> Result<(), RouteRefusal>
    requires { Accepted image.now h × Started image.now h starts.now }
    ensures { refusal_of result ≡ joint_refusal (panel_of image.now) s t }
{
    let Some(going) = port_of(image, h, starts, s.source as usize, s.exit(), s.reverse) else {
        return Err(RouteRefusal::NoExit);
    };
    let Some(coming) = port_of(image, h, starts, t.source as usize, t.entry(), t.reverse) else {
        return Err(RouteRefusal::NoEntry);
    };
    if going.word == coming.word {
        Ok(())
    } else {
        Err(RouteRefusal::Words)
    }
}

// The first refusal at a joint of a route in normal form.
#[tactic(auto, using(crate::proofs::Laws::joints_steps))]
fn check_joints(
    image: &[u8],
    h: image::Header,
    starts: &[usize; 4096],
    words: &[u64],
    first: words::Cursor,
) -> Result<(), RouteRefusal>
    requires { Accepted image.now h × Started image.now h starts.now × (first.at + 4 * first.left ≤ length words.now) }
    ensures { refusal_of result ≡ joints_refusal (panel_of image.now) (normal_from words.now first) }
{
    let mut c = first;
    while 0 < c.left {
        let d = words::normal_at(words, c.at, c.left);
        check_joint(image, h, starts, c.segment, d.segment)?;
        c = d;
    }
    Ok(())
}

// 27 to 30, on the normal form.
#[tactic(auto, using(crate::proofs::Laws::normal_steps))]
fn check_normal(
    image: &[u8],
    h: image::Header,
    starts: &[usize; 4096],
    words: &[u64],
    target: usize,
    at: usize,
    left: usize,
) -> Result<(), RouteRefusal>
    requires { Accepted image.now h × Started image.now h starts.now × (0 < left) × (at + 4 * left ≤ length words.now) }
    ensures { refusal_of result ≡ normal_refusal (panel_of image.now) target (normal_of words.now at left) }
{
    let first = words::normal_at(words, at, left);
    let s = first.segment;
    if !is_forward_at(s, target as u64, s.entry(), 0)
        || !is_leaving(image, h, words, target, first)
    {
        return Err(RouteRefusal::Ends);
    }
    check_joints(image, h, starts, words, first)
}

// 25 to 30.
#[tactic(auto, using(crate::proofs::Laws::route_steps))]
fn check_route(
    image: &[u8],
    h: image::Header,
    starts: &[usize; 4096],
    words: &[u64],
    target: usize,
    at: usize,
    left: usize,
) -> Result<(), RouteRefusal>
    requires { Accepted image.now h × Started image.now h starts.now × (at + 4 * left ≤ length words.now) }
    ensures { refusal_of result ≡ route_refusal (panel_of image.now) target (segments_of left (drop at words.now)) }
{
    if left == 0 {
        return Err(RouteRefusal::Empty);
    }
    if !are_sound(image, h, words, at, left) {
        return Err(RouteRefusal::Span);
    }
    check_normal(image, h, starts, words, target, at, left)
}

// Route by route, each against its path of the family.
#[tactic(auto, using(crate::proofs::Laws::routes_steps))]
pub fn check_routes(
    image: &[u8],
    h: image::Header,
    starts: &[usize; 4096],
    words: &[u64],
    f: image::Family,
) -> Result<(), RefusedRoute>
    requires { Accepted image.now h × Started image.now h starts.now × Groups image.now h f × Parsed words.now f.count 2 }
    ensures { refused_of result ≡ routes_refusal (panel_of image.now) 0 (paths_at (panel_of image.now) f.number) (routes_of f.count (drop 2 words.now)) }
{
    let mut at: usize = 2;
    for i in 0..f.count {
        let target = image::family_path(image, h, f, i);
        let left = words::count_at(words, at);
        check_route(image, h, starts, words, target, at + 1, left).map_err(|why| RefusedRoute {
            route: i as u64,
            why,
        })?;
        at += 1 + evaluate::Segment::WORDS * left;
    }
    Ok(())
}
