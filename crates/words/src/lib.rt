// The words of an assignment: whether they are well formed, the segments read in place, the normal form read and written.
#![tactic(auto)]

ghost use Rattle.std.specs.Prelude.{◌≡◌, [], ◌∷◌, ◌+◌, ◌*◌, ◌≤◌, ◌<◌, length, drop, get_or};
ghost use Rattle.std.proofs.lemmas.List.Edits.{sets};
ghost use Rattle.evaluate.specs.Segments.{joinable, joined};
ghost use Rattle.evaluate.specs.Words.{decode, segment_words};
ghost use Rattle.words.specs.Inner.{segment_of, formed, Parsed, Formed, RouteAt, Reached, RoutePut, RoutesPut, NormalPut};

// 22: whether the words are those of an assignment.
#[tactic(auto, using(crate::proofs::Scan::scanning))]
pub fn is_well_formed(words: &[u64]) -> bool
    ensures { result ≡ formed (decode words.now) }
{
    let n = words.len();
    if n < 2 {
        return false;
    }
    let mut at: usize = 2;
    for _ in 0..words[1] {
        if n <= at {
            return false;
        }
        let segments = words[at];
        at += 1;
        for _ in 0..segments {
            if n - at < 4 || 1 < words[at + 3] {
                return false;
            }
            at += 4;
        }
    }
    at == n
}

// How many segments the route has that stands at a word.
pub fn count_at(words: &[u64], at: usize) -> usize
    requires { at + 1 + 4 * get_or words.now at 0 ≤ length words.now }
    ensures { RouteAt words.now at result }
{
    words[at] as usize
}

// The segment that stands at a word.
#[tactic(auto, using(crate::proofs::Reading::segment_read))]
pub fn segment_at(words: &[u64], at: usize) -> evaluate::Segment
    requires { at + 4 ≤ length words.now }
    ensures { result ≡ segment_of (drop at words.now) }
{
    let source = words[at];
    let start = words[at + 1];
    let end = words[at + 2];
    let reverse = words[at + 3] == 1;
    evaluate::Segment {
        source,
        start,
        end,
        reverse,
    }
}

// A segment of a normal form, and where the given segments that follow it stand.
#[derive(Clone, Copy)]
pub struct Cursor {
    pub segment: evaluate::Segment,
    pub at: usize,
    pub left: usize,
}

pub fn is_joinable(s: evaluate::Segment, t: evaluate::Segment) -> bool
    ensures { result ≡ joinable s t }
{
    s.source == t.source && s.reverse == t.reverse && s.exit() == t.entry()
}

pub fn join(s: evaluate::Segment, t: evaluate::Segment) -> evaluate::Segment
    ensures { result ≡ joined s t }
{
    evaluate::Segment {
        source: s.source,
        start: s.start.min(t.start),
        end: s.end.max(t.end),
        reverse: s.reverse,
    }
}

// The first segment of the normal form of those that stand from a place on.
#[tactic(auto, using(crate::proofs::Normal::joining_steps))]
pub fn normal_at(words: &[u64], at: usize, left: usize) -> Cursor
    requires { (0 < left) × (at + 4 * left ≤ length words.now) }
    ensures { Reached words.now at left result }
{
    let mut segment = segment_at(words, at);
    for i in 1..left {
        let place = at + evaluate::Segment::WORDS * i;
        let t = segment_at(words, place);
        if !is_joinable(segment, t) {
            return Cursor {
                segment,
                at: place,
                left: left - i,
            };
        }
        segment = join(segment, t);
    }
    Cursor {
        segment,
        at: at + evaluate::Segment::WORDS * left,
        left: 0,
    }
}

#[tactic(auto, using(crate::proofs::Writing::byte_bit))]
pub fn put_segment(out: &mut [u64], to: usize, s: evaluate::Segment)
    requires { to + 4 ≤ length out.old }
    ensures { out.new ≡ sets out.old to (segment_words (s ∷ [])) }
{
    out[to] = s.source;
    out[to + 1] = s.start;
    out[to + 2] = s.end;
    out[to + 3] = u64::from(s.reverse);
}

// A route's normal form, its count first; the place after it.
fn put_route(out: &mut [u64], to: usize, words: &[u64], at: usize, left: usize) -> usize
    requires { (to < at) × (at + 4 * left ≤ length words.now) × (length words.now ≤ length out.old) }
    ensures { RoutePut words.now to at left out.old out.new result }
{
    let mut next = to + 1;
    let mut count = 0;
    let mut place = at;
    let mut n = left;
    while 0 < n {
        let c = normal_at(words, place, n);
        let s = c.segment;
        put_segment(out, next, s);
        next += evaluate::Segment::WORDS;
        count += 1;
        place = c.at;
        n = c.left;
    }
    out[to] = count;
    next
}

// The normal forms of all routes, from the third word on; the place after them.
#[tactic(auto, using(crate::proofs::Writing::encoding))]
fn put_routes(out: &mut [u64], words: &[u64], routes: usize) -> usize
    requires { Parsed words.now routes 2 × (length words.now ≤ length out.old) }
    ensures { RoutesPut words.now routes out.old out.new result }
{
    let mut to: usize = 2;
    let mut at: usize = 2;
    for _ in 0..routes {
        let left = count_at(words, at);
        to = put_route(out, to, words, at + 1, left);
        at += 1 + evaluate::Segment::WORDS * left;
    }
    to
}

// The words of the normal form; how many they are.
pub fn put_normal(out: &mut [u64], words: &[u64]) -> usize
    requires { Formed words.now × (length words.now ≤ length out.old) }
    ensures { NormalPut words.now out.old out.new result }
{
    out[0] = words[0];
    out[1] = words[1];
    put_routes(out, words, words[1] as usize)
}
