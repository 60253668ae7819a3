// Refusal 31: whether two segments share a base. Each segment is held against the earlier ones of its lane, which are chained by lane; one that lies outside all of them is clear without a walk.
#![tactic(auto)]

ghost use Rattle.std.specs.Prelude.{◌≡◌, ◌+◌, ◌*◌, ◌≤◌, ◌<◌, length, drop};
ghost use Rattle.evaluate.specs.Segments.{overlap, clear, apart, flat};
ghost use Rattle.words.specs.Inner.{routes_of, Parsed};
ghost use Rattle.overlap.specs.Chains.{bucket, chain_of, outside, Within, Descends, Linked, LinkedOne, LinkedRoute};

fn is_overlap(s: evaluate::Segment, t: evaluate::Segment) -> bool
    ensures { result ≡ overlap s t }
{
    s.source == t.source && s.start < t.end && t.start < s.end
}

// The chain of a segment: 01 has up to 4,096 lanes.
#[tactic(auto, unfolding(crate::specs::Chains::bucket))]
pub fn chain_of(s: evaluate::Segment) -> usize
    ensures { (result ≡ bucket s) × (result < 4096) }
{
    (s.source % 4096) as usize
}

// Whether a segment shares no base with those of a chain.
#[tactic(auto, using(crate::proofs::ChainLaws::follow_steps))]
fn is_clear_of(words: &[u64], links: &[usize; 16384], s: evaluate::Segment, head: usize) -> bool
    requires { Descends links.now × (head + 4 ≤ length words.now) × (length words.now ≤ 65536) }
    ensures { result ≡ clear s (chain_of words.now links.now head) }
{
    let mut e = head;
    while 0 < e {
        if is_overlap(s, words::segment_at(words, e)) {
            return false;
        }
        e = links[e / 4];
    }
    true
}

// Whether a segment lies behind or before all that is between two numbers.
#[tactic(auto, unfolding(crate::specs::Chains::outside))]
pub fn is_outside(s: evaluate::Segment, low: u64, top: u64) -> bool
    ensures { result ≡ outside s low top }
{
    top <= s.start || s.end <= low
}

// The same of a chain that lies between two numbers: a segment outside them is clear of it without a walk.
#[tactic(auto, using(crate::proofs::ChainLaws::clear_outside))]
fn is_clear(
    words: &[u64],
    links: &[usize; 16384],
    s: evaluate::Segment,
    head: usize,
    low: u64,
    top: u64,
) -> bool
    requires { Within low top (chain_of words.now links.now head) × Descends links.now × (head + 4 ≤ length words.now) × (length words.now ≤ 65536) }
    ensures { result ≡ clear s (chain_of words.now links.now head) }
{
    is_outside(s, low, top) || is_clear_of(words, links, s, head)
}

// The segment at a place against the earlier ones; it is the first of its chain afterwards.
fn link(
    words: &[u64],
    heads: &mut [usize; 4096],
    links: &mut [usize; 16384],
    lows: &mut [u64; 4096],
    tops: &mut [u64; 4096],
    at: usize,
) -> bool
    requires { Linked words.now heads.old links.old lows.old tops.old at × (0 < at) × (at + 4 ≤ length words.now) × (length words.now ≤ 65536) }
    ensures { LinkedOne words.now at heads.old links.old heads.new links.new lows.new tops.new result }
{
    let s = words::segment_at(words, at);
    let b = chain_of(s);
    let head = heads[b];
    let low = lows[b];
    let top = tops[b];
    if !is_clear(words, links, s, head, low, top) {
        return false;
    }
    links[at / 4] = head;
    heads[b] = at;
    lows[b] = low.min(s.start);
    tops[b] = top.max(s.end);
    true
}

// The segments of a route, one by one.
fn link_route(
    words: &[u64],
    heads: &mut [usize; 4096],
    links: &mut [usize; 16384],
    lows: &mut [u64; 4096],
    tops: &mut [u64; 4096],
    at: usize,
    left: usize,
) -> bool
    requires { Linked words.now heads.old links.old lows.old tops.old at × (0 < at) × (at + 4 * left ≤ length words.now) × (length words.now ≤ 65536) }
    ensures { LinkedRoute words.now at left heads.old links.old heads.new links.new lows.new tops.new result }
{
    for i in 0..left {
        let place = at + evaluate::Segment::WORDS * i;
        if !link(words, heads, links, lows, tops, place) {
            return false;
        }
    }
    true
}

// Whether no two segments share a base.
pub fn are_apart(words: &[u64], at: usize, routes: usize) -> bool
    requires { Parsed words.now routes at × (length words.now ≤ 65536) }
    ensures { result ≡ apart (flat (routes_of routes (drop at words.now))) }
{
    let mut heads = [0; 4096];
    let mut links = [0; 16384];
    // Of an empty chain: every start is below the low, and at or behind the top.
    let mut lows = [u64::MAX; 4096];
    let mut tops = [0u64; 4096];
    let mut place = at;
    for _ in 0..routes {
        let left = words::count_at(words, place);
        let route = place + 1;
        if !link_route(
            words, &mut heads, &mut links, &mut lows, &mut tops, route, left,
        ) {
            return false;
        }
        place = route + evaluate::Segment::WORDS * left;
    }
    true
}
