// The lower bound (`lower_bound` of evaluate.rs), from counts and a background: each operation on doubles is followed by a step to the next double
// outward. Refusal 43.
#![tactic(auto)]

ghost use Rattle.std.specs.Prelude.{◌≡◌, true, ◌^◌, ◌<◌, Ok};
ghost use Rattle.std.specs.Float.Ieee.Positive.{positive};
ghost use Rattle.bound.specs.Bound.{term, after, zero64, no_bound, counts_ok, bound_from, lower_bound, refusal_number, reply_of};
ghost use Rattle.bound.specs.Bounded.{BoundHolds};

// Refusal 43, or 0; given 1: a bound, 0: none. Fields that an answer does not use are 0.
#[repr(C)]
#[derive(Clone, Copy)]
pub struct BoundReply {
    pub refusal: u64,
    pub place: u64,
    pub given: u64,
    pub bound: f64,
}

// Counts are below 2^53: each is a double exactly.
const COUNTS: u64 = 0x20_0000_0000_0000;

// Why a call is refused: a background that is not finite and above 0, or a count of 2^53 or more.
#[derive(Clone, Copy, PartialEq, Eq, Debug)]
enum BoundError {
    OutOfRange,
}

impl BoundError {
    // Its refusal.
    fn number(self) -> u64
        ensures { result ≡ refusal_number self }
    {
        match self {
            BoundError::OutOfRange => 43,
        }
    }
}

// Finite and above 0.
fn is_background(x: f64) -> bool
    ensures { result ≡ positive x }
{
    0.0 < x && doubles::is_finite(x)
}

fn are_counts(counts: &[u64]) -> bool
    ensures { result ≡ counts_ok counts.now }
{
    counts.iter().all(|count| *count < COUNTS)
}

#[tactic(auto, unfolding(crate::specs::Bound::term))]
fn term_of(background: f64, upper: f64) -> f64
    ensures { result ≡ term background upper }
{
    let delta = doubles::next_up(upper - background);
    doubles::next_up(doubles::next_up(delta * delta) / background)
}

// No double lies between a count and its upper: so the upper is above the background exactly where the count is not below it.
fn after_count(background: f64, bound: f64, count: u64) -> f64
    requires background_value { positive background ≡ true }
    requires count_bound { count < 2 ^ 53 }
    ensures { result ≡ after background bound count }
{
    let whole = count as f64;
    if whole >= background {
        let upper = doubles::next_up(whole);
        doubles::next_down(bound - term_of(background, upper))
    } else {
        bound
    }
}

// None as soon as the running bound is not finite.
fn bound_of(counts: &[u64], background: f64) -> Option<f64>
    requires background_value { positive background ≡ true }
    requires counts_value { counts_ok counts.now ≡ true }
    ensures { reply_of (Ok result) ≡ bound_from background zero64 counts.now }
{
    let mut bound = 0.0;
    for count in counts {
        bound = after_count(background, bound, *count);
        if !doubles::is_finite(bound) {
            return None;
        }
    }
    Some(bound)
}

#[tactic(auto, unfolding(crate::specs::Bound::lower_bound))]
fn bound_in_range(counts: &[u64], background: f64) -> Result<Option<f64>, BoundError>
    ensures { reply_of result ≡ lower_bound counts.now background }
{
    if is_background(background) && are_counts(counts) {
        Ok(bound_of(counts, background))
    } else {
        Err(BoundError::OutOfRange)
    }
}

fn reply_of(bound: Result<Option<f64>, BoundError>) -> BoundReply
    ensures { result ≡ reply_of bound }
{
    match bound {
        Ok(Some(bound)) => BoundReply {
            refusal: 0,
            place: 0,
            given: 1,
            bound,
        },
        Ok(None) => no_bound(0),
        Err(e) => no_bound(e.number()),
    }
}

fn no_bound(refusal: u64) -> BoundReply
    ensures { result ≡ no_bound refusal }
{
    BoundReply {
        refusal,
        place: 0,
        given: 0,
        bound: 0.0,
    }
}

// The lower bound, from lent counts and a background.
#[tactic(auto, using(crate::proofs::Running::bound_holds))]
pub fn lower_bound(counts: &[u64], background: f64) -> BoundReply
    ensures value { result ≡ lower_bound counts.now background }
    ensures bound_holds { BoundHolds counts.now background result }
{
    reply_of(bound_in_range(counts, background))
}
