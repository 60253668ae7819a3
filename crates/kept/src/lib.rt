// What is kept of the evaluations, in two lent rooms: the incumbent, the tied list, a spare slot; and whether one was discarded.
#![tactic(auto)]

ghost use Rattle.std.specs.Prelude.{◌+◌, ◌*◌, ◌≤◌, ◌<◌, length};
ghost use Rattle.kept.specs.Inner.{Tidy, Replaced, Lowered, Adding, Added, Recorded, Begun};

// What the rooms hold besides the incumbent: so many tied, and whether one was discarded.
#[derive(Clone, Copy, PartialEq, Eq, Debug)]
pub struct Holding {
    pub count: usize,
    pub discarded: bool,
}

// What they hold where only the incumbent was evaluated, or none yet.
pub const NOTHING: Holding = Holding {
    count: 0,
    discarded: false,
};

// The spare's assignment is the new incumbent.
fn replace(
    kept: &mut [u64],
    scores: &mut [f64],
    b: Option<Holding>,
    score: f64,
    width: f64,
    optima: usize,
    v: usize,
) -> Holding
    requires { Tidy v optima b kept.old scores.old }
    ensures { Replaced v optima width score b kept.old scores.old kept.new scores.new result }
{
    let held = b.unwrap_or(NOTHING);
    let count = slots::prune(
        &mut kept[v..],
        &mut scores[1..],
        held.count,
        score,
        width,
        v,
    );
    slots::copy_slot(kept, optima + 1, 0, v);
    scores[0] = score;
    Holding { count, ..held }
}

// The first score, and a lower one, replaces the incumbent.
fn lower(
    kept: &mut [u64],
    scores: &mut [f64],
    b: Option<Holding>,
    score: f64,
    width: f64,
    optima: usize,
    v: usize,
) -> Holding
    requires { Tidy v optima b kept.old scores.old }
    ensures { Lowered v optima width score b kept.old scores.old kept.new scores.new result }
{
    let new = slots::Scored {
        slot: optima + 1,
        objective: score,
    };
    match b {
        Some(held) if !new.is_below(scores[0]) => held,
        _ => replace(kept, scores, b, score, width, optima, v),
    }
}

// Added last, or with `optima` there discarded.
fn add(
    kept: &mut [u64],
    scores: &mut [f64],
    b: Holding,
    score: f64,
    optima: usize,
    v: usize,
) -> Holding
    requires { Tidy v optima (Some b) kept.old scores.old }
    ensures { Adding v optima score b kept.old scores.old kept.new scores.new result }
{
    if b.count >= optima {
        return Holding {
            discarded: true,
            ..b
        };
    }
    let slot = b.count + 1;
    slots::copy_slot(kept, optima + 1, slot, v);
    scores[slot] = score;
    Holding { count: slot, ..b }
}

// Added where it ties with the incumbent and is not held yet.
#[tactic(auto, using(crate::proofs::Steps::add_new, crate::proofs::Steps::add_held, crate::proofs::Steps::add_far))]
fn add_tied(
    kept: &mut [u64],
    scores: &mut [f64],
    b: Holding,
    score: f64,
    width: f64,
    optima: usize,
    v: usize,
) -> Holding
    requires { Tidy v optima (Some b) kept.old scores.old }
    ensures { Added v optima width score b kept.old scores.old kept.new scores.new result }
{
    let new = slots::Scored {
        slot: optima + 1,
        objective: score,
    };
    if new.ties(scores[0], width) && !slots::holds(kept, b.count, new.slot, v) {
        add(kept, scores, b, score, optima, v)
    } else {
        b
    }
}

// The assignment in the spare is recorded with its score.
pub fn offer(
    kept: &mut [u64],
    scores: &mut [f64],
    b: Option<Holding>,
    score: f64,
    width: f64,
    optima: usize,
    v: usize,
) -> Holding
    requires { Tidy v optima b kept.old scores.old }
    ensures { Recorded v optima width score b kept.old scores.old kept.new scores.new result }
{
    let lowered = lower(kept, scores, b, score, width, optima, v);
    let added = add_tied(kept, scores, lowered, score, width, optima, v);
    slots::clear_slot(kept, optima + 1, v);
    added
}

// The needed words of both rooms are zeroed.
#[tactic(auto, using(crate::proofs::Spare::begun))]
pub fn begin(kept: &mut [u64], scores: &mut [f64], optima: usize, v: usize)
    requires { (optima * v + v + v ≤ length kept.old) × (optima < length scores.old) }
    ensures { Begun v optima kept.old scores.old kept.new scores.new }
{
    let last = optima + 1;
    slots::blank(kept, scores, 0, last, v);
    slots::clear_slot(kept, last, v);
}
