// Slots of v words in a lent room, and a score for each.
#![tactic(auto)]

ghost use Rattle.std.specs.Prelude.{◌≡◌, ◌+◌, ◌*◌, ◌≤◌, length, drop, replicate};
ghost use Rattle.std.specs.Float.Ieee as Ieee;
ghost use Rattle.search.specs.Keep.{has, tied_to};
ghost use Rattle.slots.specs.Inner.{same_words, slot_at, put_slot, slots_of, Retained, Blanked, Pruned};

// An assignment's slot, and its score.
#[derive(Clone, Copy, PartialEq, Debug)]
pub struct Scored {
    pub slot: usize,
    pub objective: f64,
}

impl Scored {
    pub fn is_below(self, other: f64) -> bool
        ensures { result ≡ Ieee.lt self.objective other }
    {
        self.objective < other
    }

    // Its score minus the incumbent's is within the tie width.
    pub fn ties(self, incumbent: f64, width: f64) -> bool
        ensures { result ≡ tied_to incumbent width self.objective }
    {
        self.objective - incumbent <= width
    }
}

// Slot `from` copied to slot `to`.
pub fn copy_slot(kept: &mut [u64], from: usize, to: usize, v: usize)
    requires { (from * v + v ≤ length kept.old) × (to * v + v ≤ length kept.old) }
    ensures { kept.new ≡ put_slot v kept.old to (slot_at v kept.old from) }
{
    let at = from * v;
    kept.copy_within(at..at + v, to * v);
}

// Whether two slots have the same words.
fn same_slot(kept: &[u64], a: usize, b: usize, v: usize) -> bool
    requires { (a * v + v ≤ length kept.now) × (b * v + v ≤ length kept.now) }
    ensures { result ≡ same_words (slot_at v kept.now a) (slot_at v kept.now b) }
{
    let i = a * v;
    let j = b * v;
    kept[i..i + v] == kept[j..j + v]
}

// A slot is zeroed.
pub fn clear_slot(kept: &mut [u64], slot: usize, v: usize)
    requires { slot * v + v ≤ length kept.old }
    ensures { kept.new ≡ put_slot v kept.old slot (replicate v 0) }
{
    let at = slot * v;
    kept[at..at + v].fill(0);
}

// Keeps, in order and at the front, those of the first `count` slots whose score ties with `new`, with their scores; gives how many.
fn retain(
    kept: &mut [u64],
    scores: &mut [f64],
    count: usize,
    new: f64,
    width: f64,
    v: usize,
) -> usize
    requires { (count * v ≤ length kept.old) × (count ≤ length scores.old) }
    ensures { Retained v count new width kept.old scores.old kept.new scores.new result }
{
    let mut k: usize = 0;
    for i in 0..count {
        let s = Scored {
            slot: i,
            objective: scores[i],
        };
        if s.ties(new, width) {
            copy_slot(kept, s.slot, k, v);
            scores[k] = s.objective;
            k += 1;
        }
    }
    k
}

// n slots from `from` are zeroed, with their scores.
pub fn blank(kept: &mut [u64], scores: &mut [f64], from: usize, n: usize, v: usize)
    requires { ((from + n) * v ≤ length kept.old) × (from + n ≤ length scores.old) }
    ensures { Blanked v from n kept.old scores.old kept.new scores.new }
{
    let end = from + n;
    kept[from * v..end * v].fill(0);
    scores[from..end].fill(0.0);
}

// `retain`, with what it frees zeroed.
pub fn prune(
    kept: &mut [u64],
    scores: &mut [f64],
    count: usize,
    new: f64,
    width: f64,
    v: usize,
) -> usize
    requires { (count * v ≤ length kept.old) × (count ≤ length scores.old) }
    ensures { Pruned v count new width kept.old scores.old kept.new scores.new result }
{
    let r = retain(kept, scores, count, new, width, v);
    blank(kept, scores, r, count - r, v);
    r
}

// Whether one of the slots 1 to `count` has the words of the spare.
pub fn holds(kept: &[u64], count: usize, spare: usize, v: usize) -> bool
    requires { (count * v + v ≤ length kept.now) × (spare * v + v ≤ length kept.now) }
    ensures { result ≡ has same_words (slot_at v kept.now spare) (slots_of v count (drop v kept.now)) }
{
    (0..count).any(|i| same_slot(kept, i + 1, spare, v))
}
