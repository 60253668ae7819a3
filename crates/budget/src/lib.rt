// The budgets held against their bounds, and the rooms against what a search needs of them: refusals 11 to 13.
#![tactic(auto)]

ghost use Rattle.std.specs.Prelude.{◌≡◌, ◌≤◌};
ghost use Rattle.image.specs.Image.{families};
ghost use Rattle.image.specs.Inner.{Grouped};
ghost use Rattle.image.specs.Panel.{panel_of};
ghost use Rattle.search.specs.Budget.{most_frontier, width_ok, budget_ok, budget_in_bounds, budget_refusal};
ghost use Rattle.search.specs.Rooms.{most_paths, width_for, slot_width};
ghost use Rattle.budget.specs.Inner.{Bounded, most_width, number_of, refusal_of, rooms_by, list_rooms_by};

// The bounds of a budget.
pub const FRONTIER: u64 = 1024;

pub const OPTIMA: u64 = 1024;

// The words of a frame.
pub const FRAME: usize = 10;

// Why nothing is walked: a budget of 0 or a tie width that is none, a budget over its bound, a room that is too short.
#[derive(Clone, Copy, PartialEq, Eq, Debug)]
pub enum BudgetRefusal {
    Unsound,
    OverBound,
    ShortRoom,
}

impl BudgetRefusal {
    pub fn number(self) -> u64
        ensures { result ≡ number_of self }
    {
        match self {
            BudgetRefusal::Unsound => 11,
            BudgetRefusal::OverBound => 12,
            BudgetRefusal::ShortRoom => 13,
        }
    }
}

// A tie width: finite and not below 0; -0.0 passes.
#[tactic(auto, unfolding(search::specs::Budget::width_ok))]
pub fn is_width(x: f64) -> bool
    ensures { result ≡ width_ok x }
{
    doubles::is_finite(x) && 0.0 <= x
}

// Refusal 11.
#[tactic(auto, unfolding(search::specs::Budget::budget_ok))]
fn is_sound(b: search::SearchBudget) -> bool
    ensures { result ≡ budget_ok b }
{
    0 < b.max_work
        && 0 < b.max_evaluations
        && 0 < b.max_frontier
        && 0 < b.max_optima
        && is_width(b.tie_width)
}

// Refusal 12.
#[tactic(auto, unfolding(search::specs::Budget::budget_in_bounds))]
fn is_bounded(b: search::SearchBudget) -> bool
    ensures { result ≡ budget_in_bounds b }
{
    b.max_frontier <= FRONTIER && b.max_optima <= OPTIMA
}

// Refusals 11 and 12.
#[tactic(auto, unfolding(search::specs::Budget::budget_refusal))]
pub fn budget_refusal(b: search::SearchBudget) -> Result<(), BudgetRefusal>
    ensures { refusal_of result ≡ budget_refusal b }
{
    if !is_sound(b) {
        return Err(BudgetRefusal::Unsound);
    }
    if !is_bounded(b) {
        return Err(BudgetRefusal::OverBound);
    }
    Ok(())
}

// The most paths of a family, or 0.
pub fn most_paths(image: &[u8], h: image::Header) -> usize
    requires { Grouped image.now h }
    ensures { result ≡ most_paths (families h image.now) }
{
    (0..h.families)
        .map(|i| image::path_count(image, h, i))
        .max()
        .unwrap_or(0)
}

fn width_for(paths: usize, frontier: usize) -> usize
    requires { (paths ≤ 262144) × (frontier ≤ most_frontier) }
    ensures { result ≡ width_for paths frontier }
{
    2 + paths + 4 * frontier.max(paths)
}

// The words of a slot.
#[tactic(auto, using(crate::proofs::Laws::paths_few, crate::proofs::Laws::width_is))]
pub fn slot_width(image: &[u8], h: image::Header, b: search::SearchBudget) -> usize
    requires grouped { Grouped image.now h }
    requires bounded { Bounded b }
    ensures { result ≡ slot_width (panel_of image.now) b }
{
    let paths = most_paths(image, h);
    let frontier = b.max_frontier as usize;
    width_for(paths, frontier)
}

// Refusal 13 of a search, for slots of v words.
#[tactic(auto, unfolding(crate::specs::Inner::rooms_by), using(crate::proofs::Laws::kept_fits))]
pub fn rooms_refusal(
    b: search::SearchBudget,
    v: usize,
    frames: usize,
    kept: usize,
    scores: usize,
) -> Result<(), BudgetRefusal>
    requires bounded { Bounded b }
    requires width_small { v ≤ most_width }
    ensures { refusal_of result ≡ rooms_by b v frames kept scores }
{
    let frontier = b.max_frontier as usize;
    let optima = b.max_optima as usize;
    if (frontier + 1) * FRAME <= frames && (optima + 2) * v <= kept && optima + 1 <= scores {
        Ok(())
    } else {
        Err(BudgetRefusal::ShortRoom)
    }
}

// Refusal 13 of a listing, for a slot of v words.
#[tactic(auto, unfolding(crate::specs::Inner::list_rooms_by))]
pub fn list_rooms_refusal(
    b: search::SearchBudget,
    v: usize,
    frames: usize,
    slot: usize,
) -> Result<(), BudgetRefusal>
    requires { Bounded b }
    ensures { refusal_of result ≡ list_rooms_by b v frames slot }
{
    let frontier = b.max_frontier as usize;
    if (frontier + 1) * FRAME <= frames && v <= slot {
        Ok(())
    } else {
        Err(BudgetRefusal::ShortRoom)
    }
}
