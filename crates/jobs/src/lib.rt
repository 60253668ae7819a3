// The walk program's job (01, "The program"): whether it is as stated, and its parts.
#![tactic(auto)]

ghost use Rattle.std.specs.Prelude.{◌≡◌, ◌⊎◌, false, ◌&&◌, ◌||◌, ◌+◌, ◌*◌, ◌≤◌, eqb, leb, length, map, MatchOption};
ghost use Rattle.ground.specs.Lists.{pick, each};
ghost use Rattle.storage.specs.Bytes.{number};
ghost use Rattle.search.specs.Job.{job_ok, double_of, default_budget, budget_from};
ghost use Rattle.jobs.specs.Inner.{Parts};

use search::SearchBudget;

// The bytes of the three words that a job begins with.
pub const HEAD: usize = 24;

// The bytes and the scores that a job may have.
pub const BYTES: usize = 24576;

pub const SCORES: usize = 1024;

// A job's parts: its panel's bytes, its budget, and its scores' bytes.
#[derive(Clone, Copy)]
pub struct Job<'a> {
    pub panel: &'a [u8],
    pub budget: SearchBudget,
    pub scores: &'a [u8],
}

// ---- 16

// The refusal of what is not a job.
pub const NO_JOB: u64 = 16;

// The parts of a job; none where it is not one.
pub fn parse(job: &[u8]) -> Option<Job<'_>>
    ensures { MatchOption result (job_ok job.now ≡ false) (λ j. Parts job.now j) }
{
    if !(HEAD..=BYTES).contains(&job.len()) {
        return None;
    }
    let panel = storage::word_at(job, 0);
    let words = storage::word_at(job, 8);
    let scores = storage::word_at(job, 16);
    if !adds_up(job.len(), panel, words, scores) {
        return None;
    }
    let panel_end = HEAD + panel as usize;
    let budget_end = panel_end + 8 * words as usize;
    Some(Job {
        panel: &job[HEAD..panel_end],
        budget: budget_of(&job[panel_end..], words),
        scores: &job[budget_end..],
    })
}

// A panel of more bytes than a job may have does not add up.
fn adds_up(n: usize, panel: u64, words: u64, scores: u64) -> bool
    requires { n ≤ 24576 }
    ensures { result ≡ ((eqb words 0 || eqb words 5) && leb scores 1024 && eqb n (24 + panel + 8 * words + 8 * scores)) }
{
    panel <= BYTES as u64
        && (words == 0 || words == 5)
        && scores <= SCORES as u64
        && n as u64 == HEAD as u64 + panel + 8 * words + 8 * scores
}

// ---- the budget

fn default_budget() -> SearchBudget
    ensures { result ≡ default_budget }
{
    SearchBudget {
        max_work: 100000,
        max_evaluations: 1000,
        max_frontier: 32,
        max_optima: 8,
        tie_width: 0.0,
    }
}

// The budget that bytes begin with; the default where it has no words.
fn budget_of(bytes: &[u8], words: u64) -> SearchBudget
    requires { (words ≡ 0) ⊎ (40 ≤ length bytes.now) }
    ensures { result ≡ pick (eqb words 0) default_budget (budget_from bytes.now) }
{
    if words == 0 {
        default_budget()
    } else {
        SearchBudget {
            max_work: storage::word_at(bytes, 0),
            max_evaluations: storage::word_at(bytes, 8),
            max_frontier: storage::word_at(bytes, 16),
            max_optima: storage::word_at(bytes, 24),
            tie_width: doubles::of_bits(storage::word_at(bytes, 32)),
        }
    }
}

// ---- the scores

pub fn read_scores(bytes: &[u8], scores: &mut [f64])
    requires { 8 * length scores.old ≤ length bytes.now }
    ensures { scores.new ≡ map double_of (each number 8 (length scores.old) bytes.now) }
{
    for (i, score) in scores.iter_mut().enumerate() {
        *score = doubles::of_bits(storage::word_at(bytes, 8 * i));
    }
}
