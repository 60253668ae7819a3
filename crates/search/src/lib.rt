// The budgeted walk over donor switches (search.rs): what it is given, and what it answers.
#![tactic(auto)]

ghost use Rattle.std.specs.Prelude.{◌≡◌};
ghost use Rattle.search.specs.Counters.{status_number};

// The budgets: four whole numbers and the tie width.
#[repr(C)]
#[derive(Clone, Copy, PartialEq, Debug)]
pub struct SearchBudget {
    pub max_work: u64,
    pub max_evaluations: u64,
    pub max_frontier: u64,
    pub max_optima: u64,
    pub tie_width: f64,
}

// Which budget stopped the walk, or none did.
#[derive(Clone, Copy, PartialEq, Eq, Debug)]
pub enum Stop {
    Exhausted,
    Work,
    Evaluation,
    Frontier,
}

// The five statuses.
#[derive(Clone, Copy, PartialEq, Eq, Debug)]
pub enum Status {
    Certified,
    SupportIncomplete,
    WorkExhausted,
    EvaluationExhausted,
    FrontierExhausted,
}

impl Status {
    // Its number in the answers.
    pub fn number(self) -> u64
        ensures { result ≡ status_number self }
    {
        match self {
            Status::Certified => 1,
            Status::SupportIncomplete => 2,
            Status::WorkExhausted => 3,
            Status::EvaluationExhausted => 4,
            Status::FrontierExhausted => 5,
        }
    }
}

// The nine counters.
#[derive(Clone, Copy, PartialEq, Eq, Debug)]
pub struct Tally {
    pub work: u64,
    pub evaluations: u64,
    pub natives: u64,
    pub donors: u64,
    pub non_native: u64,
    pub mixed: u64,
    pub mixed_identity: u64,
    pub switches: u64,
    pub families: u64,
}

// What the search answers.
#[repr(C)]
#[derive(Clone, Copy, PartialEq, Eq, Debug)]
pub struct SearchReply {
    pub refusal: u64,
    pub place: u64,
    pub status: u64,
    pub work: u64,
    pub evaluations: u64,
    pub natives: u64,
    pub donors: u64,
    pub non_native: u64,
    pub mixed: u64,
    pub mixed_identity: u64,
    pub switches: u64,
    pub families: u64,
    pub optima: u64,
    pub discarded: u64,
    pub frames: u64,
    pub pending: u64,
}

// What the listing answers.
#[repr(C)]
#[derive(Clone, Copy, PartialEq, Eq, Debug)]
pub struct ListReply {
    pub refusal: u64,
    pub place: u64,
    pub status: u64,
    pub written: u64,
    pub words: u64,
    pub evaluations: u64,
}
