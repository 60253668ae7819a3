// The scored search (search.rs, search): the walk's evaluations with their scores, counted and kept.
#![tactic(auto)]

ghost use Rattle.std.specs.Prelude.{◌≡◌, ◌+◌, ◌*◌, ◌-◌, ◌≤◌, ◌<◌, length, get_or, IfOk};
ghost use Rattle.std.specs.Float.{nan};
ghost use Rattle.image.specs.Inner.{Framed, Groups, Started};
ghost use Rattle.image.specs.Panel.{panel_of};
ghost use Rattle.panel.specs.Inner.{Accepted};
ghost use Rattle.evaluate.specs.Segments.{native_of};
ghost use Rattle.evaluate.specs.Words.{encode};
ghost use Rattle.search.specs.Rooms.{frame_width, slot_width};
ghost use Rattle.search.specs.Run.{walk};
ghost use Rattle.search.specs.Answers.{Rooms, refused_search, search_answer, search_rooms};
ghost use Rattle.kept.specs.Inner.{Tidy, Ready, no_holding};
ghost use Rattle.landings.specs.Inner.{Known};
ghost use Rattle.walks.specs.Inner.{assigned, to_go, Walking};
ghost use Rattle.searching.specs.Inner.{number_of, refusal_in, score_refused, marked_with, Few, Marked, Settled, Entered, Onward, Ended, Sown, standing_with, Framable, Lent, none_counted, replied_as, answer_in, rooms_in, Checked, answer_on, rooms_on};

use budget::BudgetRefusal;
use evaluate::Segment;
use kept::Holding;
use search::{SearchBudget, Stop};
use walks::{Halt, Standing};

// Why an evaluation is refused: it has no score, or one that is not finite.
#[derive(Clone, Copy, PartialEq, Eq, Debug)]
pub enum ScoreRefusal {
    Missing,
    Unfit,
}

impl ScoreRefusal {
    pub fn number(self) -> u64
        ensures { result ≡ number_of self }
    {
        match self {
            ScoreRefusal::Missing => 14,
            ScoreRefusal::Unfit => 15,
        }
    }
}

// A refused evaluation: why, and which one it is.
#[derive(Clone, Copy, PartialEq, Eq, Debug)]
pub struct Unscored {
    pub refusal: ScoreRefusal,
    pub place: u64,
}

// What was evaluated so far, counted by its marks.
#[derive(Clone, Copy, PartialEq, Eq, Debug)]
pub struct Counted {
    pub evaluations: usize,
    pub non_native: u64,
    pub mixed: u64,
    pub mixed_identity: u64,
    pub switches: u64,
}

// What a search has counted, and what its kept rooms hold once there is an incumbent.
#[derive(Clone, Copy, PartialEq, Eq, Debug)]
pub struct Account {
    pub counted: Counted,
    pub held: Option<Holding>,
}

// How a search ended: which budget stopped it, where its walk then stands, and its account.
#[derive(Clone, Copy)]
pub struct Found {
    pub stop: Stop,
    pub at: Standing,
    pub account: Account,
}

// Where seeding ended: the natives evaluated, and the account.
#[derive(Clone, Copy, PartialEq, Eq, Debug)]
pub struct Seeded {
    pub natives: usize,
    pub account: Account,
}

// ---- one evaluation

// The score of the evaluation after n others that have scores.
#[tactic(auto, unfolding(crate::specs::Inner::score_refusal))]
fn score_after(scores: &[f64], n: usize) -> Result<f64, Unscored>
    requires { n ≤ length scores.now }
    ensures refused { refusal_in result ≡ score_refused scores.now n }
    ensures score { IfOk result (λ x. x ≡ get_or scores.now n nan) }
{
    let place = n as u64 + 1;
    let Some(&score) = scores.get(n) else {
        return Err(Unscored {
            refusal: ScoreRefusal::Missing,
            place,
        });
    };
    if !doubles::is_finite(score) {
        return Err(Unscored {
            refusal: ScoreRefusal::Unfit,
            place,
        });
    }
    Ok(score)
}

// One evaluation more, with these marks.
fn counted_with(c: Counted, m: marks::Marks) -> Counted
    requires { Few c }
    ensures { result ≡ marked_with c m }
{
    Counted {
        evaluations: c.evaluations + 1,
        non_native: c.non_native + u64::from(0 < m.switches),
        mixed: c.mixed + u64::from(m.lanes),
        mixed_identity: c.mixed_identity + u64::from(m.identities),
        switches: c.switches.max(m.switches),
    }
}

// The assignment in the spare is recorded with its score and its marks.
fn settle(
    b: SearchBudget,
    v: usize,
    kept: &mut [u64],
    kept_scores: &mut [f64],
    m: marks::Marks,
    score: f64,
    from: Account,
) -> Account
    requires { Tidy v b.max_optima from.held kept.old kept_scores.old × Few from.counted }
    ensures { Settled b v m score from kept.old kept_scores.old kept.new kept_scores.new result }
{
    let optima = b.max_optima as usize;
    let width = b.tie_width;
    let held = kept::offer(kept, kept_scores, from.held, score, width, optima, v);
    Account {
        counted: counted_with(from.counted, m),
        held: Some(held),
    }
}

// ---- the words of what is evaluated

// The assignment that the path to frame top and a closing piece complete, into a slot; its marks.
fn mark_path(
    slot: &mut [u64],
    image: &[u8],
    h: image::Header,
    frames: &[u64],
    top: usize,
    family: u64,
    s: Segment,
) -> marks::Marks
    requires { Framed image.now h × ((top + 1) * frame_width ≤ length frames.now) × (length (encode (assigned family frames.now top s)) ≤ length slot.old) }
    ensures { Marked (panel_of image.now) (assigned family frames.now top s) slot.old slot.new result }
{
    let n = writer::put_path(slot, frames, top, family, s);
    marks::marks_of(image, h, &slot[..n])
}

// A family's native assignment, into a slot; its marks.
fn mark_native(
    slot: &mut [u64],
    image: &[u8],
    h: image::Header,
    family: image::Family,
) -> marks::Marks
    requires { Accepted image.now h × Groups image.now h family × (length (encode (native_of (panel_of image.now) family.number)) ≤ length slot.old) }
    ensures { Marked (panel_of image.now) (native_of (panel_of image.now) family.number) slot.old slot.new result }
{
    let n = writer::put_native(slot, image, h, family);
    marks::marks_of(image, h, &slot[..n])
}

// An evaluation of the walk: its words go into the spare.
fn enter_path(
    image: &[u8],
    h: image::Header,
    b: SearchBudget,
    v: usize,
    score: f64,
    frames: &[u64],
    kept: &mut [u64],
    kept_scores: &mut [f64],
    at: Standing,
    s: Segment,
    from: Account,
) -> Account
    requires framed { Framed image.now h × Few from.counted }
    requires ready { Ready v b.max_optima from.held kept.old kept_scores.old }
    requires on_path { (0 < at.depth) × (at.depth * frame_width ≤ length frames.now) × (length (encode (assigned at.tally.families frames.now (at.depth - 1) s)) ≤ v) }
    ensures { Entered (panel_of image.now) b v score (assigned at.tally.families frames.now (at.depth - 1) s) from kept.old kept_scores.old kept.new kept_scores.new result }
{
    let spare = (b.max_optima as usize + 1) * v;
    let m = mark_path(
        &mut kept[spare..],
        image,
        h,
        frames,
        at.depth - 1,
        at.tally.families,
        s,
    );
    settle(b, v, kept, kept_scores, m, score, from)
}

// An evaluation of seeding.
fn enter_native(
    image: &[u8],
    h: image::Header,
    b: SearchBudget,
    v: usize,
    score: f64,
    kept: &mut [u64],
    kept_scores: &mut [f64],
    family: image::Family,
    from: Account,
) -> Account
    requires accepted { Accepted image.now h × Few from.counted }
    requires ready { Ready v b.max_optima from.held kept.old kept_scores.old }
    requires grouped { Groups image.now h family × (length (encode (native_of (panel_of image.now) family.number)) ≤ v) }
    ensures { Entered (panel_of image.now) b v score (native_of (panel_of image.now) family.number) from kept.old kept_scores.old kept.new kept_scores.new result }
{
    let spare = (b.max_optima as usize + 1) * v;
    let m = mark_native(&mut kept[spare..], image, h, family);
    settle(b, v, kept, kept_scores, m, score, from)
}

// ---- the search under way

// The walk goes on from where it stands; each evaluation that is due is scored.
fn run(
    image: &[u8],
    h: image::Header,
    starts: &[usize; 4096],
    memo: &mut [usize; landings::MEMO],
    b: SearchBudget,
    v: usize,
    scores: &[f64],
    frames: &mut [u64],
    kept: &mut [u64],
    kept_scores: &mut [f64],
    from: Standing,
    first: Account,
) -> Result<Found, Unscored>
    requires accepted { Accepted image.now h × Started image.now h starts.now × Known image.now h memo.old }
    requires walking { Walking image.now h b frames.old from.tally from.depth from.start from.clear }
    requires onward { Onward (panel_of image.now) b v scores.now (to_go (panel_of image.now) b from.tally frames.old from.depth) first kept.old kept_scores.old }
    ensures { Ended (panel_of image.now) b v scores.now frames.old kept.old kept_scores.old frames.new kept.new kept_scores.new result }
{
    let mut at = from;
    let mut account = first;
    loop {
        let pause = walks::go_on(image, h, starts, memo, b, frames, at);
        at = pause.at;
        match pause.halt {
            Halt::Stopped(stop) => return Ok(Found { stop, at, account }),
            Halt::Due(s) => {
                let score = score_after(scores, account.counted.evaluations)?;
                account = enter_path(
                    image,
                    h,
                    b,
                    v,
                    score,
                    frames,
                    kept,
                    kept_scores,
                    at,
                    s,
                    account,
                );
            }
        }
    }
}

// The natives, family by family, while work and evaluations are left.
fn seed(
    image: &[u8],
    h: image::Header,
    b: SearchBudget,
    v: usize,
    scores: &[f64],
    kept: &mut [u64],
    kept_scores: &mut [f64],
    first: Account,
) -> Result<Seeded, Unscored>
    requires { Accepted image.now h × Onward (panel_of image.now) b v scores.now (walk (panel_of image.now) b) first kept.old kept_scores.old }
    ensures { Sown (panel_of image.now) h b v scores.now kept.old kept_scores.old kept.new kept_scores.new result }
{
    let mut start: usize = 0;
    let mut account = first;
    for natives in 0..h.families {
        if natives as u64 >= b.max_work || natives as u64 >= b.max_evaluations {
            return Ok(Seeded { natives, account });
        }
        let score = score_after(scores, account.counted.evaluations)?;
        let family = image::family_from(image, h, natives, start);
        account = enter_native(image, h, b, v, score, kept, kept_scores, family, account);
        start = image::family_end(image, h, family);
    }
    Ok(Seeded {
        natives: h.families,
        account,
    })
}

// Where a walk stands after seeding, with so many frames of the first family.
fn standing(natives: u64, depth: usize) -> Standing
    ensures { result ≡ standing_with natives depth }
{
    Standing {
        tally: search::Tally {
            work: natives,
            evaluations: natives,
            natives,
            donors: 0,
            non_native: 0,
            mixed: 0,
            mixed_identity: 0,
            switches: 0,
            families: 0,
        },
        depth,
        start: 0,
        clear: true,
    }
}

// A search that ends with its seeding.
fn ended_early(stop: Stop, natives: u64, account: Account) -> Found
    ensures { result ≡ record { stop = stop; at = standing_with natives 0; account = account } }
{
    Found {
        stop,
        at: standing(natives, 0),
        account,
    }
}

// Seeding, then the walk over all families.
fn search_families(
    image: &[u8],
    h: image::Header,
    starts: &[usize; 4096],
    memo: &mut [usize; landings::MEMO],
    b: SearchBudget,
    v: usize,
    scores: &[f64],
    frames: &mut [u64],
    kept: &mut [u64],
    kept_scores: &mut [f64],
    first: Account,
) -> Result<Found, Unscored>
    requires accepted { Accepted image.now h × Started image.now h starts.now × Known image.now h memo.old }
    requires framable { Framable b frames.old }
    requires onward { Onward (panel_of image.now) b v scores.now (walk (panel_of image.now) b) first kept.old kept_scores.old }
    ensures { Ended (panel_of image.now) b v scores.now frames.old kept.old kept_scores.old frames.new kept.new kept_scores.new result }
{
    let seeded = seed(image, h, b, v, scores, kept, kept_scores, first)?;
    let n = seeded.natives as u64;
    if seeded.natives < h.families {
        let stop = if n >= b.max_evaluations {
            Stop::Evaluation
        } else {
            Stop::Work
        };
        return Ok(ended_early(stop, n, seeded.account));
    }
    if h.families == 0 {
        return Ok(ended_early(Stop::Exhausted, n, seeded.account));
    }
    walks::put_root(image, h, starts, frames, 0, 0);
    run(
        image,
        h,
        starts,
        memo,
        b,
        v,
        scores,
        frames,
        kept,
        kept_scores,
        standing(n, 1),
        seeded.account,
    )
}

// ---- the answer

fn refused(number: u64, place: u64) -> search::SearchReply
    ensures { result ≡ refused_search (record { number = number; place = place }) }
{
    search::SearchReply {
        refusal: number,
        place,
        status: 0,
        work: 0,
        evaluations: 0,
        natives: 0,
        donors: 0,
        non_native: 0,
        mixed: 0,
        mixed_identity: 0,
        switches: 0,
        families: 0,
        optima: 0,
        discarded: 0,
        frames: 0,
        pending: 0,
    }
}

// The answer of a search that was not refused.
fn reply(f: Found) -> search::SearchReply
    ensures { result ≡ replied_as f }
{
    let t = f.at.tally;
    let c = f.account.counted;
    let held = f.account.held.unwrap_or(kept::NOTHING);
    search::SearchReply {
        refusal: 0,
        place: 0,
        status: walks::status_number(f.stop, held.discarded),
        work: t.work,
        evaluations: t.evaluations,
        natives: t.natives,
        donors: t.donors,
        non_native: c.non_native,
        mixed: c.mixed,
        mixed_identity: c.mixed_identity,
        switches: c.switches,
        families: t.families,
        optima: held.count as u64,
        discarded: u64::from(held.discarded),
        frames: f.at.depth as u64,
        pending: u64::from(walks::is_pending(f.stop)),
    }
}

fn none_yet() -> Account
    ensures { result ≡ record { counted = none_counted; held = no_holding } }
{
    Account {
        counted: Counted {
            evaluations: 0,
            non_native: 0,
            mixed: 0,
            mixed_identity: 0,
            switches: 0,
        },
        held: None,
    }
}

// The search in rooms that are long enough; on 14 and 15 they end zero.
fn search_in(
    image: &[u8],
    h: image::Header,
    b: SearchBudget,
    v: usize,
    scores: &[f64],
    frames: &mut [u64],
    kept: &mut [u64],
    kept_scores: &mut [f64],
) -> search::SearchReply
    requires { Accepted image.now h × (v ≡ slot_width (panel_of image.now) b) × Framable b frames.old × Lent b v kept.old kept_scores.old }
    ensures value { result ≡ answer_in (panel_of image.now) b scores.now }
    ensures rooms_after { ◌≡◌ {A = Rooms} (record { frames = frames.exit.now; kept = kept.new; scores = kept_scores.new }) (rooms_in (panel_of image.now) b scores.now (record { frames = frames.entry.now; kept = kept.old; scores = kept_scores.old })) }
{
    let optima = b.max_optima as usize;
    let starts = image::lane_starts(image, h);
    let mut memo = landings::no_memo();
    kept::begin(kept, kept_scores, optima, v);
    let found = search_families(
        image,
        h,
        &starts,
        &mut memo,
        b,
        v,
        scores,
        frames,
        kept,
        kept_scores,
        none_yet(),
    );
    match found {
        Ok(f) => {
            walks::leave_frames(b, frames, f.stop, f.at.depth);
            reply(f)
        }
        Err(e) => {
            walks::leave_frames(b, frames, Stop::Exhausted, 0);
            kept::begin(kept, kept_scores, optima, v);
            refused(e.refusal.number(), e.place)
        }
    }
}

// The words of a slot, where neither the budgets nor the rooms are refused.
fn checked_width(
    image: &[u8],
    h: image::Header,
    b: SearchBudget,
    frames: usize,
    kept: usize,
    kept_scores: usize,
) -> Result<usize, BudgetRefusal>
    requires { Accepted image.now h }
    ensures { Checked (panel_of image.now) b frames kept kept_scores result }
{
    budget::budget_refusal(b)?;
    let v = budget::slot_width(image, h, b);
    budget::rooms_refusal(b, v, frames, kept, kept_scores)?;
    Ok(v)
}

// The search of a panel that was accepted: 11, 12, 13, then 14 and 15.
fn search_panel(
    image: &[u8],
    h: image::Header,
    b: SearchBudget,
    scores: &[f64],
    frames: &mut [u64],
    kept: &mut [u64],
    kept_scores: &mut [f64],
) -> search::SearchReply
    requires { Accepted image.now h }
    ensures value { result ≡ answer_on (panel_of image.now) b scores.now (record { frames = frames.entry.now; kept = kept.old; scores = kept_scores.old }) }
    ensures rooms_after { ◌≡◌ {A = Rooms} (record { frames = frames.exit.now; kept = kept.new; scores = kept_scores.new }) (rooms_on (panel_of image.now) b scores.now (record { frames = frames.entry.now; kept = kept.old; scores = kept_scores.old })) }
{
    match checked_width(image, h, b, frames.len(), kept.len(), kept_scores.len()) {
        Ok(v) => search_in(image, h, b, v, scores, frames, kept, kept_scores),
        Err(e) => refused(e.number(), 0),
    }
}

// The search: its answer and what it leaves in the lent rooms, for any bytes, budget, scores and rooms.
pub fn search(
    image: &[u8],
    b: SearchBudget,
    scores: &[f64],
    frames: &mut [u64],
    kept: &mut [u64],
    kept_scores: &mut [f64],
) -> search::SearchReply
    ensures value { result ≡ search_answer image.now b scores.now (record { frames = frames.entry.now; kept = kept.old; scores = kept_scores.old }) }
    ensures rooms_after { ◌≡◌ {A = Rooms} (record { frames = frames.exit.now; kept = kept.new; scores = kept_scores.new }) (search_rooms image.now b scores.now (record { frames = frames.entry.now; kept = kept.old; scores = kept_scores.old })) }
{
    match graph::check_panel(image) {
        Ok(h) => search_panel(image, h, b, scores, frames, kept, kept_scores),
        Err(e) => refused(e.number(), 0),
    }
}
