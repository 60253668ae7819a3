// What the walk program prints of a job (01, "The program").
#![tactic(auto)]

ghost use Rattle.std.specs.Prelude.{◌≡◌, length, replicate};
ghost use Rattle.panel.specs.Inner.{Accepted};
ghost use Rattle.evaluate.specs.Check.{over};
ghost use Rattle.search.specs.Answers.{search_answer, search_rooms};
ghost use Rattle.search.specs.Job.{program_rooms, printed};
ghost use Rattle.text.specs.Inner.{Put};
ghost use Rattle.sheets.specs.Inner.{answer_text};

use search::{SearchBudget, SearchReply};

// ---- the program's rooms: those for max_frontier 32, max_optima 16, P 8

const FRONTIER: usize = 32;

const OPTIMA: usize = 16;

const PATHS: usize = 8;

pub const FRAMES: usize = (FRONTIER + 1) * frames::Stored::WORDS;

// A slot has V = 2 + P + 4R words, R the larger of max_frontier and P.
pub const KEPT: usize = (OPTIMA + 2) * (2 + PATHS + evaluate::Segment::WORDS * FRONTIER);

pub const KEPT_SCORES: usize = OPTIMA + 1;

// ---- what is printed

// The search in the program's rooms; what it keeps is wanted afterwards.
fn search_in(image: &[u8], b: SearchBudget, scores: &[f64], kept: &mut [u64; KEPT]) -> SearchReply
    requires { kept.old ≡ replicate 2484 0 }
    ensures value { result ≡ search_answer image.now b scores.now program_rooms }
    ensures kept_after { kept.new ≡ (search_rooms image.now b scores.now program_rooms).kept }
    ensures kept_len { length kept.new ≡ 2484 }
{
    let mut frames = [0u64; FRAMES];
    let mut kept_scores = [0.0f64; KEPT_SCORES];
    searching::search(image, b, scores, &mut frames, kept, &mut kept_scores)
}

fn answer_search(
    image: &[u8],
    h: image::Header,
    b: SearchBudget,
    scores: &[f64],
    out: &mut [u8],
) -> usize
    requires { Accepted image.now h }
    ensures { Put (answer_text image.now b scores.now) out.old 0 out.new result }
{
    let mut kept = [0u64; KEPT];
    let r = search_in(image, b, scores, &mut kept);
    if 0 < r.refusal {
        lines::put_refusal(out, 0, r.refusal, r.place)
    } else {
        lines::put_sheet(out, image, h, &kept, r)
    }
}

fn answer_panel(image: &[u8], b: SearchBudget, scores: &[f64], out: &mut [u8]) -> usize
    ensures { Put (answer_text image.now b scores.now) out.old 0 out.new result }
{
    match graph::check_panel(image) {
        Ok(h) => answer_search(image, h, b, scores, out),
        Err(e) => lines::put_refusal(out, 0, e.number(), 0),
    }
}

fn answer(job: &[u8], out: &mut [u8]) -> usize
    ensures { Put (printed job.now) out.old 0 out.new result }
{
    let Some(parts) = jobs::parse(job) else {
        return lines::put_refusal(out, 0, jobs::NO_JOB, 0);
    };
    let n = parts.scores.len() / 8;
    let mut scores = [0.0f64; jobs::SCORES];
    jobs::read_scores(parts.scores, &mut scores[..n]);
    answer_panel(parts.panel, parts.budget, &scores[..n], out)
}

// The room for what is printed: no job's answer is longer (proofs/Short.antt).
pub const ROOM: usize = 20480;

// The bytes that the walk program prints of a job; how many they are.
pub fn answer_job(job: &[u8], out: &mut [u8; ROOM]) -> usize
    ensures out_after { out.new ≡ over (printed job.now) out.old }
    ensures value { result ≡ length (printed job.now) }
{
    answer(job, out)
}
