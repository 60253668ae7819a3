// What is certified: the exported search, listing and check and the walk program's answer, each with the sentence that it owes, and nothing known of
// it but its promise; and two runs of the search.
#![tactic(auto)]

ghost use Rattle.std.specs.Prelude.{take};
ghost use Rattle.certificate.specs.Sentence.{Sentence};
ghost use Rattle.certificate.specs.Calls.{Listing, Judged};
ghost use Rattle.certificate.specs.Sheet.{SheetCertifies};
ghost use Rattle.certificate.specs.Raised.{RaisedOnlyAdds};

// For the reader: the search. Whatever the users' scoring function, the best and its ties, as they stand in the rooms.
pub fn certify(
    image: &[u8],
    budget: search::SearchBudget,
    scores: &[f64],
    frames: &mut [u64],
    kept: &mut [u64],
    kept_scores: &mut [f64],
) -> search::SearchReply
    ensures { Sentence image.now budget scores.now (record { frames = frames.exit.now; kept = kept.new; scores = kept_scores.new }) result }
{
    panel_routes::panel_routes_search(image, budget, scores, frames, kept, kept_scores)
}

// For the reader: the listing. What has to be scored, numbered, page by page.
pub fn to_score(
    image: &[u8],
    budget: search::SearchBudget,
    from: u64,
    frames: &mut [u64],
    slot: &mut [u64],
    out: &mut [u64],
) -> search::ListReply
    ensures { Listing image.now budget from out.old out.new result }
{
    panel_routes::panel_routes_list(image, budget, from, frames, slot, out)
}

// For the reader: the check. Which words it accepts, and their normal form.
pub fn judge(image: &[u8], words: &[u64], out: &mut [u64]) -> evaluate::AssignmentReply
    ensures { Judged image.now words.now out.old out.new result }
{
    panel_routes::panel_routes_check_assignment(image, words, out)
}

// For the reader: the walk program's answer to a job. What the bytes put out certify.
pub fn print(job: &[u8], out: &mut [u8; sheets::ROOM]) -> usize
    ensures { SheetCertifies job.now (take result out.new) }
{
    sheets::answer_job(job, out)
}

// The replies of two runs.
#[derive(Clone, Copy)]
pub struct Replies {
    pub smaller: search::SearchReply,
    pub larger: search::SearchReply,
}

// For the reader: the search twice. A larger budget only adds.
pub fn raise(
    image: &[u8],
    smaller: search::SearchBudget,
    larger: search::SearchBudget,
    scores: &[f64],
    frames: &mut [u64],
    kept: &mut [u64],
    kept_scores: &mut [f64],
    larger_frames: &mut [u64],
    larger_kept: &mut [u64],
    larger_scores: &mut [f64],
) -> Replies
    ensures { RaisedOnlyAdds image.now smaller larger scores.now (record { frames = frames.exit.now; kept = kept.new; scores = kept_scores.new }) (record { frames = larger_frames.new; kept = larger_kept.new; scores = larger_scores.new }) result.smaller result.larger }
{
    let first = panel_routes::panel_routes_search(
        image,
        smaller,
        scores,
        frames,
        kept,
        kept_scores,
    );
    let second = panel_routes::panel_routes_search(
        image,
        larger,
        scores,
        larger_frames,
        larger_kept,
        larger_scores,
    );
    Replies {
        smaller: first,
        larger: second,
    }
}
