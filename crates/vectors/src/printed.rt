// Kind 7: what the walk program prints of a job.
use crate::record;

// Whether the text is the one behind a byte offset: as words, with the zeros that follow both.
fn is_text(text: &[u8], body: &[u8], at: usize) -> bool {
    (0..512).all(|i| record::word(text, 8 * i) == record::next(body, at, i))
}

fn is_printed(text: &[u8; sheets::ROOM], n: u64, body: &[u8], at: usize, end: usize) -> bool {
    let from = record::onward(at, 1);
    let words = record::padded(n) / 8;
    n == record::next(body, at, 0)
        && is_text(text, body, from)
        && record::onward(from, words as u64) == end
}

pub fn is_job(job: &[u8], body: &[u8], at: usize, end: usize) -> bool {
    let mut out = [0u8; sheets::ROOM];
    let n = sheets::answer_job(job, &mut out);
    is_printed(&out, n as u64, body, at, end)
}
