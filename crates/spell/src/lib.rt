// The letters of a crop of a route (02, "The DNA behind the ports").
#![tactic(auto)]

ghost use Rattle.std.specs.Prelude.{◌≡◌, ◌+◌, ◌-◌, ◌*◌, ◌≤◌, ◌<◌, leb, length, drop, get_or};
ghost use Rattle.std.proofs.lemmas.List.Edits.{sets};
ghost use Rattle.storage.specs.Bytes.{part};
ghost use Rattle.image.specs.Panel.{panel_of};
ghost use Rattle.panel.specs.Inner.{Accepted};
ghost use Rattle.evaluate.specs.Properties.{Each};
ghost use Rattle.evaluate.specs.Refusals.{no_refusal, at};
ghost use Rattle.words.specs.Inner.{segments_of, Formed};
ghost use Rattle.letters.specs.Letters.{oriented};
ghost use Rattle.spell.specs.Spelling.{crop, crop_refusal, spelling_refusal, spell_answer, spell_out};
ghost use Rattle.spell.specs.Refusals.{number_of, refusal_of};
ghost use Rattle.spell.specs.Inner.{size_of, sizes, SlotAt, crop_by, letters_by, route_by, Inside, Passed, Replied};

// What the spelling call answers: the refusal, and how many letters of out it wrote.
#[repr(C)]
#[derive(Clone, Copy)]
pub struct SpellReply {
    pub refusal: u64,
    pub place: u64,
    pub letters: u64,
}

// How many letters a segment has.
fn size_of(s: evaluate::Segment) -> u64
    ensures { result ≡ size_of s }
{
    s.end.saturating_sub(s.start)
}

// Where the route of a slot stands among the words.
fn slot_at(words: &[u64], slot: usize) -> usize
    requires { Formed words.now × (slot < get_or words.now 1 0) }
    ensures { SlotAt words.now slot result }
{
    let mut at: usize = 2;
    for _i in 0..slot {
        at += 1 + evaluate::Segment::WORDS * words::count_at(words, at);
    }
    at
}

// Whether a route has so many letters; they are taken off one segment after the other, so that no sum wraps.
fn has_letters(words: &[u64], at: usize, left: usize, to: u64) -> bool
    requires { at + 4 * left ≤ length words.now }
    ensures { result ≡ leb to (sizes (segments_of left (drop at words.now))) }
{
    let mut more = to;
    for i in 0..left {
        let s = words::segment_at(words, at + evaluate::Segment::WORDS * i);
        more = more.saturating_sub(size_of(s));
    }
    more == 0
}

// Why a crop is refused.
#[derive(Clone, Copy, PartialEq, Eq, Debug)]
enum CropRefusal {
    // There is no such slot, or the crop is empty or ends past its route.
    Crop,
    // Its letters have no room in out.
    Room,
}

impl CropRefusal {
    fn number(self) -> u64
        ensures { result ≡ number_of self }
    {
        match self {
            CropRefusal::Crop => 41,
            CropRefusal::Room => 37,
        }
    }
}

// 41, then 37.
fn crop_refusal(
    words: &[u64],
    slot: u64,
    from: u64,
    to: u64,
    room: usize,
) -> Result<(), CropRefusal>
    requires { Formed words.now }
    ensures { refusal_of result ≡ crop_by words.now slot from to room }
{
    if words[1] <= slot || to <= from {
        return Err(CropRefusal::Crop);
    }
    let at = slot_at(words, slot as usize);
    let left = words::count_at(words, at);
    if !has_letters(words, at + 1, left, to) {
        return Err(CropRefusal::Crop);
    }
    if to - from > room as u64 {
        return Err(CropRefusal::Room);
    }
    Ok(())
}

// The letters from one number up to another of those that stand from a place on, as this orientation reads them.
fn put_piece(
    out: &mut [u8],
    to: usize,
    letters: &[u8],
    first: usize,
    n: usize,
    reverse: bool,
    from: usize,
    end: usize,
)
    requires { (first + n ≤ length letters.now) × (from ≤ end) × (end ≤ n) × (to + (end - from) ≤ length out.old) }
    ensures { out.new ≡ sets out.old to (part (oriented reverse (part letters.now first n)) from (end - from)) }
{
    for i in from..end {
        out[to + (i - from)] = letters::letter_at(letters, first, n, reverse, i);
    }
}

// The letters from one number up to another of a segment.
fn put_segment(
    out: &mut [u8],
    to: usize,
    letters: &[u8],
    bases: &[usize; image::Header::LANES],
    s: evaluate::Segment,
    from: usize,
    end: usize,
)
    requires { Inside bases.now letters.now s × (from ≤ end) × (end ≤ size_of s) × (to + (end - from) ≤ length out.old) }
    ensures { out.new ≡ sets out.old to (part (letters_by bases.now letters.now s) from (end - from)) }
{
    let source = s.source as usize;
    let first = bases[source] + s.start as usize;
    let n = size_of(s) as usize;
    let reverse = s.reverse;
    put_piece(out, to, letters, first, n, reverse, from, end);
}

// The crop of a route, segment by segment.
fn put_crop(
    out: &mut [u8],
    letters: &[u8],
    bases: &[usize; image::Header::LANES],
    words: &[u64],
    at: usize,
    left: usize,
    from: u64,
    to: u64,
)
    requires { (at + 4 * left ≤ length words.now) × Each (Inside bases.now letters.now) (segments_of left (drop at words.now)) × (from ≤ to) × (to ≤ sizes (segments_of left (drop at words.now))) × (to - from ≤ length out.old) }
    ensures { out.new ≡ sets out.old 0 (crop from to (route_by bases.now letters.now (segments_of left (drop at words.now)))) }
{
    let mut next: usize = 0;
    let mut lo = from;
    let mut hi = to;
    for i in 0..left {
        let s = words::segment_at(words, at + evaluate::Segment::WORDS * i);
        let m = size_of(s);
        let a = lo.min(m);
        let b = hi.min(m);
        put_segment(out, next, letters, bases, s, a as usize, b as usize);
        next += (b - a) as usize;
        lo -= a;
        hi -= b;
    }
}

fn reply(number: u64, place: u64, letters: u64) -> SpellReply
    ensures { result ≡ record { refusal = number; place = place; letters = letters } }
{
    SpellReply {
        refusal: number,
        place,
        letters,
    }
}

// 41 and 37, and the crop.
fn spell_passed(
    image: &[u8],
    h: image::Header,
    letters: &[u8],
    words: &[u64],
    slot: u64,
    from: u64,
    to: u64,
    out: &mut [u8],
) -> SpellReply
    requires { Passed image.now h letters.now words.now }
    ensures { Replied (at (crop_refusal (panel_of image.now) letters.now words.now slot from to (length out.old)) 0 no_refusal) (panel_of image.now) letters.now words.now slot from to out.old out.new result }
{
    let room = out.len();
    if let Err(e) = crop_refusal(words, slot, from, to, room) {
        return reply(e.number(), 0, 0);
    }
    let place = slot_at(words, slot as usize);
    let left = words::count_at(words, place);
    let bases = letters::lane_bases(image, h, letters);
    put_crop(out, letters, &bases, words, place + 1, left, from, to);
    reply(0, 0, to - from)
}

// 39 and 40, the check's from 22 on, and the rest, of an accepted panel.
fn spell_accepted(
    image: &[u8],
    h: image::Header,
    letters: &[u8],
    words: &[u64],
    slot: u64,
    from: u64,
    to: u64,
    out: &mut [u8],
) -> SpellReply
    requires { Accepted image.now h }
    ensures { Replied (spelling_refusal (panel_of image.now) letters.now words.now slot from to (length out.old)) (panel_of image.now) letters.now words.now slot from to out.old out.new result }
{
    if let Err(e) = letters::letters_refusal(image, h, letters) {
        return reply(e.number(), 0, 0);
    }
    if let Err(e) = assignment::check_given(image, h, words) {
        return reply(e.number(), e.place(), 0);
    }
    spell_passed(image, h, letters, words, slot, from, to, out)
}

// Spells a crop of the route of a slot: the letters from number from up to number to.
pub fn spell(
    image: &[u8],
    letters: &[u8],
    words: &[u64],
    slot: u64,
    from: u64,
    to: u64,
    out: &mut [u8],
) -> SpellReply
    ensures value { result ≡ spell_answer image.now letters.now words.now slot from to (length out.old) }
    ensures out_after { out.new ≡ spell_out image.now letters.now words.now slot from to out.old }
{
    match graph::check_panel(image) {
        Ok(h) => spell_accepted(image, h, letters, words, slot, from, to, out),
        Err(e) => reply(e.number(), 0, 0),
    }
}
