// The lanes' letters (02, "The DNA behind the ports"): refusals 39 and 40.
#![tactic(auto)]

ghost use Rattle.std.specs.Prelude.{◌≡◌, ◌+◌, ◌≤◌, ◌<◌, eqb, length, get_or};
ghost use Rattle.ground.specs.Lists.{pick, sum, all};
ghost use Rattle.storage.specs.Bytes.{part};
ghost use Rattle.storage.specs.Records.{no_port, padded, longest_word};
ghost use Rattle.storage.specs.Orders.{same_word};
ghost use Rattle.image.specs.Inner.{Framed, Started, Stands};
ghost use Rattle.image.specs.Image.{ports_of};
ghost use Rattle.image.specs.Panel.{panel_of};
ghost use Rattle.panel.specs.Inner.{Accepted};
ghost use Rattle.letters.specs.Letters.{complement, oriented, lengths, sound39, word_fits, sound40, letters_refusal, letters_answer};
ghost use Rattle.letters.specs.Refusals.{number_of, refusal_of, check_number, answer_of};
ghost use Rattle.letters.specs.declared.CheckRefusal.TheVariants.{BadPanel, BadLetters};
ghost use Rattle.letters.specs.Inner.{Lettered, Based};

// ---- letters

fn exchange(b: u8, from: u8, to: u8, rest: u8) -> u8
    ensures { result ≡ pick (eqb b from) to rest }
{
    if b == from { to } else { rest }
}

// Four choices and no branch; a match is compiled to a jump by a table.
fn complement(b: u8) -> u8
    ensures { result ≡ complement b }
{
    let t = exchange(b, b'T', b'A', b);
    let g = exchange(b, b'G', b'C', t);
    let c = exchange(b, b'C', b'G', g);
    exchange(b, b'A', b'T', c)
}

// Letter i of the n letters from a place on, as this orientation reads them.
pub fn letter_at(letters: &[u8], first: usize, n: usize, reverse: bool, i: usize) -> u8
    requires { (first + n ≤ length letters.now) × (i < n) }
    ensures { result ≡ get_or (oriented reverse (part letters.now first n)) i 0 }
{
    if reverse {
        complement(letters[first + (n - 1 - i)])
    } else {
        letters[first + i]
    }
}

// ---- 39

fn lane_length(image: &[u8], h: image::Header, lane: usize) -> usize
    requires { Framed image.now h × (lane < h.lanes) }
    ensures { result ≡ get_or (lengths (panel_of image.now)) lane 0 }
{
    image::lane_entry(image, h, lane).len as usize
}

fn is_total(image: &[u8], h: image::Header, total: usize) -> bool
    requires { Framed image.now h }
    ensures { result ≡ eqb (sum (lengths (panel_of image.now))) total }
{
    ground::adds_up(h.lanes, total, |lane| lane_length(image, h, lane))
}

#[tactic(auto, using(crate::proofs::Laws::whole), unfolding(crate::specs::Letters::sound39))]
fn are_lane_letters(image: &[u8], h: image::Header, letters: &[u8]) -> bool
    requires { Framed image.now h }
    ensures { result ≡ sound39 (panel_of image.now) letters.now }
{
    let n = letters.len();
    is_total(image, h, n) && panel::are_letters(letters, 0, n)
}

// Where each lane's letters begin.
pub fn lane_bases(image: &[u8], h: image::Header, letters: &[u8]) -> [usize; image::Header::LANES]
    requires { Lettered image.now h letters.now }
    ensures { Based image.now h letters.now result }
{
    let mut bases = [0usize; image::Header::LANES];
    let mut at = 0;
    for lane in 0..h.lanes {
        bases[lane] = at;
        at += lane_length(image, h, lane);
    }
    bases
}

// ---- 40

// Whether the k bytes at a place of the image are the k letters from a place on, as this orientation reads them.
fn is_word(image: &[u8], at: usize, k: usize, letters: &[u8], first: usize, reverse: bool) -> bool
    requires { (at + k ≤ length image.now) × (first + k ≤ length letters.now) × (k ≤ longest_word) }
    ensures { result ≡ same_word (padded (part image.now at k) k) (padded (oriented reverse (part letters.now first k)) k) }
{
    (0..k).all(|i| image[at + i] == letter_at(letters, first, k, reverse, i))
}

// Of record i of a lane's list.
fn is_word_of(
    image: &[u8],
    h: image::Header,
    letters: &[u8],
    bases: &[usize; image::Header::LANES],
    l: image::Lane,
    i: usize,
) -> bool
    requires { Based image.now h letters.now bases.now × Stands image.now h l × (i < l.count) }
    ensures { result ≡ word_fits (panel_of image.now) letters.now (get_or (ports_of h image.now l.number) i no_port) }
{
    let k = h.k;
    let number = l.number;
    let base = bases[number];
    let at = storage::offset(image, h.lane_ports_at, h.ports, k, l.start + i);
    let anchor = storage::anchor_at(image, at, k) as usize;
    let reverse = storage::reverse_at(image, at, k);
    is_word(image, at, k, letters, base + anchor, reverse)
}

fn are_words_of(
    image: &[u8],
    h: image::Header,
    letters: &[u8],
    bases: &[usize; image::Header::LANES],
    l: image::Lane,
) -> bool
    requires { Based image.now h letters.now bases.now × Stands image.now h l }
    ensures { result ≡ all (word_fits (panel_of image.now) letters.now) (ports_of h image.now l.number) }
{
    (0..l.count).all(|i| is_word_of(image, h, letters, bases, l, i))
}

// The lanes' lists suffice: by refusal 8 each global record is one of them.
fn are_lanes_worded(
    image: &[u8],
    h: image::Header,
    letters: &[u8],
    bases: &[usize; image::Header::LANES],
    starts: &[usize; image::Header::LANES],
) -> bool
    requires { Based image.now h letters.now bases.now × Started image.now h starts.now }
    ensures { result ≡ sound40 (panel_of image.now) letters.now }
{
    (0..h.lanes).all(|lane| {
        let l = image::lane_of(image, h, starts, lane);
        are_words_of(image, h, letters, bases, l)
    })
}

fn are_words(image: &[u8], h: image::Header, letters: &[u8]) -> bool
    requires { Lettered image.now h letters.now }
    ensures { result ≡ sound40 (panel_of image.now) letters.now }
{
    let starts = image::lane_starts(image, h);
    let bases = lane_bases(image, h, letters);
    are_lanes_worded(image, h, letters, &bases, &starts)
}

// ---- the calls

// Why letters are refused.
#[derive(Clone, Copy, PartialEq, Eq, Debug)]
pub enum LettersRefusal {
    // They are not as many as the lanes are long, or not all of them A, C, G or T.
    Letters,
    // A port's word is not what they read.
    Words,
}

impl LettersRefusal {
    pub fn number(self) -> u64
        ensures { result ≡ number_of self }
    {
        match self {
            LettersRefusal::Letters => 39,
            LettersRefusal::Words => 40,
        }
    }
}

// 39 and 40, of an accepted panel.
pub fn letters_refusal(image: &[u8], h: image::Header, letters: &[u8]) -> Result<(), LettersRefusal>
    requires { Accepted image.now h }
    ensures { refusal_of result ≡ letters_refusal (panel_of image.now) letters.now }
{
    if !are_lane_letters(image, h, letters) {
        return Err(LettersRefusal::Letters);
    }
    if !are_words(image, h, letters) {
        return Err(LettersRefusal::Words);
    }
    Ok(())
}

// Why the call refuses: the panel first.
#[derive(Clone, Copy, PartialEq, Eq, Debug)]
pub enum CheckRefusal {
    BadPanel(image::PanelRefusal),
    BadLetters(LettersRefusal),
}

impl CheckRefusal {
    pub fn number(self) -> u64
        ensures { result ≡ check_number self }
    {
        match self {
            CheckRefusal::BadPanel(e) => e.number(),
            CheckRefusal::BadLetters(e) => e.number(),
        }
    }
}

impl From<image::PanelRefusal> for CheckRefusal {
    ghost from_gives = { λ e r. r ≡ BadPanel e };

    fn from(e: image::PanelRefusal) -> CheckRefusal {
        CheckRefusal::BadPanel(e)
    }
}

impl From<LettersRefusal> for CheckRefusal {
    ghost from_gives = { λ e r. r ≡ BadLetters e };

    fn from(e: LettersRefusal) -> CheckRefusal {
        CheckRefusal::BadLetters(e)
    }
}

// Whether the letters are those of the lanes, and every port's word is what they read.
pub fn check_letters(image: &[u8], letters: &[u8]) -> Result<(), CheckRefusal>
    ensures { answer_of result ≡ letters_answer image.now letters.now }
{
    let h = graph::check_panel(image)?;
    letters_refusal(image, h, letters)?;
    Ok(())
}
