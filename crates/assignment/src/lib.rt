// The assignment check (evaluate.rs, validate_assignment without the DNA): refusals 21 to 31.
#![tactic(auto)]

ghost use Rattle.std.specs.Prelude.{◌≡◌, ◌≤◌, ◌<◌, length, get_or};
ghost use Rattle.image.specs.Inner.{Grouped, Groups};
ghost use Rattle.image.specs.Panel.{panel_of};
ghost use Rattle.panel.specs.Inner.{Accepted};
ghost use Rattle.evaluate.specs.Check.{assignment_refusal, words_refusal, check_answer, check_out, given_refusal};
ghost use Rattle.words.specs.Inner.{assignment_of, Formed};
ghost use Rattle.assignment.specs.Inner.{family_refusal, Replied};
ghost use Rattle.assignment.specs.Refusals.{number_of, place_of, refusal_of, reply_of};
ghost use Rattle.assignment.specs.declared.AssignmentRefusal.TheVariants.{Route};

// The words that an assignment may have.
pub const WORDS: usize = 65536;

// What is refused of an assignment.
#[derive(Clone, Copy, PartialEq, Eq, Debug)]
pub enum AssignmentRefusal {
    Room,
    Words,
    Family,
    Count,
    Route(routes::RefusedRoute),
    Overlap,
}

impl AssignmentRefusal {
    // Its number, 21 to 31.
    pub fn number(self) -> u64
        ensures { result ≡ number_of self }
    {
        match self {
            AssignmentRefusal::Room => 21,
            AssignmentRefusal::Words => 22,
            AssignmentRefusal::Family => 23,
            AssignmentRefusal::Count => 24,
            AssignmentRefusal::Route(r) => r.why.number(),
            AssignmentRefusal::Overlap => 31,
        }
    }

    // Its place: the route that is refused, or 0.
    pub fn place(self) -> u64
        ensures { result ≡ place_of self }
    {
        match self {
            AssignmentRefusal::Route(r) => r.route,
            _ => 0,
        }
    }
}

impl From<routes::RefusedRoute> for AssignmentRefusal {
    ghost from_gives = { λ r e. e ≡ Route r };

    fn from(r: routes::RefusedRoute) -> AssignmentRefusal {
        AssignmentRefusal::Route(r)
    }
}

// The family of this number.
pub fn family_of(image: &[u8], h: image::Header, number: usize) -> image::Family
    requires { Grouped image.now h × (number < h.families) }
    ensures { Groups image.now h result × (result.number ≡ number) }
{
    let start = (0..number).map(|i| image::path_count(image, h, i)).sum();
    image::family_from(image, h, number, start)
}

// 25 to 31, of an assignment that has a route for each path of its family.
#[tactic(auto, using(crate::proofs::Laws::family_steps))]
fn check_family(
    image: &[u8],
    h: image::Header,
    words: &[u64],
    f: image::Family,
) -> Result<(), AssignmentRefusal>
    requires { Accepted image.now h × Formed words.now × Groups image.now h f × (f.number ≡ get_or words.now 0 0) × (f.count ≡ get_or words.now 1 0) × (length words.now ≤ 65536) }
    ensures { refusal_of result ≡ family_refusal (panel_of image.now) (assignment_of words.now) }
{
    let starts = image::lane_starts(image, h);
    routes::check_routes(image, h, &starts, words, f)?;
    if overlap::are_apart(words, 2, f.count) {
        Ok(())
    } else {
        Err(AssignmentRefusal::Overlap)
    }
}

// 23 to 31, of words that are well formed.
#[tactic(auto, using(crate::proofs::Laws::formed_steps))]
fn check_formed(image: &[u8], h: image::Header, words: &[u64]) -> Result<(), AssignmentRefusal>
    requires { Accepted image.now h × Formed words.now × (length words.now ≤ 65536) }
    ensures { refusal_of result ≡ assignment_refusal (panel_of image.now) (assignment_of words.now) }
{
    let number = words[0] as usize;
    if h.families <= number {
        return Err(AssignmentRefusal::Family);
    }
    let f = family_of(image, h, number);
    if words[1] as usize != f.count {
        return Err(AssignmentRefusal::Count);
    }
    check_family(image, h, words, f)
}

// 22 to 31: all that the check refuses but for its room.
#[tactic(auto, using(crate::proofs::Given::given_steps))]
pub fn check_given(image: &[u8], h: image::Header, words: &[u64]) -> Result<(), AssignmentRefusal>
    requires { Accepted image.now h }
    ensures { refusal_of result ≡ given_refusal (panel_of image.now) words.now }
{
    if WORDS < words.len() || !words::is_well_formed(words) {
        return Err(AssignmentRefusal::Words);
    }
    check_formed(image, h, words)
}

// 22 to 31, of words for which there is room; how many words the normal form has.
#[tactic(auto, using(crate::proofs::Laws::words_steps))]
fn check_words(
    image: &[u8],
    h: image::Header,
    words: &[u64],
    out: &mut [u64],
) -> Result<usize, AssignmentRefusal>
    requires { Accepted image.now h × (length words.now ≤ length out.old) }
    ensures { Replied (words_refusal (panel_of image.now) words.now (length out.old)) words.now out.old out.new (reply_of result) }
{
    check_given(image, h, words)?;
    Ok(words::put_normal(out, words))
}

// 21 to 31, over an accepted panel.
#[tactic(auto, using(crate::proofs::Laws::words_21))]
fn check_room(
    image: &[u8],
    h: image::Header,
    words: &[u64],
    out: &mut [u64],
) -> Result<usize, AssignmentRefusal>
    requires { Accepted image.now h }
    ensures { Replied (words_refusal (panel_of image.now) words.now (length out.old)) words.now out.old out.new (reply_of result) }
{
    if out.len() < words.len() {
        return Err(AssignmentRefusal::Room);
    }
    check_words(image, h, words, out)
}

fn reply(r: Result<usize, AssignmentRefusal>) -> evaluate::AssignmentReply
    ensures { result ≡ reply_of r }
{
    match r {
        Ok(words) => evaluate::AssignmentReply {
            refusal: 0,
            place: 0,
            words: words as u64,
        },
        Err(e) => evaluate::AssignmentReply {
            refusal: e.number(),
            place: e.place(),
            words: 0,
        },
    }
}

// The assignment check: words in, and on acceptance the words of the normal form out.
pub fn check_assignment(image: &[u8], words: &[u64], out: &mut [u64]) -> evaluate::AssignmentReply
    ensures value { result ≡ check_answer image.now words.now (length out.old) }
    ensures out_after { out.new ≡ check_out image.now words.now out.old }
{
    match graph::check_panel(image) {
        Ok(h) => reply(check_room(image, h, words, out)),
        Err(e) => evaluate::AssignmentReply {
            refusal: e.number(),
            place: 0,
            words: 0,
        },
    }
}
