// The calls that users link: thin functions over the libraries, with replies in C's layout. panel_routes_c exports them.
#![tactic(auto)]

ghost use Rattle.std.specs.Prelude.{◌≡◌, length};
ghost use Rattle.graph.specs.Check.{checked};
ghost use Rattle.graph.specs.Lookups.{port_answer, bucket_answer};
ghost use Rattle.evaluate.specs.Check.{check_answer, check_out};
ghost use Rattle.letters.specs.Letters.{letters_answer};
ghost use Rattle.spell.specs.Spelling.{spell_answer, spell_out};
ghost use Rattle.spell.specs.Theorems.{SpellHolds};
ghost use Rattle.bed.specs.Answers.{write_answer, write_out, read_answer, read_out};
ghost use Rattle.bed.specs.Theorems.{WriteHolds, ReadHolds};
ghost use Rattle.bound.specs.Bound.{lower_bound};
ghost use Rattle.bound.specs.Bounded.{BoundHolds};
ghost use Rattle.search.specs.Answers.{Rooms, search_answer, search_rooms, ListRooms, list_answer, list_rooms};
ghost use Rattle.engine.specs.Answer.{plain_answer, plain_out, PlainHolds};
ghost use Rattle.panel_routes.specs.Replies.{panel_reply, found_port, no_port, port_reply, bucket_reply, letters_reply};

// Refusal 0: none. Fields that an answer does not use are 0.
#[repr(C)]
#[derive(Clone, Copy)]
pub struct PanelReply {
    pub refusal: u64,
    pub place: u64,
}

// Found 0: no port, 1: a port; the word zero-padded.
#[repr(C)]
#[derive(Clone, Copy)]
pub struct PortReply {
    pub refusal: u64,
    pub place: u64,
    pub found: u64,
    pub anchor: u64,
    pub word: [u8; 32],
}

#[repr(C)]
#[derive(Clone, Copy)]
pub struct BucketReply {
    pub refusal: u64,
    pub place: u64,
    pub lo: u64,
    pub hi: u64,
}

pub fn panel_routes_check_panel(image: &[u8]) -> PanelReply
    ensures { result ≡ panel_reply (checked image.now) }
{
    match graph::check_panel(image) {
        Ok(_h) => PanelReply {
            refusal: 0,
            place: 0,
        },
        Err(e) => PanelReply {
            refusal: e.number(),
            place: 0,
        },
    }
}

// No port: what stands in the reply where none is found, or a refusal.
fn no_port(refusal: u64) -> PortReply
    ensures { result ≡ no_port refusal }
{
    PortReply {
        refusal,
        place: 0,
        found: 0,
        anchor: 0,
        word: [0; 32],
    }
}

// A port that was found.
fn port_found(p: storage::Port) -> PortReply
    ensures { result ≡ found_port p }
{
    let word = p.word;
    PortReply {
        refusal: 0,
        place: 0,
        found: 1,
        anchor: p.anchor,
        word,
    }
}

pub fn panel_routes_port_at_cut(image: &[u8], lane: u64, cut: u64, reverse: bool) -> PortReply
    ensures { result ≡ port_reply (port_answer image.now lane cut reverse) }
{
    match graph::port_at_cut(image, lane, cut, reverse) {
        Ok(Some(p)) => port_found(p),
        Ok(None) => no_port(0),
        Err(e) => no_port(e.number()),
    }
}

pub fn panel_routes_hub_bucket(image: &[u8], word: &[u8]) -> BucketReply
    ensures { result ≡ bucket_reply (bucket_answer image.now word.now) }
{
    match graph::hub_bucket(image, word) {
        Ok(b) => BucketReply {
            refusal: 0,
            place: 0,
            lo: b.lo as u64,
            hi: b.hi as u64,
        },
        Err(e) => BucketReply {
            refusal: e.number(),
            place: 0,
            lo: 0,
            hi: 0,
        },
    }
}

// On acceptance out begins with the normal form, whose length is told; on a refusal it stays.
pub fn panel_routes_check_assignment(
    image: &[u8],
    words: &[u64],
    out: &mut [u64],
) -> evaluate::AssignmentReply
    ensures value { result ≡ check_answer image.now words.now (length out.old) }
    ensures out_after { out.new ≡ check_out image.now words.now out.old }
{
    assignment::check_assignment(image, words, out)
}

pub fn panel_routes_list(
    image: &[u8],
    budget: search::SearchBudget,
    from: u64,
    frames: &mut [u64],
    slot: &mut [u64],
    out: &mut [u64],
) -> search::ListReply
    ensures value { result ≡ list_answer image.now budget from (record { frames = frames.entry.now; slot = slot.old; out = out.old }) }
    ensures rooms_after { ◌≡◌ {A = ListRooms} (record { frames = frames.exit.now; slot = slot.new; out = out.new }) (list_rooms image.now budget from (record { frames = frames.entry.now; slot = slot.old; out = out.old })) }
{
    listing::list(image, budget, from, frames, slot, out)
}

pub fn panel_routes_search(
    image: &[u8],
    budget: search::SearchBudget,
    scores: &[f64],
    frames: &mut [u64],
    kept: &mut [u64],
    kept_scores: &mut [f64],
) -> search::SearchReply
    ensures value { result ≡ search_answer image.now budget scores.now (record { frames = frames.entry.now; kept = kept.old; scores = kept_scores.old }) }
    ensures rooms_after { ◌≡◌ {A = Rooms} (record { frames = frames.exit.now; kept = kept.new; scores = kept_scores.new }) (search_rooms image.now budget scores.now (record { frames = frames.entry.now; kept = kept.old; scores = kept_scores.old })) }
{
    searching::search(image, budget, scores, frames, kept, kept_scores)
}

// Of counts and a background, with no panel: the bound, and what it is a bound of.
pub fn panel_routes_lower_bound(counts: &[u64], background: f64) -> bound::BoundReply
    ensures value { result ≡ lower_bound counts.now background }
    ensures bound_holds { BoundHolds counts.now background result }
{
    bound::lower_bound(counts, background)
}

// The plain engine: all legal assignments, without budgets, from number from + 1 on, until one doesn't fit into out.
pub fn panel_routes_plain_list(image: &[u8], from: u64, out: &mut [u64]) -> engine::PlainReply
    ensures value { result ≡ plain_answer image.now from (length out.old) }
    ensures out_after { out.new ≡ plain_out image.now from out.old }
    ensures plain_holds { PlainHolds image.now from out.old result out.new }
{
    engine::list(image, from, out)
}

// Whether the letters are the lanes', lane after lane, and every port's word is what they read.
pub fn panel_routes_check_letters(image: &[u8], letters: &[u8]) -> PanelReply
    ensures { result ≡ letters_reply (letters_answer image.now letters.now) }
{
    match letters::check_letters(image, letters) {
        Ok(()) => PanelReply {
            refusal: 0,
            place: 0,
        },
        Err(e) => PanelReply {
            refusal: e.number(),
            place: 0,
        },
    }
}

// The letters of the route of a slot, from number from up to number to, counted from 0; on a refusal out stays.
pub fn panel_routes_spell(
    image: &[u8],
    letters: &[u8],
    words: &[u64],
    slot: u64,
    from: u64,
    to: u64,
    out: &mut [u8],
) -> spell::SpellReply
    ensures value { result ≡ spell_answer image.now letters.now words.now slot from to (length out.old) }
    ensures out_after { out.new ≡ spell_out image.now letters.now words.now slot from to out.old }
    ensures spell_holds { SpellHolds image.now letters.now words.now slot from to out.old result out.new }
{
    spell::spell(image, letters, words, slot, from, to, out)
}

// An assignment's words as BED, a line a segment as given, by a table with a line for each lane's name; on a refusal out stays.
pub fn panel_routes_write_bed(
    image: &[u8],
    names: &[u8],
    words: &[u64],
    out: &mut [u8],
) -> bed::BedReply
    ensures value { result ≡ write_answer image.now names.now words.now (length out.old) }
    ensures out_after { out.new ≡ write_out image.now names.now words.now out.old }
    ensures write_holds { WriteHolds image.now names.now words.now result out.new }
{
    bed::write_bed(image, names, words, out)
}

// Lines of BED read back into the words that they hold, the family given beside them; on a refusal out stays.
pub fn panel_routes_read_bed(
    image: &[u8],
    names: &[u8],
    family: u64,
    text: &[u8],
    out: &mut [u64],
) -> bed::BedReply
    ensures value { result ≡ read_answer image.now names.now family text.now (length out.old) }
    ensures out_after { out.new ≡ read_out image.now names.now family text.now out.old }
    ensures read_holds { ReadHolds image.now names.now text.now result out.new }
{
    bed::read_bed(image, names, family, text, out)
}
