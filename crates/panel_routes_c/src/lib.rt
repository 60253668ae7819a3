// The calls of panel_routes under the names and in the layout that C links (include/panel_routes.h): each promises what the call behind it does.
#![tactic(auto)]

ghost use Rattle.std.specs.Prelude.{◌≡◌, length};
ghost use Rattle.graph.specs.Check.{checked};
ghost use Rattle.graph.specs.Lookups.{port_answer, bucket_answer};
ghost use Rattle.evaluate.specs.Check.{check_answer, check_out};
ghost use Rattle.letters.specs.Letters.{letters_answer};
ghost use Rattle.spell.specs.Spelling.{spell_answer, spell_out};
ghost use Rattle.spell.specs.Theorems.{SpellHolds};
ghost use Rattle.bed.specs.Answers.{write_answer, write_out, read_answer, read_out};
ghost use Rattle.bed.specs.Theorems.{WriteHolds, ReadHolds};
ghost use Rattle.bound.specs.Bound.{lower_bound};
ghost use Rattle.bound.specs.Bounded.{BoundHolds};
ghost use Rattle.search.specs.Answers.{Rooms, search_answer, search_rooms, ListRooms, list_answer, list_rooms};
ghost use Rattle.engine.specs.Answer.{plain_answer, plain_out, PlainHolds};
ghost use Rattle.panel_routes.specs.Replies.{panel_reply, port_reply, bucket_reply, letters_reply};

#[unsafe(no_mangle)]
pub extern "C" fn panel_routes_check_panel(image: &[u8]) -> panel_routes::PanelReply
    ensures { result ≡ panel_reply (checked image.now) }
{
    panel_routes::panel_routes_check_panel(image)
}

#[unsafe(no_mangle)]
pub extern "C" fn panel_routes_port_at_cut(
    image: &[u8],
    lane: u64,
    cut: u64,
    reverse: bool,
) -> panel_routes::PortReply
    ensures { result ≡ port_reply (port_answer image.now lane cut reverse) }
{
    panel_routes::panel_routes_port_at_cut(image, lane, cut, reverse)
}

#[unsafe(no_mangle)]
pub extern "C" fn panel_routes_hub_bucket(image: &[u8], word: &[u8]) -> panel_routes::BucketReply
    ensures { result ≡ bucket_reply (bucket_answer image.now word.now) }
{
    panel_routes::panel_routes_hub_bucket(image, word)
}

// On acceptance out begins with the normal form, whose length is told; on a refusal it stays.
#[unsafe(no_mangle)]
pub extern "C" fn panel_routes_check_assignment(
    image: &[u8],
    words: &[u64],
    out: &mut [u64],
) -> evaluate::AssignmentReply
    ensures value { result ≡ check_answer image.now words.now (length out.old) }
    ensures out_after { out.new ≡ check_out image.now words.now out.old }
{
    panel_routes::panel_routes_check_assignment(image, words, out)
}

#[unsafe(no_mangle)]
pub extern "C" fn panel_routes_list(
    image: &[u8],
    budget: search::SearchBudget,
    from: u64,
    frames: &mut [u64],
    slot: &mut [u64],
    out: &mut [u64],
) -> search::ListReply
    ensures value { result ≡ list_answer image.now budget from (record { frames = frames.entry.now; slot = slot.old; out = out.old }) }
    ensures rooms_after { ◌≡◌ {A = ListRooms} (record { frames = frames.exit.now; slot = slot.new; out = out.new }) (list_rooms image.now budget from (record { frames = frames.entry.now; slot = slot.old; out = out.old })) }
{
    panel_routes::panel_routes_list(image, budget, from, frames, slot, out)
}

#[unsafe(no_mangle)]
pub extern "C" fn panel_routes_search(
    image: &[u8],
    budget: search::SearchBudget,
    scores: &[f64],
    frames: &mut [u64],
    kept: &mut [u64],
    kept_scores: &mut [f64],
) -> search::SearchReply
    ensures value { result ≡ search_answer image.now budget scores.now (record { frames = frames.entry.now; kept = kept.old; scores = kept_scores.old }) }
    ensures rooms_after { ◌≡◌ {A = Rooms} (record { frames = frames.exit.now; kept = kept.new; scores = kept_scores.new }) (search_rooms image.now budget scores.now (record { frames = frames.entry.now; kept = kept.old; scores = kept_scores.old })) }
{
    panel_routes::panel_routes_search(image, budget, scores, frames, kept, kept_scores)
}

// Of counts and a background, with no panel: the bound, and what it is a bound of.
#[unsafe(no_mangle)]
pub extern "C" fn panel_routes_lower_bound(counts: &[u64], background: f64) -> bound::BoundReply
    ensures value { result ≡ lower_bound counts.now background }
    ensures bound_holds { BoundHolds counts.now background result }
{
    panel_routes::panel_routes_lower_bound(counts, background)
}

// The plain engine: all legal assignments, without budgets, from number from + 1 on, until one doesn't fit into out.
#[unsafe(no_mangle)]
pub extern "C" fn panel_routes_plain_list(
    image: &[u8],
    from: u64,
    out: &mut [u64],
) -> engine::PlainReply
    ensures value { result ≡ plain_answer image.now from (length out.old) }
    ensures out_after { out.new ≡ plain_out image.now from out.old }
    ensures plain_holds { PlainHolds image.now from out.old result out.new }
{
    panel_routes::panel_routes_plain_list(image, from, out)
}

// Whether the letters are the lanes', lane after lane, and every port's word is what they read.
#[unsafe(no_mangle)]
pub extern "C" fn panel_routes_check_letters(
    image: &[u8],
    letters: &[u8],
) -> panel_routes::PanelReply
    ensures { result ≡ letters_reply (letters_answer image.now letters.now) }
{
    panel_routes::panel_routes_check_letters(image, letters)
}

// The letters of the route of a slot, from number from up to number to, counted from 0; on a refusal out stays.
#[unsafe(no_mangle)]
pub extern "C" fn panel_routes_spell(
    image: &[u8],
    letters: &[u8],
    words: &[u64],
    slot: u64,
    from: u64,
    to: u64,
    out: &mut [u8],
) -> spell::SpellReply
    ensures value { result ≡ spell_answer image.now letters.now words.now slot from to (length out.old) }
    ensures out_after { out.new ≡ spell_out image.now letters.now words.now slot from to out.old }
    ensures spell_holds { SpellHolds image.now letters.now words.now slot from to out.old result out.new }
{
    panel_routes::panel_routes_spell(image, letters, words, slot, from, to, out)
}

// An assignment's words as BED, a line a segment as given, by a table with a line for each lane's name; on a refusal out stays.
#[unsafe(no_mangle)]
pub extern "C" fn panel_routes_write_bed(
    image: &[u8],
    names: &[u8],
    words: &[u64],
    out: &mut [u8],
) -> bed::BedReply
    ensures value { result ≡ write_answer image.now names.now words.now (length out.old) }
    ensures out_after { out.new ≡ write_out image.now names.now words.now out.old }
    ensures write_holds { WriteHolds image.now names.now words.now result out.new }
{
    panel_routes::panel_routes_write_bed(image, names, words, out)
}

// Lines of BED read back into the words that they hold, the family given beside them; on a refusal out stays.
#[unsafe(no_mangle)]
pub extern "C" fn panel_routes_read_bed(
    image: &[u8],
    names: &[u8],
    family: u64,
    text: &[u8],
    out: &mut [u64],
) -> bed::BedReply
    ensures value { result ≡ read_answer image.now names.now family text.now (length out.old) }
    ensures out_after { out.new ≡ read_out image.now names.now family text.now out.old }
    ensures read_holds { ReadHolds image.now names.now text.now result out.new }
{
    panel_routes::panel_routes_read_bed(image, names, family, text, out)
}
