// Routes as BED: an assignment's words written as lines, and lines read back into words.
#![tactic(auto)]

ghost use Rattle.std.specs.Prelude.{◌≡◌, true, [], ◌∷◌, ◌++◌, ◌+◌, ◌*◌, ◌≤◌, length, drop, get_or};
ghost use Rattle.image.specs.Inner.{Groups};
ghost use Rattle.image.specs.Panel.{panel_of, paths_at};
ghost use Rattle.panel.specs.Inner.{Accepted};
ghost use Rattle.evaluate.specs.Properties.{Each};
ghost use Rattle.evaluate.specs.Refusals.{at};
ghost use Rattle.evaluate.specs.Check.{routes_refusal, assignment_refusal, given_refusal, over};
ghost use Rattle.words.specs.Inner.{segments_of, routes_of};
ghost use Rattle.routes.specs.Refusals.{refused_of};
ghost use Rattle.assignment.specs.Inner.{family_refusal};
ghost use Rattle.assignment.specs.Refusals.{refusal_of};
ghost use Rattle.text.specs.Inner.{Put};
ghost use Rattle.names.specs.Names.{lines_of};
ghost use Rattle.rows.specs.Rows.{row_text};
ghost use Rattle.texts.specs.Bed.{route_text, routes_text, text_ok, held, routes_in};
ghost use Rattle.texts.specs.Inner.{Counted};
ghost use Rattle.bed.specs.Answers.{words_then_room, bed_text, write_answer, write_out, text_refusal, read_answer, read_out, table_refusal};
ghost use Rattle.bed.specs.Inner.{number_of, place_of, answer_of, OnLane, Long, Ready, Replied, last_refusal, held_in};
ghost use Rattle.bed.specs.Theorems.{WriteHolds, ReadHolds};
ghost use Rattle.bed.specs.declared.BedRefusal.TheVariants.{Text, Assignment};

// What writing and reading answer: the refusal, and how many bytes or words of out they wrote.
#[repr(C)]
#[derive(Clone, Copy, PartialEq, Eq, Debug)]
pub struct BedReply {
    pub refusal: u64,
    pub place: u64,
    pub length: u64,
}

// Why nothing is written or read.
#[derive(Clone, Copy, PartialEq, Eq, Debug)]
enum BedRefusal {
    Panel(image::PanelRefusal),
    Table,
    Text(texts::TextRefusal),
    Room,
    Assignment(assignment::AssignmentRefusal),
}

impl BedRefusal {
    // Its number: 1 to 8, 34, 35 and 36, 37, 22 to 31.
    fn number(self) -> u64
        ensures { result ≡ number_of self }
    {
        match self {
            BedRefusal::Panel(e) => e.number(),
            BedRefusal::Table => 34,
            BedRefusal::Text(e) => e.number(),
            BedRefusal::Room => 37,
            BedRefusal::Assignment(e) => e.number(),
        }
    }

    // Its place: the route that is refused, or 0.
    fn place(self) -> u64
        ensures { result ≡ place_of self }
    {
        match self {
            BedRefusal::Assignment(e) => e.place(),
            _ => 0,
        }
    }
}

impl From<texts::TextRefusal> for BedRefusal {
    ghost from_gives = { λ r e. e ≡ Text r };

    fn from(r: texts::TextRefusal) -> BedRefusal {
        BedRefusal::Text(r)
    }
}

impl From<assignment::AssignmentRefusal> for BedRefusal {
    ghost from_gives = { λ r e. e ≡ Assignment r };

    fn from(r: assignment::AssignmentRefusal) -> BedRefusal {
        BedRefusal::Assignment(r)
    }
}

fn reply(r: Result<usize, BedRefusal>) -> BedReply
    ensures { result ≡ answer_of r }
{
    match r {
        Ok(length) => BedReply {
            refusal: 0,
            place: 0,
            length: length as u64,
        },
        Err(e) => BedReply {
            refusal: e.number(),
            place: e.place(),
            length: 0,
        },
    }
}

// ---- how long the lines are

// The line is put into a room that holds any line.
fn row_length(table: &names::NameTable, slot: u64, s: evaluate::Segment) -> usize
    requires { OnLane table.now.lanes s }
    ensures { Long (row_text (lines_of table.now.names.now) slot s ++ (10 ∷ [])) 1 result }
{
    let mut line = [0u8; 192];
    rows::put_row(&mut line, 0, table, slot, s)
}

fn route_length(
    table: &names::NameTable,
    slot: u64,
    words: &[u64],
    from: usize,
    left: usize,
) -> usize
    requires { (from + 4 * left ≤ length words.now) × (length words.now ≤ 65536) × Each (OnLane table.now.lanes) (segments_of left (drop from words.now)) }
    ensures { Long (route_text (lines_of table.now.names.now) slot (segments_of left (drop from words.now))) left result }
{
    let mut sum = 0;
    for i in 0..left {
        let s = words::segment_at(words, from + evaluate::Segment::WORDS * i);
        sum += row_length(table, slot, s);
    }
    sum
}

fn text_length(table: &names::NameTable, words: &[u64], routes: usize) -> usize
    requires { Ready words.now routes table.now.lanes }
    ensures { result ≡ length (routes_text (lines_of table.now.names.now) 0 (routes_of routes (drop 2 words.now))) }
{
    let mut sum = 0;
    let mut place: usize = 2;
    for slot in 0..routes {
        let left = words::count_at(words, place);
        sum += route_length(table, slot as u64, words, place + 1, left);
        place = place + 1 + evaluate::Segment::WORDS * left;
    }
    sum
}

// ---- the lines

fn put_route(
    out: &mut [u8],
    at: usize,
    table: &names::NameTable,
    slot: u64,
    words: &[u64],
    from: usize,
    left: usize,
) -> usize
    requires { (from + 4 * left ≤ length words.now) × Each (OnLane table.now.lanes) (segments_of left (drop from words.now)) }
    ensures { Put (route_text (lines_of table.now.names.now) slot (segments_of left (drop from words.now))) out.old at out.new result }
{
    let mut to = at;
    for i in 0..left {
        let s = words::segment_at(words, from + evaluate::Segment::WORDS * i);
        to = rows::put_row(out, to, table, slot, s);
    }
    to
}

fn put_routes(out: &mut [u8], table: &names::NameTable, words: &[u64], routes: usize) -> usize
    requires { Ready words.now routes table.now.lanes }
    ensures { Put (routes_text (lines_of table.now.names.now) 0 (routes_of routes (drop 2 words.now))) out.old 0 out.new result }
{
    let mut to = 0;
    let mut place: usize = 2;
    for slot in 0..routes {
        let left = words::count_at(words, place);
        to = put_route(out, to, table, slot as u64, words, place + 1, left);
        place = place + 1 + evaluate::Segment::WORDS * left;
    }
    to
}

// ---- writing

// 37, or the text, of an assignment that the check accepts.
#[tactic(auto, using(crate::proofs::Calls::text_steps))]
fn write_text(table: &names::NameTable, words: &[u64], out: &mut [u8]) -> Result<usize, BedRefusal>
    requires { (2 ≤ length words.now) × Ready words.now (get_or words.now 1 0) table.now.lanes }
    ensures { Replied (last_refusal (routes_text (lines_of table.now.names.now) 0 (routes_of (get_or words.now 1 0) (drop 2 words.now))) (length out.old)) (routes_text (lines_of table.now.names.now) 0 (routes_of (get_or words.now 1 0) (drop 2 words.now))) out.old out.new (answer_of result) }
{
    let routes = words[1] as usize;
    let n = text_length(table, words, routes);
    if out.len() < n {
        return Err(BedRefusal::Room);
    }
    Ok(put_routes(out, table, words, routes))
}

// The check's from 22 on, and 37.
#[tactic(auto, using(crate::proofs::Calls::named_steps))]
fn write_named(
    image: &[u8],
    h: image::Header,
    table: &names::NameTable,
    words: &[u64],
    out: &mut [u8],
) -> Result<usize, BedRefusal>
    requires { Accepted image.now h × (table.now.lanes ≡ h.lanes) }
    ensures { Replied (words_then_room (panel_of image.now) table.now.names.now words.now (length out.old)) (bed_text table.now.names.now words.now) out.old out.new (answer_of result) }
{
    assignment::check_given(image, h, words)?;
    write_text(table, words, out)
}

// 34, and the rest.
fn write_panel(
    image: &[u8],
    h: image::Header,
    names: &[u8],
    words: &[u64],
    out: &mut [u8],
) -> Result<usize, BedRefusal>
    requires { Accepted image.now h }
    ensures { Replied (at (table_refusal (panel_of image.now) names.now) 0 (words_then_room (panel_of image.now) names.now words.now (length out.old))) (bed_text names.now words.now) out.old out.new (answer_of result) }
{
    let mut starts = [0; 4098];
    let mut ends = [0; 4098];
    let mut heads = [0; 4096];
    let mut links = [0; 4096];
    match names::NameTable::read(
        names,
        &mut starts,
        &mut ends,
        &mut heads,
        &mut links,
        h.lanes,
    ) {
        Some(table) => write_named(image, h, &table, words, out),
        None => Err(BedRefusal::Table),
    }
}

// An assignment's words written as BED.
pub fn write_bed(image: &[u8], names: &[u8], words: &[u64], out: &mut [u8]) -> BedReply
    ensures value { result ≡ write_answer image.now names.now words.now (length out.old) }
    ensures out_after { out.new ≡ write_out image.now names.now words.now out.old }
    ensures write_holds { WriteHolds image.now names.now words.now result out.new }
{
    match graph::check_panel(image) {
        Ok(h) => reply(write_panel(image, h, names, words, out)),
        Err(e) => reply(Err(BedRefusal::Panel(e))),
    }
}

// ---- reading

// 25 to 30; where the lanes' lists begin is not kept for 31, which wants the stack.
fn check_routes(
    image: &[u8],
    h: image::Header,
    table: &names::NameTable,
    text: &[u8],
    f: image::Family,
) -> Result<(), routes::RefusedRoute>
    requires { Accepted image.now h × Groups image.now h f × (text_ok text.now ≡ true) × (length (routes_in (lines_of table.now.names.now) (lines_of text.now)) ≡ f.count) }
    ensures { refused_of result ≡ routes_refusal (panel_of image.now) 0 (paths_at (panel_of image.now) f.number) (routes_in (lines_of table.now.names.now) (lines_of text.now)) }
{
    let lane_starts = image::lane_starts(image, h);
    bed_routes::check_routes(image, h, &lane_starts, table, text, f)
}

// 25 to 31, of a text that has a route for each path of its family.
#[tactic(auto, using(crate::proofs::Reading::family_steps))]
fn check_family(
    image: &[u8],
    h: image::Header,
    table: &names::NameTable,
    text: &[u8],
    f: image::Family,
) -> Result<(), assignment::AssignmentRefusal>
    requires { Accepted image.now h × Groups image.now h f × (text_ok text.now ≡ true) × (length (routes_in (lines_of table.now.names.now) (lines_of text.now)) ≡ f.count) }
    ensures { refusal_of result ≡ family_refusal (panel_of image.now) (held_in table.now.names.now f.number text.now) }
{
    check_routes(image, h, table, text, f)?;
    if bed_overlap::are_apart(table, text) {
        Ok(())
    } else {
        Err(assignment::AssignmentRefusal::Overlap)
    }
}

// 23 to 31.
#[tactic(auto, using(crate::proofs::Reading::held_steps))]
fn check_held(
    image: &[u8],
    h: image::Header,
    table: &names::NameTable,
    family: u64,
    text: &[u8],
    routes: usize,
) -> Result<(), assignment::AssignmentRefusal>
    requires { Accepted image.now h × (text_ok text.now ≡ true) × (length (routes_in (lines_of table.now.names.now) (lines_of text.now)) ≡ routes) }
    ensures { refusal_of result ≡ assignment_refusal (panel_of image.now) (held_in table.now.names.now family text.now) }
{
    let number = family as usize;
    if h.families <= number {
        return Err(assignment::AssignmentRefusal::Family);
    }
    let f = assignment::family_of(image, h, number);
    if routes != f.count {
        return Err(assignment::AssignmentRefusal::Count);
    }
    check_family(image, h, table, text, f)
}

// The words that a text holds.
fn put_words(out: &mut [u64], table: &names::NameTable, family: u64, text: &[u8], routes: u64)
    requires { (text_ok text.now ≡ true) × (length (routes_in (lines_of table.now.names.now) (lines_of text.now)) ≡ routes) × (length (held (lines_of table.now.names.now) family text.now) ≤ length out.old) × (length (held (lines_of table.now.names.now) family text.now) ≤ 65536) × (routes ≤ 65536) }
    ensures { out.new ≡ over (held (lines_of table.now.names.now) family text.now) out.old }
{
    out[0] = family;
    out[1] = routes;
    texts::put_lines(out, table, text, routes);
}

// The check's from 22 on; the words, if there is none.
fn read_words(
    image: &[u8],
    h: image::Header,
    table: &names::NameTable,
    family: u64,
    text: &[u8],
    scan: texts::Scan,
    out: &mut [u64],
) -> Result<usize, BedRefusal>
    requires { Accepted image.now h × (text_ok text.now ≡ true) × Counted (lines_of table.now.names.now) text.now scan × (length (held (lines_of table.now.names.now) family text.now) ≤ length out.old) }
    ensures { Replied (given_refusal (panel_of image.now) (held (lines_of table.now.names.now) family text.now)) (held (lines_of table.now.names.now) family text.now) out.old out.new (answer_of result) }
{
    if !scan.fits(assignment::WORDS) {
        return Err(BedRefusal::Assignment(assignment::AssignmentRefusal::Words));
    }
    check_held(image, h, table, family, text, scan.routes)?;
    put_words(out, table, family, text, scan.routes as u64);
    Ok(2 + scan.routes + evaluate::Segment::WORDS * scan.lines)
}

// 35, 36, 37, and the rest.
#[tactic(auto, using(crate::proofs::Reading::text_steps))]
fn read_named(
    image: &[u8],
    h: image::Header,
    table: &names::NameTable,
    family: u64,
    text: &[u8],
    out: &mut [u64],
) -> Result<usize, BedRefusal>
    requires { Accepted image.now h }
    ensures { Replied (text_refusal (panel_of image.now) (lines_of table.now.names.now) family text.now (length out.old)) (held (lines_of table.now.names.now) family text.now) out.old out.new (answer_of result) }
{
    let scan = texts::scan_text(table, text)?;
    if !scan.fits(out.len()) {
        return Err(BedRefusal::Room);
    }
    read_words(image, h, table, family, text, scan, out)
}

// 34, and the rest.
fn read_panel(
    image: &[u8],
    h: image::Header,
    names: &[u8],
    family: u64,
    text: &[u8],
    out: &mut [u64],
) -> Result<usize, BedRefusal>
    requires { Accepted image.now h }
    ensures { Replied (at (table_refusal (panel_of image.now) names.now) 0 (text_refusal (panel_of image.now) (lines_of names.now) family text.now (length out.old))) (held (lines_of names.now) family text.now) out.old out.new (answer_of result) }
{
    let mut starts = [0; 4098];
    let mut ends = [0; 4098];
    let mut heads = [0; 4096];
    let mut links = [0; 4096];
    match names::NameTable::read(
        names,
        &mut starts,
        &mut ends,
        &mut heads,
        &mut links,
        h.lanes,
    ) {
        Some(table) => read_named(image, h, &table, family, text, out),
        None => Err(BedRefusal::Table),
    }
}

// Lines of BED read back into the words that they hold, the family given beside them.
pub fn read_bed(image: &[u8], names: &[u8], family: u64, text: &[u8], out: &mut [u64]) -> BedReply
    ensures value { result ≡ read_answer image.now names.now family text.now (length out.old) }
    ensures out_after { out.new ≡ read_out image.now names.now family text.now out.old }
    ensures read_holds { ReadHolds image.now names.now text.now result out.new }
{
    match graph::check_panel(image) {
        Ok(h) => reply(read_panel(image, h, names, family, text, out)),
        Err(e) => reply(Err(BedRefusal::Panel(e))),
    }
}
