// The words of an assignment, written from the frames of a path.
#![tactic(auto)]

ghost use Rattle.std.specs.Prelude.{◌≡◌, ◌+◌, ◌*◌, ◌≤◌, ◌<◌, [], ◌∷◌, length, get_or};
ghost use Rattle.std.proofs.lemmas.List.Edits.{sets};
ghost use Rattle.image.specs.Inner.{Groups};
ghost use Rattle.image.specs.Panel.{panel_of, paths_at};
ghost use Rattle.panel.specs.Inner.{Accepted};
ghost use Rattle.evaluate.specs.Segments.{whole, native_of};
ghost use Rattle.evaluate.specs.Words.{route_words, encode};
ghost use Rattle.search.specs.Rooms.{frame_width};
ghost use Rattle.walks.specs.Inner.{assigned};
ghost use Rattle.writer.specs.Inner.{whole_put, begun, Roomy, Added, Opened, Pieced, Written};

use evaluate::Segment;

// Where the words written so far end, where the count of the route in hand stands, that count, and how many routes there are.
#[derive(Clone, Copy, PartialEq, Eq, Debug)]
pub struct Pen {
    pub head: usize,
    pub at: usize,
    pub count: u64,
    pub routes: u64,
}

// An assignment's words begin: its first route is empty.
#[tactic(auto, unfolding(crate::specs::Inner::begun))]
fn begin_words(slot: &mut [u64], family: u64) -> Pen
    requires { 3 ≤ length slot.old }
    ensures { (slot.new ≡ begun slot.old family) × (result ≡ record { head = 2; at = 3; count = 0; routes = 1 }) }
{
    slot[0] = family;
    slot[1] = 1;
    slot[2] = 0;
    Pen {
        head: 2,
        at: 3,
        count: 0,
        routes: 1,
    }
}

// One segment more in the route in hand.
#[tactic(auto, unfolding(crate::specs::Inner::segment_put))]
fn add_segment(slot: &mut [u64], p: Pen, s: Segment) -> Pen
    requires { Roomy slot.old p 4 }
    ensures { Added slot.old slot.new p s result }
{
    let count = p.count + 1;
    words::put_segment(slot, p.at, s);
    slot[p.head] = count;
    Pen {
        at: p.at + Segment::WORDS,
        count,
        ..p
    }
}

// The next route begins.
fn add_route(slot: &mut [u64], p: Pen) -> Pen
    requires { Roomy slot.old p 1 }
    ensures { Opened slot.old slot.new p result }
{
    let routes = p.routes + 1;
    slot[p.at] = 0;
    slot[1] = routes;
    Pen {
        head: p.at,
        at: p.at + 1,
        count: 0,
        routes,
    }
}

// The piece from frame i to the next, which closes the route where the slot changes.
fn add_piece(slot: &mut [u64], p: Pen, frames: &[u64], i: usize) -> Pen
    requires { Roomy slot.old p 5 × ((i + 2) * frame_width ≤ length frames.now) }
    ensures { Pieced frames.now i slot.old slot.new p result }
{
    let s = frames::piece_at(frames, i);
    let q = add_segment(slot, p, s);
    let below = frames::frame_at(frames, i);
    let above = frames::frame_at(frames, i + 1);
    if below.slot == above.slot {
        q
    } else {
        add_route(slot, q)
    }
}

// The words of the assignment that the path to frame top and a closing piece complete; how many they are.
pub fn put_path(slot: &mut [u64], frames: &[u64], top: usize, family: u64, s: Segment) -> usize
    requires { ((top + 1) * frame_width ≤ length frames.now) × (length (encode (assigned family frames.now top s)) ≤ length slot.old) }
    ensures { Written (encode (assigned family frames.now top s)) slot.old slot.new result }
{
    let mut p = begin_words(slot, family);
    for i in 0..top {
        p = add_piece(slot, p, frames, i);
    }
    add_segment(slot, p, s).at
}

// ---- a family's native assignment

// One route: a lane whole.
#[tactic(auto, unfolding(crate::specs::Inner::whole_put))]
fn put_whole(slot: &mut [u64], at: usize, lane: u64, len: u64)
    requires { at + 5 ≤ length slot.old }
    ensures { slot.new ≡ whole_put slot.old at lane len }
{
    slot[at] = 1;
    let s = Segment {
        source: lane,
        start: 0,
        end: len,
        reverse: false,
    };
    words::put_segment(slot, at + 1, s);
}

fn put_path_whole(
    slot: &mut [u64],
    at: usize,
    image: &[u8],
    h: image::Header,
    family: image::Family,
    i: usize,
)
    requires { Accepted image.now h × Groups image.now h family × (i < family.count) × (at + 5 ≤ length slot.old) }
    ensures { slot.new ≡ sets slot.old at (route_words (whole (panel_of image.now) (get_or (paths_at (panel_of image.now) family.number) i 0) ∷ [])) }
{
    let lane = image::family_path(image, h, family, i);
    let e = image::lane_entry(image, h, lane);
    put_whole(slot, at, lane as u64, e.len);
}

// The words of a family's native assignment; how many they are.
pub fn put_native(slot: &mut [u64], image: &[u8], h: image::Header, family: image::Family) -> usize
    requires { Accepted image.now h × Groups image.now h family × (2 + 5 * family.count ≤ length slot.old) }
    ensures { Written (encode (native_of (panel_of image.now) family.number)) slot.old slot.new result }
{
    let n = family.count;
    slot[0] = family.number as u64;
    slot[1] = n as u64;
    for i in 0..n {
        put_path_whole(slot, 2 + 5 * i, image, h, family, i);
    }
    2 + 5 * n
}
