// The panel check: refusals 4 and 6 to 8.
#![tactic(auto)]

ghost use Rattle.std.specs.Prelude.{◌≡◌, ◌+◌, ◌≤◌, ◌<◌, true, ◌&&◌, ltb, eqb, length, drop, take, get_or};
ghost use Rattle.ground.specs.Lists.{sum, all, count};
ghost use Rattle.storage.specs.Records.{port_of, no_port, record_size};
ghost use Rattle.storage.specs.Orders.{place_before, same_port};
ghost use Rattle.storage.specs.Inner.{Records};
ghost use Rattle.image.specs.Sizes.{most_ports};
ghost use Rattle.image.specs.Image.{entries, counts, ports_of};
ghost use Rattle.image.specs.Inner.{Framed, Started, Stands};
ghost use Rattle.panel.specs.Refusals.{length_ok, sound4, letter, sound_place, sound_record, sound_records, own_row, own_rows, sound6, lane_rising, lanes_rising, hub_rising, sound7, listed, sound8};
ghost use Rattle.panel.specs.Inner.{Ordered};

// ---- 4

fn are_lengths(image: &[u8], h: image::Header) -> bool
    requires { Framed image.now h }
    ensures { result ≡ all length_ok (entries h image.now) }
{
    (0..h.lanes).all(|lane| {
        let len = image::lane_entry(image, h, lane).len as usize;
        (1..=image::Header::LENGTH).contains(&len)
    })
}

fn is_total(image: &[u8], h: image::Header) -> bool
    requires { Framed image.now h }
    ensures { result ≡ eqb (sum (counts h image.now)) h.ports }
{
    ground::adds_up(h.lanes, h.ports, |lane| image::lane_count(image, h, lane))
}

#[tactic(auto, unfolding(crate::specs::Refusals::sound4))]
pub fn is_counted(image: &[u8], h: image::Header) -> bool
    requires { Framed image.now h }
    ensures { result ≡ sound4 h image.now }
{
    are_lengths(image, h) && is_total(image, h)
}

// ---- 6

#[tactic(auto, using(crate::proofs::Laws::letter_else), unfolding(crate::specs::Refusals::letter))]
fn is_letter(b: u8) -> bool
    ensures { result ≡ letter b }
{
    matches!(b, b'A' | b'C' | b'G' | b'T')
}

// All of them are read: without a way out in between, many are tested at once.
pub fn are_letters(image: &[u8], at: usize, k: usize) -> bool
    requires { at + k ≤ length image.now }
    ensures { result ≡ all letter (take k (drop at image.now)) }
{
    let mut good = true;
    for b in &image[at..at + k] {
        good &= is_letter(*b);
    }
    good
}

// Whether a record names a lane and ends in it; no sum that could wrap.
fn is_place(image: &[u8], h: image::Header, source: u64, anchor: u64) -> bool
    requires { Framed image.now h }
    ensures { result ≡ sound_place h image.now source anchor }
{
    let lane = source as usize;
    if h.lanes <= lane {
        return false;
    }
    let len = image::lane_entry(image, h, lane).len;
    match len.checked_sub(h.k as u64) {
        Some(last) => anchor <= last,
        None => false,
    }
}

#[tactic(auto, using(crate::proofs::Laws::turned_at), unfolding(crate::specs::Refusals::sound_record))]
fn is_record(image: &[u8], h: image::Header, at: usize) -> bool
    requires { Framed image.now h × (at + record_size h.k ≤ length image.now) }
    ensures { result ≡ sound_record h image.now (drop at image.now) }
{
    let k = h.k;
    let letters = are_letters(image, at, k);
    let turned = image[at + k + 16] <= 1;
    let source = storage::source_at(image, at, k);
    let anchor = storage::anchor_at(image, at, k);
    letters && turned && is_place(image, h, source, anchor)
}

// Whether the N records from base on are sound.
fn are_records(image: &[u8], h: image::Header, base: usize) -> bool
    requires { Framed image.now h × Records image.now base h.ports h.k }
    ensures { result ≡ sound_records h image.now base }
{
    (0..h.ports).all(|i| is_record(image, h, storage::offset(image, base, h.ports, h.k, i)))
}

fn is_own(image: &[u8], h: image::Header, l: image::Lane) -> bool
    requires { Stands image.now h l }
    ensures { result ≡ own_row h image.now l.number }
{
    (0..l.count).all(|i| image::lane_source(image, h, l, i) as usize == l.number)
}

fn are_own(image: &[u8], h: image::Header, starts: &[usize; image::Header::LANES]) -> bool
    requires { Started image.now h starts.now }
    ensures { result ≡ own_rows h image.now }
{
    (0..h.lanes).all(|lane| is_own(image, h, image::lane_of(image, h, starts, lane)))
}

#[tactic(auto, unfolding(crate::specs::Refusals::sound6))]
pub fn are_sound(image: &[u8], h: image::Header, starts: &[usize; image::Header::LANES]) -> bool
    requires { Started image.now h starts.now }
    ensures { result ≡ sound6 h image.now }
{
    are_records(image, h, h.lane_ports_at)
        && are_records(image, h, h.hub_at)
        && are_own(image, h, starts)
}

// ---- 7

fn is_hub_rising(image: &[u8], h: image::Header) -> bool
    requires { Framed image.now h }
    ensures { result ≡ hub_rising h image.now }
{
    (0..h.ports.saturating_sub(1)).all(|i| image::is_hub_port_below(image, h, i))
}

fn is_lane_rising(image: &[u8], h: image::Header, l: image::Lane) -> bool
    requires { Stands image.now h l }
    ensures { result ≡ lane_rising (ports_of h image.now l.number) }
{
    (0..l.count.saturating_sub(1)).all(|i| image::is_lane_port_below(image, h, l, i))
}

fn are_lanes_rising(image: &[u8], h: image::Header, starts: &[usize; image::Header::LANES]) -> bool
    requires { Started image.now h starts.now }
    ensures { result ≡ lanes_rising h image.now }
{
    (0..h.lanes).all(|lane| is_lane_rising(image, h, image::lane_of(image, h, starts, lane)))
}

#[tactic(auto, unfolding(crate::specs::Refusals::sound7))]
pub fn are_rising(image: &[u8], h: image::Header, starts: &[usize; image::Header::LANES]) -> bool
    requires { Started image.now h starts.now }
    ensures { result ≡ sound7 h image.now }
{
    are_lanes_rising(image, h, starts) && is_hub_rising(image, h)
}

// ---- 8

// Where a place would stand in a lane's list if the ports stood evenly on the lane.
fn evenly(l: image::Lane, anchor: u64) -> usize
    requires { l.count ≤ most_ports }
{
    let len = l.len as usize;
    let at = anchor as usize;
    if image::Header::LENGTH < len {
        return 0;
    }
    if at < len {
        at * l.count / len
    } else {
        l.count
    }
}

// Where to look next between lo and hi: near a place, and from there by steps of at most half of what is left.
fn probe(lo: usize, hi: usize, near: usize, step: usize) -> usize
    requires { lo < hi }
    ensures { (lo ≤ result) × (result < hi) }
{
    let far = step.min((hi - lo) / 2);
    if near < lo {
        lo + far
    } else if near < hi {
        near
    } else {
        hi - 1 - far
    }
}

// How many ports of a lane stand before a place of its list: a search from where it would stand evenly, by growing steps, then by halves.
pub fn places_before(
    image: &[u8],
    h: image::Header,
    l: image::Lane,
    anchor: u64,
    reverse: bool,
) -> usize
    requires { Stands image.now h l × (lane_rising (ports_of h image.now l.number) ≡ true) }
    ensures { result ≡ count (place_before anchor reverse) (ports_of h image.now l.number) }
{
    let near = evenly(l, anchor);
    let mut step: usize = 0;
    let mut lo = 0;
    let mut hi = l.count;
    while lo < hi {
        let at = probe(lo, hi, near, step);
        step = step.saturating_mul(2).saturating_add(1);
        if image::is_lane_port_before(image, h, l, at, anchor, reverse) {
            lo = at + 1;
        } else {
            hi = at;
        }
    }
    lo
}

// Whether a lane's list has a record i and it is the one at a byte offset.
fn is_lane_port_here(image: &[u8], h: image::Header, l: image::Lane, i: usize, at: usize) -> bool
    requires { Stands image.now h l × (at + record_size h.k ≤ length image.now) }
    ensures { result ≡ (ltb i l.count && same_port (port_of h.k (drop at image.now)) (get_or (ports_of h image.now l.number) i no_port)) }
{
    i < l.count && image::is_lane_port(image, h, l, i, at)
}

// Whether the global record at a byte offset is in its lane's list: where it would stand evenly, or else where a search finds its place.
fn is_listed(
    image: &[u8],
    h: image::Header,
    starts: &[usize; image::Header::LANES],
    at: usize,
) -> bool
    requires { Started image.now h starts.now × (lanes_rising h image.now ≡ true) × (at + record_size h.k ≤ length image.now) × ((port_of h.k (drop at image.now)).source < h.lanes) }
    ensures { result ≡ listed h image.now (port_of h.k (drop at image.now)) }
{
    let k = h.k;
    let source = storage::source_at(image, at, k);
    let anchor = storage::anchor_at(image, at, k);
    let reverse = storage::reverse_at(image, at, k);
    let l = image::lane_of(image, h, starts, source as usize);
    let near = evenly(l, anchor);
    is_lane_port_here(image, h, l, near, at)
        || is_lane_port_here(image, h, l, places_before(image, h, l, anchor, reverse), at)
}

pub fn are_listed(image: &[u8], h: image::Header, starts: &[usize; image::Header::LANES]) -> bool
    requires { Ordered image.now h × Started image.now h starts.now }
    ensures { result ≡ sound8 h image.now }
{
    (0..h.ports).all(|i| {
        let at = storage::offset(image, h.hub_at, h.ports, h.k, i);
        is_listed(image, h, starts, at)
    })
}
