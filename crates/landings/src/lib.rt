// What a unit of the walk reads of port records, each in its own place: where a port lands, the first port past a cut, a port's bucket.
#![tactic(auto)]

ghost use Rattle.std.specs.Prelude.{◌≡◌, ◌+◌, ◌≤◌, ◌<◌, length, drop, get_or, replicate};
ghost use Rattle.ground.specs.Lists.{count};
ghost use Rattle.storage.specs.Records.{port_of, record_size, no_port};
ghost use Rattle.storage.specs.Orders.{bucket_of};
ghost use Rattle.image.specs.Image.{ports_of, hub};
ghost use Rattle.image.specs.Inner.{Stands};
ghost use Rattle.image.specs.Panel.{panel_of};
ghost use Rattle.panel.specs.Inner.{Accepted};
ghost use Rattle.landings.specs.Inner.{landing_of, reached, Here, memo_words, Known};

// Where a port lands: its lane, cut and orientation.
#[derive(Clone, Copy, PartialEq, Eq, Debug)]
pub struct Landing {
    pub source: u64,
    pub cut: u64,
    pub reverse: bool,
}

// Where record i of a lane's list begins.
fn lane_offset(image: &[u8], h: image::Header, l: image::Lane, i: usize) -> usize
    requires { Accepted image.now h × Stands image.now h l × (i < l.count) }
    ensures { Here image.now h.k (get_or (ports_of h image.now l.number) i no_port) result }
{
    storage::offset(image, h.lane_ports_at, h.ports, h.k, l.start + i)
}

// Where record i of the global list begins.
fn hub_offset(image: &[u8], h: image::Header, i: usize) -> usize
    requires { Accepted image.now h × (i < h.ports) }
    ensures { Here image.now h.k (get_or (hub h image.now) i no_port) result }
{
    storage::offset(image, h.hub_at, h.ports, h.k, i)
}

fn landing_at(image: &[u8], at: usize, k: usize) -> Landing
    requires { (at + record_size k ≤ length image.now) × ((port_of k (drop at image.now)).anchor + k ≤ 4294967295) }
    ensures { result ≡ landing_of k (port_of k (drop at image.now)) }
{
    let reverse = image[at + k + 16] == 1;
    Landing {
        source: storage::source_at(image, at, k),
        cut: storage::anchor_at(image, at, k) + storage::cut_offset(k, reverse),
        reverse,
    }
}

// Where record i of a lane's list lands.
#[tactic(auto, using(crate::proofs::Laws::landing_here))]
pub fn lane_landing(image: &[u8], h: image::Header, l: image::Lane, i: usize) -> Landing
    requires { Accepted image.now h × Stands image.now h l × (i < l.count) }
    ensures { result ≡ landing_of h.k (get_or (ports_of h image.now l.number) i no_port) }
{
    landing_at(image, lane_offset(image, h, l, i), h.k)
}

// Where record i of the global list lands.
#[tactic(auto, using(crate::proofs::Laws::landing_here))]
pub fn hub_landing(image: &[u8], h: image::Header, i: usize) -> Landing
    requires { Accepted image.now h × (i < h.ports) }
    ensures { result ≡ landing_of h.k (get_or (hub h image.now) i no_port) }
{
    landing_at(image, hub_offset(image, h, i), h.k)
}

// ---- the first port past a cut

// Whether record i of a lane's list lies before a cut, or (forward) at it, by this orientation.
#[tactic(auto, unfolding(crate::specs::Inner::reached))]
fn is_reached(
    image: &[u8],
    h: image::Header,
    l: image::Lane,
    cut: u64,
    reverse: bool,
    i: usize,
) -> bool
    requires { Accepted image.now h × Stands image.now h l × (i < l.count) }
    ensures { result ≡ reached h.k reverse cut (get_or (ports_of h image.now l.number) i no_port) }
{
    let at = image::lane_anchor(image, h, l, i) + storage::cut_offset(h.k, reverse);
    if reverse { at < cut } else { at <= cut }
}

// How many ports of a lane do.
pub fn ports_reached(
    image: &[u8],
    h: image::Header,
    l: image::Lane,
    cut: u64,
    reverse: bool,
) -> usize
    requires { Accepted image.now h × Stands image.now h l }
    ensures { result ≡ count (reached h.k reverse cut) (ports_of h image.now l.number) }
{
    ground::partition_point(0, l.count, |i| is_reached(image, h, l, cut, reverse, i))
}

// ---- a port's bucket

// A memo of buckets: SEATS times three words, a lane port's number and 1, and where its bucket begins and ends. A port's seat goes by its
// number; a later port takes the seat.
pub const SEATS: usize = 4096;

pub const MEMO: usize = 3 * SEATS;

pub fn no_memo() -> [usize; MEMO]
    ensures { result ≡ replicate memo_words 0 }
{
    [0usize; MEMO]
}

// The global records with the word of record i of a lane's list: the word is lent from its own place.
fn sought_bucket(image: &[u8], h: image::Header, l: image::Lane, i: usize) -> storage::Members
    requires { Accepted image.now h × Stands image.now h l × (i < l.count) }
    ensures { result ≡ bucket_of (get_or (ports_of h image.now l.number) i no_port).word (panel_of image.now).hub }
{
    let at = lane_offset(image, h, l, i);
    graph::panel_bucket(image, h, &image[at..at + h.k])
}

// The same by way of the memo: a bucket that was found before is not sought again.
pub fn port_bucket(
    image: &[u8],
    h: image::Header,
    memo: &mut [usize; MEMO],
    l: image::Lane,
    i: usize,
) -> storage::Members
    requires { Accepted image.now h × Stands image.now h l × (i < l.count) × Known image.now h memo.old }
    ensures value { result ≡ bucket_of (get_or (ports_of h image.now l.number) i no_port).word (panel_of image.now).hub }
    ensures known { Known image.now h memo.new }
{
    let port = l.start + i;
    let seat = 3 * (port % SEATS);
    if memo[seat] == port + 1 {
        return storage::Members {
            lo: memo[seat + 1],
            hi: memo[seat + 2],
        };
    }
    let m = sought_bucket(image, h, l, i);
    memo[seat] = port + 1;
    memo[seat + 1] = m.lo;
    memo[seat + 2] = m.hi;
    m
}
