// The header of a panel image, and its lists read at byte offsets.
#![tactic(auto)]

ghost use Rattle.std.specs.Prelude.{◌≡◌, ◌+◌, ◌*◌, ◌≤◌, ◌<◌, length, drop, take, get_or};
ghost use Rattle.ground.specs.Lists.{sum, each};
ghost use Rattle.storage.specs.Orders.{record_lt, same_port, place_lt, place_before};
ghost use Rattle.storage.specs.Bytes.{number};
ghost use Rattle.image.specs.Header.{header_of, sound2, sound3, opened, refusal_number, Bounds};
ghost use Rattle.image.specs.Image.{entry_of, entries, counts, ports_of, hub, no_entry, paths, path_counts, paths_of};
ghost use Rattle.image.specs.Inner.{Framed, Counted, Started, Stands, Grouped, Groups};
ghost use Rattle.storage.specs.Records.{port_of, no_port, record_size};

#[derive(Clone, Copy, PartialEq, Eq, Debug)]
pub struct Header {
    pub k: usize,
    pub lanes: usize,
    pub families: usize,
    pub paths: usize,
    pub ports: usize,
    pub lanes_at: usize,
    pub families_at: usize,
    pub paths_at: usize,
    pub lane_ports_at: usize,
    pub hub_at: usize,
}

impl Header {
    // The bytes of the header, of a word, of a lane entry.
    pub const SIZE: usize = 80;

    pub const WORD: usize = 8;

    pub const ENTRY: usize = 24;
    // The bounds of its counts: letters of a word, lanes, families, paths a family, ports.
    pub const LETTERS: usize = 32;

    pub const LANES: usize = 4096;

    pub const FAMILIES: usize = 4096;

    pub const PATHS: usize = 64;

    pub const PORTS: usize = 4194304;
    // The bound of a lane's length.
    pub const LENGTH: usize = 4294967295;
}

// Why an image is no panel, in the order in which it is looked at: 01's refusals 1 to 8.
#[derive(Clone, Copy, PartialEq, Eq, Debug)]
pub enum PanelRefusal {
    Short,
    Counts,
    Layout,
    Lanes,
    Families,
    Records,
    Order,
    Listing,
}

impl PanelRefusal {
    // The number of the refusal.
    pub fn number(self) -> u64
        ensures { result ≡ refusal_number self }
    {
        match self {
            PanelRefusal::Short => 1,
            PanelRefusal::Counts => 2,
            PanelRefusal::Layout => 3,
            PanelRefusal::Lanes => 4,
            PanelRefusal::Families => 5,
            PanelRefusal::Records => 6,
            PanelRefusal::Order => 7,
            PanelRefusal::Listing => 8,
        }
    }
}

// The ten words that an image of 80 bytes or more begins with.
pub fn header_of(image: &[u8]) -> Header
    requires { 80 ≤ length image.now }
    ensures { result ≡ header_of image.now }
{
    let k = storage::word_at(image, 0) as usize;
    let lanes = storage::word_at(image, 8) as usize;
    let families = storage::word_at(image, 16) as usize;
    let paths = storage::word_at(image, 24) as usize;
    let ports = storage::word_at(image, 32) as usize;
    let lanes_at = storage::word_at(image, 40) as usize;
    let families_at = storage::word_at(image, 48) as usize;
    let paths_at = storage::word_at(image, 56) as usize;
    let lane_ports_at = storage::word_at(image, 64) as usize;
    let hub_at = storage::word_at(image, 72) as usize;
    Header {
        k,
        lanes,
        families,
        paths,
        ports,
        lanes_at,
        families_at,
        paths_at,
        lane_ports_at,
        hub_at,
    }
}

// Refusal 2. (T is held against F last, so that no product wraps.)
#[tactic(auto, unfolding(crate::specs::Header::sound2))]
fn in_bounds(h: Header) -> bool
    ensures { result ≡ sound2 h }
{
    h.families <= Header::FAMILIES
        && (1..=Header::LETTERS).contains(&h.k)
        && (1..=Header::LANES).contains(&h.lanes)
        && h.ports <= Header::PORTS
        && h.paths <= Header::PATHS * h.families
}

// Refusal 3.
#[tactic(auto, unfolding(crate::specs::Header::sound3))]
fn is_packed(h: Header, len: usize) -> bool
    requires { Bounds h }
    ensures { result ≡ sound3 h len }
{
    let families_at = Header::SIZE + Header::ENTRY * h.lanes;
    let paths_at = families_at + Header::WORD * h.families;
    let lane_ports_at = paths_at + Header::WORD * h.paths;
    let width = h.k + storage::Port::EXCESS;
    let hub_at = lane_ports_at + h.ports * width;
    let end = hub_at + h.ports * width;
    h.lanes_at == Header::SIZE
        && h.families_at == families_at
        && h.paths_at == paths_at
        && h.lane_ports_at == lane_ports_at
        && h.hub_at == hub_at
        && len == end
}

// The header of an image, or its refusal 1, 2 or 3.
pub fn open(image: &[u8]) -> Result<Header, PanelRefusal>
    ensures { result ≡ opened image.now }
{
    let len = image.len();
    if len < Header::SIZE {
        return Err(PanelRefusal::Short);
    }
    let h = header_of(image);
    if !in_bounds(h) {
        return Err(PanelRefusal::Counts);
    }
    if !is_packed(h, len) {
        return Err(PanelRefusal::Layout);
    }
    Ok(h)
}

#[derive(Clone, Copy, PartialEq, Eq, Debug)]
pub struct Entry {
    pub len: u64,
    pub count: usize,
    pub identity: u64,
}

// A lane, and where its list stands among the lane ports.
#[derive(Clone, Copy, PartialEq, Eq, Debug)]
pub struct Lane {
    pub number: usize,
    pub len: u64,
    pub identity: u64,
    pub start: usize,
    pub count: usize,
}

fn entry_at(image: &[u8], at: usize) -> Entry
    requires { at + 24 ≤ length image.now }
    ensures { result ≡ entry_of (drop at image.now) }
{
    let len = storage::word_at(image, at);
    let count = storage::word_at(image, at + 8) as usize;
    let identity = storage::word_at(image, at + 16);
    Entry {
        len,
        count,
        identity,
    }
}

pub fn lane_entry(image: &[u8], h: Header, lane: usize) -> Entry
    requires { Framed image.now h × (lane < h.lanes) }
    ensures { result ≡ get_or (entries h image.now) lane no_entry }
{
    entry_at(image, h.lanes_at + lane * Header::ENTRY)
}

// Whether record i of the global list stands before the next one.
pub fn is_hub_port_below(image: &[u8], h: Header, i: usize) -> bool
    requires { Framed image.now h × (i + 1 < h.ports) }
    ensures { result ≡ record_lt (get_or (hub h image.now) i no_port) (get_or (hub h image.now) (i + 1) no_port) }
{
    storage::is_record_before_next(image, h.hub_at, h.ports, h.k, i)
}

// Word i of a list of n that stands from base on.
fn number_at(image: &[u8], base: usize, n: usize, i: usize) -> usize
    requires { (base + n * 8 ≤ length image.now) × (i < n) }
    ensures { result ≡ get_or (each number 8 n (drop base image.now)) i 0 }
{
    storage::word_at(image, base + i * Header::WORD) as usize
}

// How many paths a family has.
pub fn path_count(image: &[u8], h: Header, family: usize) -> usize
    requires { Framed image.now h × (family < h.families) }
    ensures { result ≡ get_or (path_counts h image.now) family 0 }
{
    number_at(image, h.families_at, h.families, family)
}

// Path entry i of all.
pub fn path_at(image: &[u8], h: Header, i: usize) -> usize
    requires { Framed image.now h × (i < h.paths) }
    ensures { result ≡ get_or (paths h image.now) i 0 }
{
    number_at(image, h.paths_at, h.paths, i)
}

// How many ports a lane has.
pub fn lane_count(image: &[u8], h: Header, lane: usize) -> usize
    requires { Framed image.now h × (lane < h.lanes) }
    ensures { result ≡ get_or (counts h image.now) lane 0 }
{
    lane_entry(image, h, lane).count
}

// Where each lane's list begins among the lane ports.
pub fn lane_starts(image: &[u8], h: Header) -> [usize; Header::LANES]
    requires { Counted image.now h }
    ensures { Started image.now h result }
{
    let mut starts = [0usize; Header::LANES];
    let mut at = 0;
    for lane in 0..h.lanes {
        starts[lane] = at;
        at += lane_count(image, h, lane);
    }
    starts
}

// A lane by its number.
pub fn lane_of(image: &[u8], h: Header, starts: &[usize; Header::LANES], number: usize) -> Lane
    requires { Started image.now h starts.now × (number < h.lanes) }
    ensures { Stands image.now h result × (result.number ≡ number) }
{
    let e = lane_entry(image, h, number);
    let start = starts[number];
    Lane {
        number,
        len: e.len,
        identity: e.identity,
        start,
        count: e.count,
    }
}

// Record i of a lane's list.
pub fn lane_port(image: &[u8], h: Header, l: Lane, i: usize) -> storage::Port
    requires { Stands image.now h l × (i < l.count) }
    ensures { result ≡ get_or (ports_of h image.now l.number) i no_port }
{
    storage::record_at(image, h.lane_ports_at, h.ports, h.k, l.start + i)
}

// Whether record i of a lane's list stands before the next one.
pub fn is_lane_port_below(image: &[u8], h: Header, l: Lane, i: usize) -> bool
    requires { Stands image.now h l × (i + 1 < l.count) }
    ensures { result ≡ place_lt (get_or (ports_of h image.now l.number) i no_port) (get_or (ports_of h image.now l.number) (i + 1) no_port) }
{
    storage::is_place_before_next(image, h.lane_ports_at, h.ports, h.k, l.start + i)
}

// Whether the record at a byte offset is record i of a lane's list.
pub fn is_lane_port(image: &[u8], h: Header, l: Lane, i: usize, at: usize) -> bool
    requires { Stands image.now h l × (i < l.count) × (at + record_size h.k ≤ length image.now) }
    ensures { result ≡ same_port (port_of h.k (drop at image.now)) (get_or (ports_of h image.now l.number) i no_port) }
{
    let there = storage::offset(image, h.lane_ports_at, h.ports, h.k, l.start + i);
    storage::is_same_at(image, at, there, h.k)
}

// Whether record i of a lane's list stands before a place.
pub fn is_lane_port_before(
    image: &[u8],
    h: Header,
    l: Lane,
    i: usize,
    anchor: u64,
    reverse: bool,
) -> bool
    requires { Stands image.now h l × (i < l.count) }
    ensures { result ≡ place_before anchor reverse (get_or (ports_of h image.now l.number) i no_port) }
{
    storage::is_before(
        image,
        h.lane_ports_at,
        h.ports,
        h.k,
        l.start + i,
        anchor,
        reverse,
    )
}

// The anchor of record i of a lane's list.
pub fn lane_anchor(image: &[u8], h: Header, l: Lane, i: usize) -> u64
    requires { Stands image.now h l × (i < l.count) }
    ensures { result ≡ (get_or (ports_of h image.now l.number) i no_port).anchor }
{
    storage::anchor_of(image, h.lane_ports_at, h.ports, h.k, l.start + i)
}

// The lane that record i of a lane's list names.
pub fn lane_source(image: &[u8], h: Header, l: Lane, i: usize) -> u64
    requires { Stands image.now h l × (i < l.count) }
    ensures { result ≡ (get_or (ports_of h image.now l.number) i no_port).source }
{
    storage::source_of(image, h.lane_ports_at, h.ports, h.k, l.start + i)
}

// A family, and where its paths stand among the path entries.
#[derive(Clone, Copy, PartialEq, Eq, Debug)]
pub struct Family {
    pub number: usize,
    pub start: usize,
    pub count: usize,
}

// The family of this number, whose paths begin here.
pub fn family_from(image: &[u8], h: Header, number: usize, start: usize) -> Family
    requires { Grouped image.now h × (number < h.families) × (start ≡ sum (take number (path_counts h image.now))) }
    ensures { Groups image.now h result × (result.number ≡ number) }
{
    let count = path_count(image, h, number);
    Family {
        number,
        start,
        count,
    }
}

// Where the next family's paths begin.
pub fn family_end(image: &[u8], h: Header, f: Family) -> usize
    requires { Groups image.now h f }
    ensures { result ≡ sum (take (f.number + 1) (path_counts h image.now)) }
{
    f.start + f.count
}

// Path i of a family.
pub fn family_path(image: &[u8], h: Header, f: Family, i: usize) -> usize
    requires { Groups image.now h f × (i < f.count) }
    ensures { result ≡ get_or (paths_of h image.now f.number) i 0 }
{
    path_at(image, h, f.start + i)
}
