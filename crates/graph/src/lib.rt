// The panel check whole, the port at a cut and the hub bucket.
#![tactic(auto)]

ghost use Rattle.std.specs.Prelude.{◌≡◌, length};
ghost use Rattle.storage.specs.Records.{padded};
ghost use Rattle.storage.specs.Orders.{bucket_of};
ghost use Rattle.image.specs.Inner.{Framed, Counted, Stands};
ghost use Rattle.image.specs.Panel.{panel_of};
ghost use Rattle.panel.specs.Inner.{Accepted};
ghost use Rattle.graph.specs.Check.{later, ports_checked, checked};
ghost use Rattle.graph.specs.Lookups.{found, ports_at, port_refusal, port_in, port_answer, bucket_refusal, bucket_answer};
ghost use Rattle.graph.specs.declared.PortRefusal.TheVariants.{Unsound};
ghost use Rattle.graph.specs.declared.BucketRefusal.TheVariants.{BadPanel};

use image::{Header, Lane, PanelRefusal};
use storage::{Members, Port};

// ---- the panel check

fn check_ports(image: &[u8], h: Header) -> Result<Header, PanelRefusal>
    requires { Counted image.now h }
    ensures { result ≡ ports_checked h image.now }
{
    let starts = image::lane_starts(image, h);
    if !panel::are_sound(image, h, &starts) {
        return Err(PanelRefusal::Records);
    }
    if !panel::are_rising(image, h, &starts) {
        return Err(PanelRefusal::Order);
    }
    if !panel::are_listed(image, h, &starts) {
        return Err(PanelRefusal::Listing);
    }
    Ok(h)
}

fn check_lists(image: &[u8], h: Header) -> Result<Header, PanelRefusal>
    requires { Framed image.now h }
    ensures { result ≡ later h image.now }
{
    if !panel::is_counted(image, h) {
        return Err(PanelRefusal::Lanes);
    }
    if !families::is_familied(image, h) {
        return Err(PanelRefusal::Families);
    }
    check_ports(image, h)
}

// The header of an accepted panel, or its refusal.
pub fn check_panel(image: &[u8]) -> Result<Header, PanelRefusal>
    ensures { result ≡ checked image.now }
{
    let h = image::open(image)?;
    check_lists(image, h)
}

// ---- the port at a cut

// Why no port is looked for: 1 to 8, and 9.
#[derive(Clone, Copy, PartialEq, Eq, Debug)]
pub enum PortRefusal {
    Unsound(PanelRefusal),
    NoLane,
}

impl PortRefusal {
    // The number of the refusal.
    pub fn number(self) -> u64
        ensures { result ≡ port_refusal self }
    {
        match self {
            PortRefusal::Unsound(e) => e.number(),
            PortRefusal::NoLane => 9,
        }
    }
}

impl From<PanelRefusal> for PortRefusal {
    ghost from_gives = { λ e r. r ≡ Unsound e };

    fn from(e: PanelRefusal) -> PortRefusal {
        PortRefusal::Unsound(e)
    }
}

// The port of a lane of an accepted panel.
pub fn lane_port_at_cut(image: &[u8], h: Header, l: Lane, cut: u64, reverse: bool) -> Option<Port>
    requires { Accepted image.now h × Stands image.now h l }
    ensures { result ≡ found (ports_at (panel_of image.now) l.number cut reverse) }
{
    let shift = storage::cut_offset(h.k, reverse);
    if cut < shift {
        return None;
    }
    let i = panel::places_before(image, h, l, cut - shift, reverse);
    if l.count <= i {
        return None;
    }
    let p = image::lane_port(image, h, l, i);
    if p.stands_at(h.k, cut, reverse) {
        Some(p)
    } else {
        None
    }
}

fn panel_port_at_cut(
    image: &[u8],
    h: Header,
    lane: usize,
    cut: u64,
    reverse: bool,
) -> Result<Option<Port>, PortRefusal>
    requires { Accepted image.now h }
    ensures { result ≡ port_in h (panel_of image.now) lane cut reverse }
{
    if h.lanes <= lane {
        return Err(PortRefusal::NoLane);
    }
    let starts = image::lane_starts(image, h);
    let l = image::lane_of(image, h, &starts, lane);
    Ok(lane_port_at_cut(image, h, l, cut, reverse))
}

pub fn port_at_cut(
    image: &[u8],
    lane: u64,
    cut: u64,
    reverse: bool,
) -> Result<Option<Port>, PortRefusal>
    ensures { result ≡ port_answer image.now lane cut reverse }
{
    let h = check_panel(image)?;
    panel_port_at_cut(image, h, lane as usize, cut, reverse)
}

// ---- the hub bucket

// Why no bucket is looked for: 1 to 8, and 10.
#[derive(Clone, Copy, PartialEq, Eq, Debug)]
pub enum BucketRefusal {
    BadPanel(PanelRefusal),
    BadWord,
}

impl BucketRefusal {
    // The number of the refusal.
    pub fn number(self) -> u64
        ensures { result ≡ bucket_refusal self }
    {
        match self {
            BucketRefusal::BadPanel(e) => e.number(),
            BucketRefusal::BadWord => 10,
        }
    }
}

impl From<PanelRefusal> for BucketRefusal {
    ghost from_gives = { λ e r. r ≡ BadPanel e };

    fn from(e: PanelRefusal) -> BucketRefusal {
        BucketRefusal::BadPanel(e)
    }
}

// The bucket of a word of k letters in an accepted panel.
pub fn panel_bucket(image: &[u8], h: Header, word: &[u8]) -> Members
    requires { Accepted image.now h × (length word.now ≡ h.k) }
    ensures { result ≡ bucket_of (padded word.now h.k) (panel_of image.now).hub }
{
    storage::bucket(image, h.hub_at, h.ports, h.k, word)
}

pub fn hub_bucket(image: &[u8], word: &[u8]) -> Result<Members, BucketRefusal>
    ensures { result ≡ bucket_answer image.now word.now }
{
    let h = check_panel(image)?;
    if word.len() != h.k {
        return Err(BucketRefusal::BadWord);
    }
    Ok(panel_bucket(image, h, word))
}
