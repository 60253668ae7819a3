// Refusals 25 to 30 of the routes that a text of BED holds, line by line.
#![tactic(auto)]

ghost use Rattle.std.specs.Prelude.{◌≡◌, true, [], ◌∷◌, ◌<◌, length};
ghost use Rattle.image.specs.Inner.{Framed, Started, Groups};
ghost use Rattle.image.specs.Panel.{panel_of, paths_at};
ghost use Rattle.panel.specs.Inner.{Accepted};
ghost use Rattle.evaluate.specs.Check.{leaves, routes_refusal};
ghost use Rattle.routes.specs.Refusals.{refusal_of, refused_of};
ghost use Rattle.names.specs.Names.{lines_of};
ghost use Rattle.texts.specs.Bed.{text_ok, routes_in};
ghost use Rattle.bed_routes.specs.Inner.{entered_by, joints_by, verdict, Begun, Onward, Ahead, Judged};

// What has been seen of a route: the segment of its normal form at hand, joined so far, the one before it where there is some,
// whether all segments as given were sound, whether the first entered its lane, and the first refusal of a joint.
#[derive(Clone, Copy, PartialEq, Eq, Debug)]
pub struct Seen {
    pub segment: evaluate::Segment,
    pub before: Option<evaluate::Segment>,
    pub sound: bool,
    pub entered: bool,
    pub joints: Result<(), routes::RouteRefusal>,
}

// ---- segment by segment

// Of a route's first segment.
fn begun(image: &[u8], h: image::Header, s: evaluate::Segment) -> Seen
    requires { Framed image.now h }
    ensures { Begun (panel_of image.now) s result }
{
    Seen {
        segment: s,
        before: None,
        sound: routes::is_sound(image, h, s),
        entered: false,
        joints: Ok(()),
    }
}

// 27: whether the route enters its lane, where the segment at hand is whole.
fn entered_by(seen: Seen, target: usize) -> bool
    ensures { result ≡ entered_by target seen }
{
    let s = seen.segment;
    match seen.before {
        Some(_) => seen.entered,
        None => routes::is_forward_at(s, target as u64, s.entry(), 0),
    }
}

// 28, 29, 30: up to the joint before the segment at hand, where that is whole.
fn joints_by(
    image: &[u8],
    h: image::Header,
    lane_starts: &[usize; 4096],
    seen: Seen,
) -> Result<(), routes::RouteRefusal>
    requires { Accepted image.now h × Started image.now h lane_starts.now }
    ensures { refusal_of result ≡ joints_by (panel_of image.now) seen }
{
    seen.joints?;
    match seen.before {
        Some(s) => routes::check_joint(image, h, lane_starts, s, seen.segment),
        None => Ok(()),
    }
}

// One segment more: joined to the one at hand, or behind it.
fn onward(
    image: &[u8],
    h: image::Header,
    lane_starts: &[usize; 4096],
    target: usize,
    seen: Seen,
    t: evaluate::Segment,
) -> Seen
    requires { Accepted image.now h × Started image.now h lane_starts.now }
    ensures { Onward (panel_of image.now) target seen t result }
{
    let sound = seen.sound && routes::is_sound(image, h, t);
    if words::is_joinable(seen.segment, t) {
        Seen {
            segment: words::join(seen.segment, t),
            sound,
            ..seen
        }
    } else {
        Seen {
            segment: t,
            before: Some(seen.segment),
            sound,
            entered: entered_by(seen, target),
            joints: joints_by(image, h, lane_starts, seen),
        }
    }
}

// 27: whether the segment at hand, the last, leaves its lane.
fn is_leaving(image: &[u8], h: image::Header, target: usize, s: evaluate::Segment) -> bool
    requires { Framed image.now h }
    ensures { result ≡ leaves (panel_of image.now) target (s ∷ []) }
{
    let len = routes::lane_len(image, h, target);
    routes::is_forward_at(s, target as u64, s.exit(), len)
}

// A route's refusal, where no segment is left.
fn judged(
    image: &[u8],
    h: image::Header,
    lane_starts: &[usize; 4096],
    target: usize,
    seen: Seen,
) -> Result<(), routes::RouteRefusal>
    requires { Accepted image.now h × Started image.now h lane_starts.now }
    ensures { refusal_of result ≡ verdict (panel_of image.now) target seen [] }
{
    if !seen.sound {
        return Err(routes::RouteRefusal::Span);
    }
    if !entered_by(seen, target) || !is_leaving(image, h, target, seen.segment) {
        return Err(routes::RouteRefusal::Ends);
    }
    joints_by(image, h, lane_starts, seen)
}

// ---- route by route

// 25 to 30 of the route whose first line stands at a place, or where the next route's first line stands: a route of a text has a line, so it is never 25.
fn check_route(
    image: &[u8],
    h: image::Header,
    lane_starts: &[usize; 4096],
    table: &names::NameTable,
    text: &[u8],
    at: usize,
    slot: u64,
    target: usize,
) -> Result<usize, routes::RouteRefusal>
    requires { Accepted image.now h × Started image.now h lane_starts.now × Ahead text.now slot at × (at < length text.now) }
    ensures { Judged (panel_of image.now) target (lines_of table.now.names.now) text.now slot at result }
{
    let first = texts::line_at(table, text, at);
    let mut seen = begun(image, h, first.segment);
    let mut place = first.next;
    while place < text.len() {
        let l = texts::line_at(table, text, place);
        if l.slot != slot {
            break;
        }
        seen = onward(image, h, lane_starts, target, seen, l.segment);
        place = l.next;
    }
    judged(image, h, lane_starts, target, seen)?;
    Ok(place)
}

// 25 to 30, route by route, of the routes that a text holds, each against its path of the family.
pub fn check_routes(
    image: &[u8],
    h: image::Header,
    lane_starts: &[usize; 4096],
    table: &names::NameTable,
    text: &[u8],
    f: image::Family,
) -> Result<(), routes::RefusedRoute>
    requires { Accepted image.now h × Started image.now h lane_starts.now × Groups image.now h f × (text_ok text.now ≡ true) × (length (routes_in (lines_of table.now.names.now) (lines_of text.now)) ≡ f.count) }
    ensures { refused_of result ≡ routes_refusal (panel_of image.now) 0 (paths_at (panel_of image.now) f.number) (routes_in (lines_of table.now.names.now) (lines_of text.now)) }
{
    let mut at = 0;
    for i in 0..f.count {
        let target = image::family_path(image, h, f, i);
        let route = i as u64;
        match check_route(image, h, lane_starts, table, text, at, route, target) {
            Ok(next) => at = next,
            Err(why) => return Err(routes::RefusedRoute { route, why }),
        }
    }
    Ok(())
}
