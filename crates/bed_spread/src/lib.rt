// A text whose segments lie apart at a glance: one pass over its lines, each segment held against the span of the earlier ones of its lane.
#![tactic(auto)]

ghost use Rattle.std.specs.Prelude.{◌≡◌, true, map};
ghost use Rattle.evaluate.specs.Segments.{apart};
ghost use Rattle.names.specs.Names.{lines_of};
ghost use Rattle.rows.specs.Rows.{segment_of};
ghost use Rattle.texts.specs.Inner.{Lined};
ghost use Rattle.bed_spread.specs.Inner.{Widened};

// Whether a segment lies outside the span of its lane, which holds it afterwards.
fn widen(lows: &mut [u64; 4096], tops: &mut [u64; 4096], s: evaluate::Segment) -> bool
    ensures { Widened lows.old tops.old s lows.new tops.new result }
{
    let b = overlap::chain_of(s);
    if !overlap::is_outside(s, lows[b], tops[b]) {
        return false;
    }
    lows[b] = lows[b].min(s.start);
    tops[b] = tops[b].max(s.end);
    true
}

// Whether each segment of a text's lines lies before or behind all earlier ones of its lane: then no two share a base.
pub fn is_spread(table: &names::NameTable, text: &[u8]) -> bool
    requires { Lined text.now 0 }
    ensures { result ≡ true → apart (map (segment_of (lines_of table.now.names.now)) (lines_of text.now)) ≡ true }
{
    let mut lows = [u64::MAX; 4096];
    let mut tops = [0; 4096];
    for l in texts::Lines::of(*table, text) {
        if !widen(&mut lows, &mut tops, l.segment) {
            return false;
        }
    }
    true
}
