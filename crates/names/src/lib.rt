// The name table: texts cut at a byte, names, and the lane of a name. Names are chained by a hash of their bytes, so that one walk of a
// chain tells whether a name stands twice, and which lane has it.
#![tactic(auto)]

ghost use Rattle.std.specs.Prelude.{◌≡◌, [], ◌+◌, ◌-◌, ◌≤◌, ◌<◌, true, false, length, take, drop, get_or, MatchOption};
ghost use Rattle.ground.specs.Lists.{all};
ghost use Rattle.names.specs.Names.{cut, lines_of, name_ok, table_ok, lane_of, name_at};
ghost use Rattle.names.specs.Inner.{Placed, Span, Spans, Cuts, hash_of, Chained, Finds, Indexed, Table, Fresh, Linked};

// The longest name.
pub const LONGEST: usize = 64;

// The table of names: each lane's name where it stands, and the chains by which a name is found.
#[derive(Clone, Copy)]
pub struct NameTable<'a> {
    pub names: &'a [u8],
    starts: &'a [usize; 4098],
    ends: &'a [usize; 4098],
    heads: &'a [usize; 4096],
    links: &'a [usize; 4096],
    pub lanes: usize,
    pub ghost read: { Table names.now starts.now ends.now heads.now links.now lanes },
}

impl<'a> NameTable<'a> {
    // The table, if it has a good name for each of so many lanes, or none (34); their places and their chains are put into the rooms.
    pub fn read(
        names: &'a [u8],
        starts: &'a mut [usize; 4098],
        ends: &'a mut [usize; 4098],
        heads: &'a mut [usize; 4096],
        links: &'a mut [usize; 4096],
        lanes: usize,
    ) -> Option<NameTable<'a>>
        requires { (lanes ≤ 4096) × (length starts.old ≡ 4098) × (length ends.old ≡ 4098) × Chained (cut 10 names.now) heads.old links.old 0 }
        ensures { MatchOption result (table_ok lanes names.now ≡ false) (λ t. (table_ok lanes names.now ≡ true) × (t.names.now ≡ names.now) × (t.lanes ≡ lanes)) }
    {
        let count = cut_into(names, b'\n', starts, ends);
        if count == lanes + 1
            && starts[lanes] == ends[lanes]
            && are_names(names, starts, ends, lanes)
            && chain_names(names, starts, ends, heads, links, lanes)
        {
            Some(NameTable {
                names,
                starts,
                ends,
                heads,
                links,
                lanes,
            })
        } else {
            None
        }
    }

    // The name of a lane.
    pub fn name(&self, lane: usize) -> &'a [u8]
        requires { lane < self.now.lanes }
        ensures { result.now ≡ name_at (lines_of self.now.names.now) lane }
    {
        let names = self.names;
        let starts = self.starts;
        let ends = self.ends;
        part_at(names, starts, ends, lane)
    }

    // The lane of a name.
    pub fn find(&self, name: &[u8]) -> Option<usize>
        ensures { Finds (cut 10 self.now.names.now) self.now.lanes name.now result }
    {
        find_among(
            self.names,
            self.starts,
            self.ends,
            self.heads,
            self.links,
            self.lanes,
            name,
        )
    }

    // The lane of a name, or the count of lanes where none has it.
    pub fn lane_of(&self, name: &[u8]) -> usize
        ensures { result ≡ lane_of (lines_of self.now.names.now) name.now }
    {
        self.find(name).unwrap_or(self.lanes)
    }
}

// ---- bytes

// The place of the first byte b from a place on, or the text's end.
pub fn place_of(s: &[u8], at: usize, b: u8) -> usize
    requires { at ≤ length s.now }
    ensures { Placed s.now at b result }
{
    match s[at..].iter().position(|x| *x == b) {
        Some(i) => at + i,
        None => s.len(),
    }
}

// Where the parts of a text begin and end, as far as there is room; how many they are.
pub fn cut_into(s: &[u8], b: u8, starts: &mut [usize], ends: &mut [usize]) -> usize
    requires { length ends.old ≡ length starts.old }
    ensures { Cuts s.now b (length starts.old) starts.new ends.new result }
{
    let mut at: usize = 0;
    for k in 0..starts.len() {
        let e = place_of(s, at, b);
        starts[k] = at;
        ends[k] = e;
        if s.len() <= e {
            return k + 1;
        }
        at = e + 1;
    }
    starts.len()
}

// The part of a text between two places.
pub fn part_at<'a>(s: &'a [u8], starts: &[usize], ends: &[usize], j: usize) -> &'a [u8]
    requires { (j < length starts.now) × (j < length ends.now) × (get_or starts.now j 0 ≤ get_or ends.now j 0) × (get_or ends.now j 0 ≤ length s.now) }
    ensures { result.now ≡ take (get_or ends.now j 0 - get_or starts.now j 0) (drop (get_or starts.now j 0) s.now) }
{
    let from = starts[j];
    let to = ends[j];
    &s[from..to]
}

// ---- names

// 1 to 64 printing bytes without a space.
pub fn is_name(s: &[u8]) -> bool
    ensures { result ≡ name_ok s.now }
{
    (1..=LONGEST).contains(&s.len()) && s.iter().all(|x| (33..=126).contains(x))
}

// The chain of a name.
fn hash(s: &[u8]) -> usize
    ensures { (result ≡ hash_of s.now) × (result < 4096) }
{
    let mut h: usize = 0;
    for x in s {
        h = (h * 131 + usize::from(*x)) % 1048573;
    }
    h % 4096
}

// ---- the table

// The number of a name among the first n.
fn find_among(
    names: &[u8],
    starts: &[usize; 4098],
    ends: &[usize; 4098],
    heads: &[usize; 4096],
    links: &[usize; 4096],
    n: usize,
    key: &[u8],
) -> Option<usize>
    requires { Indexed names.now starts.now ends.now heads.now links.now n }
    ensures { Finds (cut 10 names.now) n key.now result }
{
    let c = hash(key);
    let mut p = heads[c];
    while 0 < p {
        let j = p - 1;
        if part_at(names, starts, ends, j) == key {
            return Some(j);
        }
        p = links[j];
    }
    None
}

// Whether no earlier name is the one of this number.
fn is_fresh(
    names: &[u8],
    starts: &[usize; 4098],
    ends: &[usize; 4098],
    heads: &[usize; 4096],
    links: &[usize; 4096],
    i: usize,
) -> bool
    requires { (i < 4096) × Indexed names.now starts.now ends.now heads.now links.now i × Span names.now starts.now ends.now i (get_or (cut 10 names.now) i []) }
    ensures { Fresh (cut 10 names.now) i result }
{
    let name = part_at(names, starts, ends, i);
    find_among(names, starts, ends, heads, links, i, name).is_none()
}

// The name of a number is put before the others of its chain.
fn chain_name(
    names: &[u8],
    starts: &[usize; 4098],
    ends: &[usize; 4098],
    heads: &mut [usize; 4096],
    links: &mut [usize; 4096],
    i: usize,
)
    requires { (i < 4096) × Chained (cut 10 names.now) heads.old links.old i × Span names.now starts.now ends.now i (get_or (cut 10 names.now) i []) }
    ensures { Chained (cut 10 names.now) heads.new links.new (i + 1) }
{
    let c = hash(part_at(names, starts, ends, i));
    links[i] = heads[c];
    heads[c] = i + 1;
}

// Whether all names differ; they are chained.
fn chain_names(
    names: &[u8],
    starts: &[usize; 4098],
    ends: &[usize; 4098],
    heads: &mut [usize; 4096],
    links: &mut [usize; 4096],
    lanes: usize,
) -> bool
    requires { (lanes ≤ 4096) × (lanes ≤ length (cut 10 names.now)) × Spans names.now (cut 10 names.now) starts.now ends.now lanes × Chained (cut 10 names.now) heads.old links.old 0 }
    ensures { Linked (cut 10 names.now) heads.new links.new lanes result }
{
    for i in 0..lanes {
        if !is_fresh(names, starts, ends, heads, links, i) {
            return false;
        }
        chain_name(names, starts, ends, heads, links, i);
    }
    true
}

// Whether the first lines are names.
fn are_names(names: &[u8], starts: &[usize; 4098], ends: &[usize; 4098], lanes: usize) -> bool
    requires { (lanes ≤ 4096) × (lanes ≤ length (cut 10 names.now)) × Spans names.now (cut 10 names.now) starts.now ends.now lanes }
    ensures { result ≡ all name_ok (take lanes (cut 10 names.now)) }
{
    (0..lanes).all(|j| is_name(part_at(names, starts, ends, j)))
}
