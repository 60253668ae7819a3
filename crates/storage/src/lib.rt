// Numbers and port records in a byte image.
#![tactic(auto)]

ghost use Rattle.std.specs.Prelude.{◌≡◌, ◌+◌, ◌^◌, ◌≤◌, ◌<◌, length, take, drop, get_or};
ghost use Rattle.ground.specs.Lists.{each, count};
ghost use Rattle.storage.specs.Bytes.{number};
ghost use Rattle.storage.specs.Records.{padded, port_of, cut_offset, cut_of, stands_at, no_port, record_size, longest_word};
ghost use Rattle.storage.specs.Orders.{word_order, port_order, record_lt, same_port, place_lt, place_before, word_below, word_up_to, bucket_of};
ghost use Rattle.storage.specs.Inner.{Records, Sorted, Offset};

use std::cmp::Ordering;

// ---- words

// The little-endian u64 at a byte offset.
pub fn word_at(image: &[u8], at: usize) -> u64
    requires { at + 8 ≤ length image.now }
    ensures { result ≡ number (drop at image.now) }
{
    u64::from_le_bytes([
        image[at],
        image[at + 1],
        image[at + 2],
        image[at + 3],
        image[at + 4],
        image[at + 5],
        image[at + 6],
        image[at + 7],
    ])
}

// ---- ports

// A port record, by value. The word is padded with zeros.
#[derive(Clone, Copy, PartialEq, Eq, Debug)]
pub struct Port {
    pub word: [u8; 32],
    pub source: u64,
    pub anchor: u64,
    pub reverse: bool,
}

impl Port {
    // The bytes of a record beside its word.
    pub const EXCESS: usize = 17;

    // Where the port's lane is cut.
    pub fn cut(self, k: usize) -> u64
        requires { self.anchor + k < 2 ^ 64 }
        ensures { result ≡ cut_of self k }
    {
        self.anchor + cut_offset(k, self.reverse)
    }

    // Whether it has this cut and this orientation.
    pub fn stands_at(self, k: usize, cut: u64, reverse: bool) -> bool
        requires { self.anchor + k < 2 ^ 64 }
        ensures { result ≡ stands_at k cut reverse self }
    {
        self.cut(k) == cut && self.reverse == reverse
    }
}

// How far from its anchor a port of this orientation is cut.
pub fn cut_offset(k: usize, reverse: bool) -> u64
    ensures { result ≡ cut_offset k reverse }
{
    let half = k / 2;
    if reverse {
        (k - half) as u64
    } else {
        half as u64
    }
}

// The k bytes of a word at a byte offset, padded.
fn letters_at(image: &[u8], at: usize, k: usize) -> [u8; 32]
    requires { (at + k ≤ length image.now) × (k ≤ longest_word) }
    ensures { result ≡ padded (take k (drop at image.now)) k }
{
    let mut word = [0u8; 32];
    word[..k].copy_from_slice(&image[at..at + k]);
    word
}

// The record at a byte offset.
pub fn port_at(image: &[u8], at: usize, k: usize) -> Port
    requires { (at + record_size k ≤ length image.now) × (k ≤ longest_word) }
    ensures { result ≡ port_of k (drop at image.now) }
{
    let word = letters_at(image, at, k);
    let s = at + k;
    let source = word_at(image, s);
    let anchor = word_at(image, s + 8);
    let reverse = image[s + 16] == 1;
    Port {
        word,
        source,
        anchor,
        reverse,
    }
}

// ---- lists of records: n that stand from base on

// Where record i begins.
pub fn offset(image: &[u8], base: usize, n: usize, k: usize, i: usize) -> usize
    requires { Records image.now base n k × (i < n) }
    ensures { Offset image.now base n k i result }
{
    base + i * (k + Port::EXCESS)
}

pub fn record_at(image: &[u8], base: usize, n: usize, k: usize, i: usize) -> Port
    requires { Records image.now base n k × (i < n) }
    ensures { result ≡ get_or (each (port_of k) (record_size k) n (drop base image.now)) i no_port }
{
    let at = offset(image, base, n, k, i);
    port_at(image, at, k)
}

pub fn anchor_at(image: &[u8], at: usize, k: usize) -> u64
    requires { at + record_size k ≤ length image.now }
    ensures { result ≡ (port_of k (drop at image.now)).anchor }
{
    word_at(image, at + k + 8)
}

pub fn source_at(image: &[u8], at: usize, k: usize) -> u64
    requires { at + record_size k ≤ length image.now }
    ensures { result ≡ (port_of k (drop at image.now)).source }
{
    word_at(image, at + k)
}

pub fn reverse_at(image: &[u8], at: usize, k: usize) -> bool
    requires { at + record_size k ≤ length image.now }
    ensures { result ≡ (port_of k (drop at image.now)).reverse }
{
    image[at + k + 16] == 1
}

// The anchor of record i.
pub fn anchor_of(image: &[u8], base: usize, n: usize, k: usize, i: usize) -> u64
    requires { Records image.now base n k × (i < n) }
    ensures { result ≡ (get_or (each (port_of k) (record_size k) n (drop base image.now)) i no_port).anchor }
{
    let at = offset(image, base, n, k, i);
    anchor_at(image, at, k)
}

// The lane that record i names.
pub fn source_of(image: &[u8], base: usize, n: usize, k: usize, i: usize) -> u64
    requires { Records image.now base n k × (i < n) }
    ensures { result ≡ (get_or (each (port_of k) (record_size k) n (drop base image.now)) i no_port).source }
{
    let at = offset(image, base, n, k, i);
    source_at(image, at, k)
}

fn is_before_at(image: &[u8], at: usize, k: usize, anchor: u64, reverse: bool) -> bool
    requires { at + record_size k ≤ length image.now }
    ensures { result ≡ place_before anchor reverse (port_of k (drop at image.now)) }
{
    match anchor_at(image, at, k).cmp(&anchor) {
        Ordering::Less => true,
        Ordering::Equal => reverse && !reverse_at(image, at, k),
        Ordering::Greater => false,
    }
}

// Whether record i stands before a place of its lane's list: by anchor, and forward before reverse.
pub fn is_before(
    image: &[u8],
    base: usize,
    n: usize,
    k: usize,
    i: usize,
    anchor: u64,
    reverse: bool,
) -> bool
    requires { Records image.now base n k × (i < n) }
    ensures { result ≡ place_before anchor reverse (get_or (each (port_of k) (record_size k) n (drop base image.now)) i no_port) }
{
    let at = offset(image, base, n, k, i);
    is_before_at(image, at, k, anchor, reverse)
}

// ---- buckets

// The order of the k letters at a byte offset and a word of k letters.
fn letters_order(image: &[u8], at: usize, word: &[u8]) -> Ordering
    requires { at + length word.now ≤ length image.now }
    ensures { result ≡ word_order (take (length word.now) (drop at image.now)) word.now }
{
    image[at..at + word.len()].cmp(word)
}

fn is_word_below(image: &[u8], base: usize, n: usize, k: usize, i: usize, word: &[u8]) -> bool
    requires { Records image.now base n k × (i < n) × (length word.now ≡ k) }
    ensures { result ≡ word_below (padded word.now k) (get_or (each (port_of k) (record_size k) n (drop base image.now)) i no_port) }
{
    let at = offset(image, base, n, k, i);
    letters_order(image, at, word).is_lt()
}

fn is_word_up_to(image: &[u8], base: usize, n: usize, k: usize, i: usize, word: &[u8]) -> bool
    requires { Records image.now base n k × (i < n) × (length word.now ≡ k) }
    ensures { result ≡ word_up_to (padded word.now k) (get_or (each (port_of k) (record_size k) n (drop base image.now)) i no_port) }
{
    let at = offset(image, base, n, k, i);
    letters_order(image, at, word).is_le()
}

// How many records have a lower word.
fn lower(image: &[u8], base: usize, n: usize, k: usize, word: &[u8]) -> usize
    requires { Sorted image.now base n k × (length word.now ≡ k) }
    ensures { result ≡ count (word_below (padded word.now k)) (each (port_of k) (record_size k) n (drop base image.now)) }
{
    ground::partition_point(0, n, |i| is_word_below(image, base, n, k, i, word))
}

fn doubled(step: usize) -> usize {
    if step < 65536 { step * 2 } else { step }
}

// How many records have a lower or equal word, where so many have a lower one: by growing steps from there, then by halves.
fn upper(image: &[u8], base: usize, n: usize, k: usize, word: &[u8], from: usize) -> usize
    requires { Sorted image.now base n k × (length word.now ≡ k) × (from ≡ count (word_below (padded word.now k)) (each (port_of k) (record_size k) n (drop base image.now))) }
    ensures { result ≡ count (word_up_to (padded word.now k)) (each (port_of k) (record_size k) n (drop base image.now)) }
{
    let mut lo = from;
    let mut hi = n;
    let mut step = 1;
    while step < hi - lo {
        let at = lo + step;
        if is_word_up_to(image, base, n, k, at, word) {
            lo = at + 1;
            step = doubled(step);
        } else {
            hi = at;
        }
    }
    ground::partition_point(lo, hi, |i| is_word_up_to(image, base, n, k, i, word))
}

// The records with one word: those from lo on, up to hi.
#[derive(Clone, Copy, PartialEq, Eq, Debug)]
pub struct Members {
    pub lo: usize,
    pub hi: usize,
}

pub fn bucket(image: &[u8], base: usize, n: usize, k: usize, word: &[u8]) -> Members
    requires { Sorted image.now base n k × (length word.now ≡ k) }
    ensures { result ≡ bucket_of (padded word.now k) (each (port_of k) (record_size k) n (drop base image.now)) }
{
    let lo = lower(image, base, n, k, word);
    let hi = upper(image, base, n, k, word, lo);
    Members { lo, hi }
}

// ---- records compared where they stand

// By word, source, anchor, and forward before reverse.
fn compare_at(image: &[u8], a: usize, b: usize, k: usize) -> Ordering
    requires { (a + record_size k ≤ length image.now) × (b + record_size k ≤ length image.now) }
    ensures { result ≡ port_order (port_of k (drop a image.now)) (port_of k (drop b image.now)) }
{
    letters_order(image, a, &image[b..b + k])
        .then_with(|| source_at(image, a, k).cmp(&source_at(image, b, k)))
        .then_with(|| anchor_at(image, a, k).cmp(&anchor_at(image, b, k)))
        .then_with(|| reverse_at(image, a, k).cmp(&reverse_at(image, b, k)))
}

// Whether record i stands before the next one in the global list.
pub fn is_record_before_next(image: &[u8], base: usize, n: usize, k: usize, i: usize) -> bool
    requires { Records image.now base n k × (i + 1 < n) }
    ensures { result ≡ record_lt (get_or (each (port_of k) (record_size k) n (drop base image.now)) i no_port) (get_or (each (port_of k) (record_size k) n (drop base image.now)) (i + 1) no_port) }
{
    let at = offset(image, base, n, k, i);
    let next = offset(image, base, n, k, i + 1);
    compare_at(image, at, next, k).is_lt()
}

// Whether record i stands before the next one in a lane's list.
pub fn is_place_before_next(image: &[u8], base: usize, n: usize, k: usize, i: usize) -> bool
    requires { Records image.now base n k × (i + 1 < n) }
    ensures { result ≡ place_lt (get_or (each (port_of k) (record_size k) n (drop base image.now)) i no_port) (get_or (each (port_of k) (record_size k) n (drop base image.now)) (i + 1) no_port) }
{
    let at = offset(image, base, n, k, i);
    let next = offset(image, base, n, k, i + 1);
    let anchor = anchor_at(image, next, k);
    let reverse = reverse_at(image, next, k);
    is_before_at(image, at, k, anchor, reverse)
}

// Whether two records are one.
pub fn is_same_at(image: &[u8], a: usize, b: usize, k: usize) -> bool
    requires { (a + record_size k ≤ length image.now) × (b + record_size k ≤ length image.now) }
    ensures { result ≡ same_port (port_of k (drop a image.now)) (port_of k (drop b image.now)) }
{
    compare_at(image, a, b, k).is_eq()
}
