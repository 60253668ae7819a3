// A search by halves, and a sum held against a total.
#![tactic(auto)]

ghost use Rattle.std.specs.Prelude.{◌≡◌, ◌-◌, ◌≤◌, ◌<◌, ℕ, List, true, false, eqb, length, get_or};
ghost use Rattle.ground.specs.Lists.{sum};

// Where a test that passes up to some place and fails from there on begins to fail, between two places: by halves.
pub fn partition_point<F: Fn(usize) -> bool>(from: usize, to: usize, passes: F) -> usize
    requires order { from ≤ to }
    requires asked { (i : ℕ) → from ≤ i → i < to → F.pre passes i }
    ensures within { (from ≤ result) × (result ≤ to) }
    ensures last { from < result → F.post passes (result - 1) true }
    ensures first { result < to → F.post passes result false }
{
    let mut low = from;
    let mut high = to;
    while low < high {
        let middle = low + (high - low) / 2;
        if passes(middle) {
            low = middle + 1;
        } else {
            high = middle;
        }
    }
    low
}

// Whether n numbers sum to a total; they are taken off it one by one, so that no sum wraps.
pub fn adds_up<F: Fn(usize) -> usize>(n: usize, total: usize, number: F) -> bool
    requires { (i : ℕ) → i < n → F.pre number i }
    ensures { (ns : List ℕ) → length ns ≡ n → ((i x : ℕ) → i < n → F.post number i x → x ≡ get_or ns i 0) → result ≡ eqb (sum ns) total }
{
    let mut left = total;
    for i in 0..n {
        match left.checked_sub(number(i)) {
            Some(rest) => left = rest,
            None => return false,
        }
    }
    left == 0
}
