// Doubles: by their bits, which are finite, and the next one up and down; laws of their order, their subtraction and their rounding.
#![tactic(auto)]

ghost use Rattle.std.specs.Prelude.{◌≡◌};
ghost use Rattle.std.specs.Float.{binary64};
ghost use Rattle.std.specs.Float.Ieee.{of_bits};
ghost use Rattle.std.specs.Float.Ieee.Scale.{finite};
ghost use Rattle.doubles.specs.NextDouble.{pattern_up, next_up, next_down};

// The patterns of +infinity and of -0.0.
const INFINITY: u64 = 0x7ff0_0000_0000_0000;

const MINUS_ZERO: u64 = 0x8000_0000_0000_0000;

// Neither an infinity nor a NaN: strictly between the infinities.
pub fn is_finite(x: f64) -> bool
    ensures { result ≡ finite x }
{
    f64::NEG_INFINITY < x && x < f64::INFINITY
}

// A double by its bits, a NaN where they are one's.
pub fn of_bits(bits: u64) -> f64
    ensures { result ≡ of_bits binary64 bits }
{
    if bits % MINUS_ZERO <= INFINITY {
        f64::from_bits(bits)
    } else {
        f64::NAN
    }
}

// The most frequent way first: from 0.0 and from any finite double above it, one pattern further.
fn pattern_up(bits: u64) -> u64
    ensures { result ≡ pattern_up bits }
{
    if bits < INFINITY {
        bits + 1
    } else if bits == INFINITY {
        bits
    } else if bits == MINUS_ZERO {
        1
    } else {
        bits - 1
    }
}

pub fn next_up(x: f64) -> f64
    ensures { result ≡ next_up x }
{
    if x == x {
        let bits = pattern_up(f64::to_bits(x));
        f64::from_bits(bits)
    } else {
        x
    }
}

pub fn next_down(x: f64) -> f64
    ensures { result ≡ next_down x }
{
    -next_up(-x)
}
