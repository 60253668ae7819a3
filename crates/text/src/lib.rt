// The sheet's text: bytes, numbers in decimal, lines of words and fields, put one behind the other into a room. Bytes that find no
// room are dropped.
#![tactic(auto)]

ghost use Rattle.std.specs.Prelude.{◌≡◌, ◌≤◌, [], ◌∷◌, ◌++◌, length};
ghost use Rattle.search.specs.Sheet.{decimal, field};
ghost use Rattle.text.specs.Inner.{Put, Digits};

// ---- bytes

pub fn put_byte(out: &mut [u8], at: usize, x: u8) -> usize
    ensures { Put (x ∷ []) out.old at out.new result }
{
    if at < out.len() {
        out[at] = x;
        at + 1
    } else {
        at
    }
}

pub fn put_text(out: &mut [u8], at: usize, text: &[u8]) -> usize
    ensures { Put text.now out.old at out.new result }
{
    let mut to = at;
    for x in text {
        to = put_byte(out, to, *x);
    }
    to
}

// ---- numbers

// A number below 2^64 has at most 20 digits; they stand at the end, from the place returned on.
fn put_digits(digits: &mut [u8; 20], x: u64) -> usize
    requires { length digits.old ≡ 20 }
    ensures said { Digits x digits.new result }
    ensures within { result ≤ 20 }
{
    let mut rest = x;
    for i in (0..20).rev() {
        digits[i] = b'0' + (rest % 10) as u8;
        if rest < 10 {
            return i;
        }
        rest /= 10;
    }
    0
}

pub fn put_number(out: &mut [u8], at: usize, x: u64) -> usize
    ensures { Put (decimal x) out.old at out.new result }
{
    let mut digits = [0u8; 20];
    let from = put_digits(&mut digits, x);
    put_text(out, at, &digits[from..])
}

// ---- lines

// A word of a line and the space behind it.
pub fn put_word(out: &mut [u8], at: usize, text: &[u8]) -> usize
    ensures { Put (text.now ++ (32 ∷ [])) out.old at out.new result }
{
    let next = put_text(out, at, text);
    put_byte(out, next, b' ')
}

// A number of a line and the space behind it.
pub fn put_count(out: &mut [u8], at: usize, x: u64) -> usize
    ensures { Put (decimal x ++ (32 ∷ [])) out.old at out.new result }
{
    let next = put_number(out, at, x);
    put_byte(out, next, b' ')
}

// A number that ends its line.
pub fn put_last(out: &mut [u8], at: usize, x: u64) -> usize
    ensures { Put (decimal x ++ (10 ∷ [])) out.old at out.new result }
{
    let next = put_number(out, at, x);
    put_byte(out, next, b'\n')
}

pub fn put_field(out: &mut [u8], at: usize, name: &[u8], x: u64) -> usize
    ensures { Put (field name.now x) out.old at out.new result }
{
    let next = put_word(out, at, name);
    put_last(out, next, x)
}
