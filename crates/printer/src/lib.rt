// Printers: bytes, words, names, counts and numbers put from a place on as far as there is room, and the place behind them.
#![tactic(auto)]

ghost use Rattle.std.specs.Prelude.{◌≡◌, ◌+◌, ◌^◌, ◌<◌, ◌≤◌, [], ◌∷◌, length};
ghost use Rattle.printer.specs.Write.{Wrote};
ghost use Rattle.letters.specs.Case.{lowered};
ghost use Rattle.number.specs.Number.{printed, fixed, width, plain, fraction, sign};

use letters::low;
use number::{Num, scale};

// ---- bytes and words

// One byte, if there is room for it.
#[tactic(auto, unfolding(wire::specs::Bytes::put))]
pub fn put_byte(out: &mut [u8], at: usize, b: u8) -> usize
    requires { at < 2 ^ 32 }
    ensures { Wrote out.old out.new at result (b ∷ []) }
{
    let next = at + 1;
    if at < out.len() {
        out[at] = b;
        return next;
    }
    next
}

// A word, byte by byte.
pub fn put_word(out: &mut [u8], at: usize, w: &[u8]) -> usize
    requires { at + length w.now < 2 ^ 32 }
    ensures { Wrote out.old out.new at result w.now }
{
    let mut e = at;
    for b in w {
        e = put_byte(out, e, *b);
    }
    e
}

// A name in lower case.
pub fn put_lowered(out: &mut [u8], at: usize, w: &[u8]) -> usize
    requires { at + length w.now < 2 ^ 32 }
    ensures { Wrote out.old out.new at result (lowered w.now) }
{
    let mut e = at;
    for b in w {
        e = put_byte(out, e, low(*b));
    }
    e
}

// ---- counts and numbers

// The last k digits of v.
pub fn put_fixed(out: &mut [u8], at: usize, k: usize, v: u64) -> usize
    requires { at + k < 2 ^ 32 }
    ensures { Wrote out.old out.new at result (fixed k v) }
{
    if k == 0 {
        return at;
    }
    let e = put_fixed(out, at, k - 1, v / 10);
    put_byte(out, e, (48 + v % 10) as u8)
}

// A minus, if there is one.
#[tactic(auto, using(crate::proofs::WriteLaws::wrote_none))]
fn put_minus(out: &mut [u8], at: usize, neg: bool) -> usize
    requires { at < 2 ^ 32 }
    ensures { Wrote out.old out.new at result (sign neg) }
{
    if neg {
        return put_byte(out, at, 45);
    }
    at
}

// How many digits a number below 100,000 has.
#[tactic(auto, unfolding(number::specs::Number::width))]
fn width_of(v: u64) -> usize
    ensures { result ≡ width v }
{
    if v < 10 {
        return 1;
    }
    if v < 100 {
        return 2;
    }
    if v < 1000 {
        return 3;
    }
    if v < 10000 {
        return 4;
    }
    5
}

// A whole number with no needless leading zeros.
#[tactic(auto, using(number::proofs::DigitLaws::width_is), unfolding(number::specs::Number::plain))]
pub fn put_plain(out: &mut [u8], at: usize, v: u64) -> usize
    requires { at < 2 ^ 31 }
    ensures { Wrote out.old out.new at result (plain v) }
{
    put_fixed(out, at, width_of(v), v)
}

// A point and p digits of the millionths v, or nothing.
fn put_fraction(out: &mut [u8], at: usize, p: usize, v: u64) -> usize
    requires { (at < 2 ^ 31) × (p ≤ 6) }
    ensures { Wrote out.old out.new at result (fraction p v) }
{
    if p == 0 {
        return at;
    }
    let d = scale(p);
    let e = put_byte(out, at, 46);
    put_fixed(out, e, p, v % 1000000 / d)
}

// A number as it is printed.
pub fn put_number(out: &mut [u8], at: usize, x: Num) -> usize
    requires { (at < 2 ^ 30) × (x.places ≤ 6) }
    ensures { Wrote out.old out.new at result (printed x) }
{
    let v = x.millionths;
    let p = x.places;
    let i = put_minus(out, at, x.neg);
    let j = put_plain(out, i, v / 1000000);
    put_fraction(out, j, p, v)
}
