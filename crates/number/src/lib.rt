// Counts (rule 36) and numbers (rule 35) of a layout text: read from a word.
#![tactic(auto)]

ghost use Rattle.std.specs.Prelude.{◌≡◌, true, ◌+◌, ◌-◌, ◌*◌, ◌^◌, ◌<◌, ◌≤◌, length};
ghost use Rattle.number.specs.Count.{value, is_count};
ghost use Rattle.number.specs.Number.{number_of, count, says, some, none, minus, right};

use letters::{is_digit, is_within};
use text::rest;

// A number: sign and magnitude in whole millionths, and how many digits stood after the point.
#[derive(Clone, Copy)]
pub struct Num {
    pub ok: bool,
    pub neg: bool,
    pub millionths: u64,
    pub places: usize,
}

// ---- digits and counts

// The end of the digits that start at `at`.
fn digits(w: &[u8], at: usize) -> usize
    ensures { result ≡ at + count w.now at }
{
    at + rest(w, at).iter().take_while(|b| is_digit(**b)).count()
}

// What the n digits at `at` say.
fn said(w: &[u8], at: usize, n: usize) -> u64
    requires { (n ≡ count w.now at) × (n ≤ 6) }
    ensures { result ≡ says w.now at }
{
    let mut v = 0;
    for b in &rest(w, at)[..n] {
        v = v * 10 + (*b as u64 - 48);
    }
    v
}

// 36: one or two digits, not over 64.
pub fn is_count(w: &[u8]) -> bool
    ensures { result ≡ is_count w.now }
{
    let n = w.len();
    is_within(1, 2, n) && digits(w, 0) == n && said(w, 0, n) <= 64
}

// What a count says.
#[tactic(auto, using(crate::proofs::CountLaws::count_run, crate::proofs::CountLaws::count_small, crate::proofs::CountLaws::count_says))]
pub fn count_of(w: &[u8]) -> usize
    requires { is_count w.now ≡ true }
    ensures { result ≡ value 0 w.now }
{
    said(w, 0, w.len()) as usize
}

// ---- numbers

// What is kept of a number: minus zero loses its minus.
#[tactic(auto, unfolding(crate::specs::Number::some))]
fn kept(neg: bool, v: u64, m: usize) -> Num
    ensures { result ≡ some neg v m }
{
    Num {
        ok: true,
        neg: v != 0 && neg,
        millionths: v,
        places: m,
    }
}

#[tactic(auto, unfolding(crate::specs::Number::none))]
fn no_number() -> Num
    ensures { result ≡ none }
{
    Num {
        ok: false,
        neg: false,
        millionths: 0,
        places: 0,
    }
}

const SCALES: [u64; 7] = [1000000, 100000, 10000, 1000, 100, 10, 1];

// What a last digit weighs, in millionths, where m digits stand after the point.
pub fn scale(m: usize) -> u64
    requires { m ≤ 6 }
    ensures { result ≡ 10 ^ (6 - m) }
{
    SCALES[m]
}

// 1 if the word starts with a minus, else 0.
#[tactic(auto, unfolding(crate::specs::Number::minus))]
fn minus_at(w: &[u8]) -> usize
    ensures { result ≡ minus w.now }
{
    if 0 < w.len() && w[0] == 45 { 1 } else { 0 }
}

// The millionths of n digits at a and, behind the point at e, m digits.
#[tactic(auto, using(crate::proofs::DigitLaws::whole_small, crate::proofs::DigitLaws::fraction_small))]
fn joined(w: &[u8], a: usize, n: usize, e: usize, m: usize) -> u64
    requires { (n ≡ count w.now a) × ((n ≤ 5) × ((m ≡ count w.now (e + 1)) × ((m ≤ 6) × (e < 2 ^ 63)))) }
    ensures { result ≡ says w.now a * 1000000 + says w.now (e + 1) * 10 ^ (6 - m) }
{
    said(w, a, n) * 1000000 + said(w, e + 1, m) * scale(m)
}

// The word is n digits that end at e, and no more, or a point and m digits to its end.
#[tactic(auto, unfolding(crate::specs::Number::right))]
fn shaped(w: &[u8], e: usize, n: usize, m: usize) -> bool
    requires { (e ≤ length w.now) × (e + 1 + m < 2 ^ 64) }
    ensures { result ≡ right w.now e n m }
{
    let end = w.len();
    is_within(1, 5, n) && (e == end || w[e] == 46 && is_within(1, 6, m) && e + 1 + m == end)
}

// A number: an optional minus, 1 to 5 digits, optionally a point and 1 to 6 digits.
#[tactic(auto, using(crate::proofs::NumberLaws::minus_le, crate::proofs::NumberLaws::count_le, crate::proofs::NumberLaws::right_bounds, crate::proofs::NumberLaws::number_by))]
pub fn number(w: &[u8]) -> Num
    ensures { result ≡ number_of w.now }
{
    let a = minus_at(w);
    let e = digits(w, a);
    let n = e - a;
    let f = digits(w, e + 1);
    let m = f - (e + 1);
    if shaped(w, e, n, m) {
        kept(a == 1, joined(w, a, n, e, m), m)
    } else {
        no_number()
    }
}
