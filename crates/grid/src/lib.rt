// The grid of sixty-fourths and the nudge along it, on the bits of an f32.
#![tactic(auto)]

ghost use Rattle.std.specs.Prelude.{◌≡◌, true};
ghost use Rattle.std.specs.Float.{binary32};
ghost use Rattle.std.specs.Float.Ieee.{of_bits};
ghost use Rattle.grid.specs.Grid.{finite, plain, within, grid_float, may_nudge, nudge_bits};
ghost use Rattle.grid.specs.Answers.{size_at, scaled_at, nudged_at};

// The size in sixty-fourths of the float with the bits b, none off the grid: by its exponent's field and its digits, so that every
// pattern may be asked, a NaN's too.
pub fn size_of(b: u32) -> Option<u32>
    ensures { result ≡ size_at b }
{
    let e = b % 2147483648 / 8388608;
    let m = 8388608 + b % 8388608;
    if b % 2147483648 == 0 {
        return Some(0);
    }
    if e < 121 || 143 < e {
        return None;
    }
    let d = 1u32 << (144 - e);
    let n = m / d;
    (m % d == 0 && n <= 65536).then_some(n)
}

// The same with the sign: the scaled number, none off the grid.
pub fn scaled_of(b: u32) -> Option<i64>
    ensures { result ≡ scaled_at b }
{
    let n = size_of(b)? as i64;
    Some(if b < 2147483648 { n } else { -n })
}

// Whether z is within ±k.
pub fn is_within(z: i64, k: u32) -> bool
    ensures { result ≡ within k z }
{
    let h = k as i64;
    -h <= z && z <= h
}

// z sixty-fourths.
#[tactic(auto, using(crate::proofs::Grid::step_is, crate::proofs::Grid::step_in))]
pub fn float_of(z: i64) -> f32
    requires { within 65536 z ≡ true }
    ensures { result ≡ grid_float z }
{
    z as f32 / 64.0
}

// The largest step of a nudge, either way.
const LARGEST_STEP: u32 = 640;

// Whether the nudge of the float with the bits b by n sixty-fourths may be made.
fn may_nudge(b: u32, n: i64) -> bool
    ensures { result ≡ may_nudge b n }
{
    if !is_within(n, LARGEST_STEP) {
        return false;
    }
    let Some(z) = scaled_of(b) else {
        return false;
    };
    is_within(z + n, 65536)
}

// The nudge itself: one f32 addition. The step is made from a whole number, so it is never minus zero, and neither is the sum.
fn moved(b: u32, n: i64) -> u32
    requires { may_nudge b n ≡ true }
    ensures { result ≡ nudge_bits b n }
{
    let y = f32::from_bits(b) + float_of(n);
    f32::to_bits(y)
}

// The bits after the nudge, none where it may not be made.
pub fn nudge(b: u32, n: i64) -> Option<u32>
    ensures { result ≡ nudged_at b n }
{
    may_nudge(b, n).then(|| moved(b, n))
}

// Whether the float with the bits b is finite.
#[tactic(auto, using(crate::proofs::Finite::finite_bits))]
pub fn is_finite(b: u32) -> bool
    ensures { result ≡ finite (of_bits binary32 b) }
{
    b % 2147483648 < 2139095040
}

// The word of a float, with zero's for minus zero's.
#[tactic(auto, unfolding(crate::specs::Grid::plain))]
pub fn plain_of(b: u32) -> u32
    ensures { result ≡ plain b }
{
    if b == 2147483648 {
        return 0;
    }
    b
}

// The float with some bits.
#[tactic(auto, using(crate::proofs::Finite::finite_no_nan))]
pub fn float_of_bits(bits: u32) -> f32
    requires { finite (of_bits binary32 bits) ≡ true }
    ensures { result ≡ of_bits binary32 bits }
{
    f32::from_bits(bits)
}
