// Boxes of f32 by value: what they hold, by plain float comparison.
#![tactic(auto)]

ghost use Rattle.std.specs.Prelude.{◌≡◌};
ghost use Rattle.boxes.specs.Box.{between, none_over, holds_point, holds_box, holds_xy, box_of_bits, FiniteBits};

use grid::float_of_bits;

// A node's box.
#[derive(Clone, Copy)]
pub struct Box {
    pub least_x: f32,
    pub least_y: f32,
    pub least_z: f32,
    pub greatest_x: f32,
    pub greatest_y: f32,
    pub greatest_z: f32,
}

// Whether x lies between two ends, ends included.
#[tactic(auto, unfolding(crate::specs::Box::between))]
fn is_between(lo: f32, x: f32, hi: f32) -> bool
    ensures { result ≡ between lo x hi }
{
    lo <= x && x <= hi
}

// Whether a box holds a corner.
#[tactic(auto, using(crate::proofs::Boxes::no_x, crate::proofs::Boxes::no_y, crate::proofs::Boxes::by_z))]
pub fn holds_point(b: Box, x: f32, y: f32, z: f32) -> bool
    ensures { result ≡ holds_point b x y z }
{
    if !is_between(b.least_x, x, b.greatest_x) {
        return false;
    }
    if !is_between(b.least_y, y, b.greatest_y) {
        return false;
    }
    is_between(b.least_z, z, b.greatest_z)
}

// Whether no coordinate of (a, b, c) is over that of (d, e, f).
#[tactic(auto, unfolding(crate::specs::Box::none_over))]
fn none_over(a: f32, b: f32, c: f32, d: f32, e: f32, f: f32) -> bool
    ensures { result ≡ none_over a b c d e f }
{
    a <= d && b <= e && c <= f
}

// Whether a box holds another, the child's.
#[tactic(auto, using(crate::proofs::Boxes::no_least, crate::proofs::Boxes::by_greatest))]
pub fn holds_box(b: Box, c: Box) -> bool
    ensures { result ≡ holds_box b c }
{
    if !none_over(
        b.least_x, b.least_y, b.least_z, c.least_x, c.least_y, c.least_z,
    ) {
        return false;
    }
    none_over(
        c.greatest_x,
        c.greatest_y,
        c.greatest_z,
        b.greatest_x,
        b.greatest_y,
        b.greatest_z,
    )
}

// Whether a box holds a point seen from above.
#[tactic(auto, using(crate::proofs::Boxes::off_x, crate::proofs::Boxes::by_y))]
pub fn holds_xy(b: Box, x: f32, y: f32) -> bool
    ensures { result ≡ holds_xy b x y }
{
    if !is_between(b.least_x, x, b.greatest_x) {
        return false;
    }
    is_between(b.least_y, y, b.greatest_y)
}

// The box of six floats by their bits.
#[tactic(auto, unfolding(crate::specs::Box::box_of_bits))]
pub fn box_of_bits(a: u32, b: u32, c: u32, d: u32, e: u32, f: u32) -> Box
    requires { FiniteBits a b c d e f }
    ensures { result ≡ box_of_bits a b c d e f }
{
    let least_x = float_of_bits(a);
    let least_y = float_of_bits(b);
    let least_z = float_of_bits(c);
    let greatest_x = float_of_bits(d);
    let greatest_y = float_of_bits(e);
    let greatest_z = float_of_bits(f);
    Box {
        least_x,
        least_y,
        least_z,
        greatest_x,
        greatest_y,
        greatest_z,
    }
}
