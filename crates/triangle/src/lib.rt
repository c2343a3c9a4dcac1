// The exact triangle test of document 01: whether a triangle seen from above holds a point, in whole sixty-fourths.
#![tactic(auto)]

ghost use Rattle.std.specs.Prelude.{◌≡◌};
ghost use Rattle.wire.specs.Signed.{Within};
ghost use Rattle.triangle.specs.Triangle.{cross, all_left, all_right, sides, in_triangle};

// Twice the area of a, b, p, positive where p lies to the left of the way from a to b.
pub fn cross_of(ax: i64, ay: i64, bx: i64, by: i64, px: i64, py: i64) -> i64
    requires { Within 65536 ax × Within 65536 ay × Within 65536 bx × Within 65536 by × Within 65536 px × Within 65536 py }
    ensures { result ≡ cross ax ay bx by px py }
{
    let left = (bx - ax) * (py - ay);
    let right = (by - ay) * (px - ax);
    left - right
}

#[tactic(auto, using(wire::proofs::Signed::under, crate::proofs::Triangle::left_no, crate::proofs::Triangle::left_no_2, crate::proofs::Triangle::left_last))]
fn all_left(d: i64, e: i64, f: i64) -> bool
    ensures { result ≡ all_left d e f }
{
    if d < 0 {
        return false;
    }
    if e < 0 {
        return false;
    }
    !(f < 0)
}

fn all_right(d: i64, e: i64, f: i64) -> bool
    ensures { result ≡ all_right d e f }
{
    if 0 < d {
        return false;
    }
    if 0 < e {
        return false;
    }
    !(0 < f)
}

fn sides_of(area: i64, d: i64, e: i64, f: i64) -> bool
    ensures { result ≡ sides area d e f }
{
    if 0 < area {
        return all_left(d, e, f);
    }
    if area < 0 {
        return all_right(d, e, f);
    }
    false
}

// Whether, seen from above, the triangle of a, b, c holds p, border included.
pub fn in_triangle(ax: i64, ay: i64, bx: i64, by: i64, cx: i64, cy: i64, px: i64, py: i64) -> bool
    requires { Within 65536 ax × Within 65536 ay × Within 65536 bx × Within 65536 by × Within 65536 cx × Within 65536 cy × Within 65536 px × Within 65536 py }
    ensures { result ≡ in_triangle ax ay bx by cx cy px py }
{
    let area = cross_of(ax, ay, bx, by, cx, cy);
    let d = cross_of(ax, ay, bx, by, px, py);
    let e = cross_of(bx, by, cx, cy, px, py);
    let f = cross_of(cx, cy, ax, ay, px, py);
    sides_of(area, d, e, f)
}
