// The height of a triangle's plane over a point that the triangle holds, in whole sixty-fourths, rounded down.
#![tactic(auto)]

ghost use Rattle.std.specs.Prelude.{◌≡◌, true, pos, nat_abs, ◌*ℤ◌, ◌<ℤ◌};
ghost use Rattle.wire.specs.Signed.{Within};
ghost use Rattle.slope.specs.Height.{rounded_down, beside, lifted, turned, height_at};
ghost use Rattle.slope.specs.Plain.{holds, Near, most_cross, most_share, most_lifted};

// A corner of a face, in sixty-fourths.
#[derive(Clone, Copy)]
pub struct Corner {
    pub x: i64,
    pub y: i64,
    pub z: i64,
}

// n / d rounded down, whatever the sign of n: the machine's own division rounds toward zero.
fn rounded_down(n: i64, d: i64) -> i64
    requires { Within most_lifted n × Within most_lifted d × (pos 0 <ℤ d) }
    ensures { result ≡ rounded_down n (nat_abs d) }
{
    if n < 0 {
        return -1 - (-1 - n) / d;
    }
    n / d
}

// n, or minus n where the area says that the corners run clockwise.
fn turned(area: i64, n: i64) -> i64
    requires { Within most_lifted n }
    ensures { (result ≡ turned area n) × Within most_lifted result }
{
    if area < 0 {
        return 0 - n;
    }
    n
}

// Twice the area of a, b and the point, positive where the point lies to the left of the way from a to b.
#[tactic(auto, using(wire::proofs::Signed::stored, wire::proofs::Signed::reads_within, triangle::proofs::Machine::crossed), unfolding(crate::specs::Height::beside))]
fn beside(a: Corner, b: Corner, x: i64, y: i64) -> i64
    requires { Near a × Near b × Within 65536 x × Within 65536 y }
    ensures { (result ≡ beside a b x y) × Within most_cross result }
{
    triangle::cross_of(a.x, a.y, b.x, b.y, x, y)
}

// A cross times the height of the corner over against it.
fn share_of(cross: i64, z: i64) -> i64
    requires { Within most_cross cross × Within 65536 z }
    ensures { (result ≡ cross *ℤ z) × Within most_share result }
{
    cross * z
}

// The area times the height of the plane over the point.
fn lifted_of(a: Corner, b: Corner, c: Corner, x: i64, y: i64) -> i64
    requires { Near a × Near b × Near c × Within 65536 x × Within 65536 y }
    ensures { (result ≡ lifted a b c x y) × Within most_lifted result }
{
    let of_a = share_of(beside(b, c, x, y), a.z);
    let of_b = share_of(beside(c, a, x, y), b.z);
    let of_c = share_of(beside(a, b, x, y), c.z);
    of_a + of_b + of_c
}

// The height of the plane of a, b, c over a point that their triangle holds.
pub fn height_of(a: Corner, b: Corner, c: Corner, x: i64, y: i64) -> i64
    requires { Near a × Near b × Near c × Within 65536 x × Within 65536 y × (holds a b c x y ≡ true) }
    ensures { (result ≡ height_at a b c x y) × Within 65536 result }
{
    let area = beside(a, b, c.x, c.y);
    let n = lifted_of(a, b, c, x, y);
    rounded_down(turned(area, n), turned(area, area))
}
