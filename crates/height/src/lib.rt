// Where the feet stand: the query, and the height of the face that it found, in sixty-fourths, rounded down.
#![tactic(auto)]

ghost use Rattle.std.specs.Prelude.{◌≡◌, true, ◌<◌, length};
ghost use Rattle.wire.specs.Signed.{Within};
ghost use Rattle.slope.specs.Plain.{Near};
ghost use Rattle.tables.specs.Parts.{parts_of};
ghost use Rattle.floor.specs.Reader.{reader_memory};
ghost use Rattle.query.specs.Points.{face_holds, Ready};
ghost use Rattle.height.specs.Feet.{corner_of, height_on, with_height, height_answer};

use query::Point;
use slope::Corner;

// What the call answers: all as the query has it, and the height in sixty-fourths, 0 where no face is found.
#[repr(C)]
#[derive(Clone, Copy)]
pub struct Height {
    pub number: u32,
    pub place: u32,
    pub found: u32,
    pub face: u32,
    pub visited: u32,
    pub height: i32,
}

// Corner c of face f.
#[tactic(auto, using(wire::proofs::Signed::read_within, query::proofs::Reaches::corner_read, crate::proofs::Answers::corner_made))]
fn corner_at(bytes: &[u8], f: usize, c: usize) -> Corner
    requires { Ready bytes.now × (f < (parts_of bytes.now).faces) × (c < 3) }
    ensures { (result ≡ corner_of (parts_of bytes.now) f c) × Near result }
{
    let v = tables::corner_of(bytes, f, c);
    let x = query::coordinate(bytes, v, 0);
    let y = query::coordinate(bytes, v, 1);
    let z = query::coordinate(bytes, v, 2);
    Corner { x, y, z }
}

// The height of face f's plane over a point that the face holds.
fn face_height(bytes: &[u8], f: usize, x: i64, y: i64) -> i64
    requires { Ready bytes.now × (f < (parts_of bytes.now).faces) × Within 65536 x × Within 65536 y × (face_holds (parts_of bytes.now) x y f ≡ true) }
    ensures { (result ≡ height_on (parts_of bytes.now) f x y) × Within 65536 result }
{
    let a = corner_at(bytes, f, 0);
    let b = corner_at(bytes, f, 1);
    let c = corner_at(bytes, f, 2);
    slope::height_of(a, b, c, x, y)
}

// The query's answer with a height beside it.
#[tactic(auto, unfolding(crate::specs::Feet::with_height))]
fn with_height(q: Point, height: i32) -> Height
    ensures { result ≡ with_height q height }
{
    Height {
        number: q.number,
        place: q.place,
        found: q.found,
        face: q.face,
        visited: q.visited,
        height,
    }
}

// Where the feet stand: any bytes, any work memory, any x and y, which are in sixty-fourths.
pub fn height_at(bytes: &[u8], work: &mut [u8], x: i32, y: i32) -> Height
    ensures answer { result ≡ height_answer bytes.now (length work.old) x y }
    ensures memory { work.new ≡ reader_memory work.old }
{
    let q = query::query(bytes, work, x, y);
    if q.found == 0 {
        return with_height(q, 0);
    }
    let f = q.face as usize;
    let h = face_height(bytes, f, wire::widened(x), wire::widened(y));
    with_height(q, h as i32)
}
