// The point query: rules 29 and 30, the lowest face that holds a point, and the number of nodes visited on the way.
#![tactic(auto)]

ghost use Rattle.std.specs.Prelude.{◌≡◌, ◌&&◌, ◌+◌, min, ◌<◌, ◌≤◌, length};
ghost use Rattle.verdict.specs.Lowest.{first};
ghost use Rattle.verdict.specs.Verdict.{refused, accepted, ◌then◌};
ghost use Rattle.verdict.specs.Refusals.{number_of, verdict_of};
ghost use Rattle.wire.specs.Signed.{Within};
ghost use Rattle.grid.specs.Grid.{on_grid, scaled, within};
ghost use Rattle.tables.specs.Header.{RightHeader};
ghost use Rattle.tables.specs.Parts.{parts_of};
ghost use Rattle.nodes.specs.Nodes.{nodes_of, face_of};
ghost use Rattle.tree.specs.Tree.{ends};
ghost use Rattle.tree.specs.Boxes.{vertex_float};
ghost use Rattle.tree.specs.Visits.{cut, score, least};
ghost use Rattle.floor.specs.Reader.{reader_memory};
ghost use Rattle.floor.specs.Accepted.{Accepted};
ghost use Rattle.query.specs.Rules.{rule29, off_grid, rule30};
ghost use Rattle.query.specs.Points.{corner_at, face_holds, box_holds, reply_of, point_of, point_answer, Ready, Placed};

use verdict::{Refusal, Refused, Verdict, refuse_at, refuse_if};

// What the query answers: a number, a place, whether a face was found, the face, and how many nodes were visited.
#[repr(C)]
#[derive(Clone, Copy)]
pub struct Point {
    pub number: u32,
    pub place: u32,
    pub found: u32,
    pub face: u32,
    pub visited: u32,
}

// The point asked for: in sixty-fourths, and the same as floats.
#[derive(Clone, Copy)]
pub struct Spot {
    pub x: i64,
    pub y: i64,
    pub fx: f32,
    pub fy: f32,
}

// A corner seen from above, in sixty-fourths.
#[derive(Clone, Copy)]
pub struct Flat {
    pub x: i64,
    pub y: i64,
}

// What a walk has seen: how many nodes, and the lowest face that holds the point (the number of faces where none does).
#[derive(Clone, Copy)]
pub struct Seen {
    pub count: usize,
    pub face: usize,
}

// How far x and y may lie from zero.
const REACH: u32 = 65536;

// The most steps from the root to a node.
const DEPTH: usize = 64;

// Whether x and y are within reach.
fn is_in_reach(x: i64, y: i64) -> bool
    ensures { result ≡ (within 65536 x && within 65536 y) }
{
    if !grid::is_within(x, REACH) {
        return false;
    }
    grid::is_within(y, REACH)
}

// Whether coordinate e of vertex v is on the grid.
fn is_on_grid(bytes: &[u8], v: usize, e: usize) -> bool
    requires { RightHeader bytes.now × (v < (parts_of bytes.now).vertices) × (e < 3) }
    ensures { result ≡ on_grid (vertex_float (parts_of bytes.now) v e) }
{
    grid::scaled_of(tables::word_of(bytes, 0, v, e)).is_some()
}

// Whether vertex v is off the grid.
#[tactic(auto, using(crate::proofs::Reaches::off_first, crate::proofs::Reaches::off_second, crate::proofs::Reaches::by_third))]
fn is_off_grid(bytes: &[u8], v: usize) -> bool
    requires { RightHeader bytes.now × (v < (parts_of bytes.now).vertices) }
    ensures { result ≡ off_grid (parts_of bytes.now) v }
{
    if !is_on_grid(bytes, v, 0) {
        return true;
    }
    if !is_on_grid(bytes, v, 1) {
        return true;
    }
    !is_on_grid(bytes, v, 2)
}

// The lowest vertex off the grid.
fn first_off_grid(bytes: &[u8]) -> Option<usize>
    requires { RightHeader bytes.now }
    ensures { result ≡ first (parts_of bytes.now).vertices (off_grid (parts_of bytes.now)) }
{
    (0..tables::count_of(bytes, 0)).find(|v| is_off_grid(bytes, *v))
}

// Rules 29 and 30.
#[tactic(auto, using(verdict::proofs::Results::here, verdict::proofs::Results::past, verdict::proofs::Results::each_by_first), unfolding(crate::specs::Rules::rule29, crate::specs::Rules::rule30))]
fn point_verdict(bytes: &[u8], x: i64, y: i64) -> Verdict
    requires { RightHeader bytes.now }
    ensures { verdict_of result ≡ (rule29 x y then rule30 (parts_of bytes.now)) }
{
    refuse_if(!is_in_reach(x, y), Refusal::PointBeyond, 0)?;
    refuse_at(first_off_grid(bytes), Refusal::VertexOffGrid)
}

// Coordinate e of vertex v, in sixty-fourths.
pub fn coordinate(bytes: &[u8], v: usize, e: usize) -> i64
    requires { Ready bytes.now × (v < (parts_of bytes.now).vertices) × (e < 3) }
    ensures { (result ≡ scaled (vertex_float (parts_of bytes.now) v e)) × Within 65536 result }
{
    grid::scaled_of(tables::word_of(bytes, 0, v, e)).unwrap()
}

// Corner c of face f, seen from above.
#[tactic(auto, using(wire::proofs::Signed::read_within, crate::proofs::Reaches::corner_read))]
fn flat_corner(bytes: &[u8], f: usize, c: usize) -> Flat
    requires { Ready bytes.now × (f < (parts_of bytes.now).faces) × (c < 3) }
    ensures place { (result.x ≡ corner_at (parts_of bytes.now) f c 0) × (result.y ≡ corner_at (parts_of bytes.now) f c 1) }
    ensures small { Within 65536 result.x × Within 65536 result.y }
{
    let v = tables::corner_of(bytes, f, c);
    let x = coordinate(bytes, v, 0);
    let y = coordinate(bytes, v, 1);
    Flat { x, y }
}

// Whether face f holds the point, seen from above, border included.
fn face_holds(bytes: &[u8], at: Spot, f: usize) -> bool
    requires { Ready bytes.now × Placed at × (f < (parts_of bytes.now).faces) }
    ensures { result ≡ face_holds (parts_of bytes.now) at.x at.y f }
{
    let a = flat_corner(bytes, f, 0);
    let b = flat_corner(bytes, f, 1);
    let c = flat_corner(bytes, f, 2);
    triangle::in_triangle(a.x, a.y, b.x, b.y, c.x, c.y, at.x, at.y)
}

// Whether the walk goes on below node n: an inner node whose box holds the point.
#[tactic(auto, using(crate::proofs::Sights::stays, crate::proofs::Sights::goes))]
fn goes_on(bytes: &[u8], at: Spot, n: usize) -> bool
    requires { Ready bytes.now × Placed at × (n < (parts_of bytes.now).nodes) }
    ensures { result ≡ (cut (nodes_of (parts_of bytes.now)) (box_holds (parts_of bytes.now) at.x at.y)).inner n }
{
    if !nodes::is_inner_node(bytes, n) {
        return false;
    }
    boxes::holds_xy(tree::box_of(bytes, n), at.fx, at.fy)
}

// What node n gives by itself: one node seen, and its face if it is a leaf whose face holds the point.
#[tactic(auto, using(crate::proofs::Sights::own_inner, crate::proofs::Sights::own_hit, crate::proofs::Sights::own_miss, crate::proofs::Sights::leaf_face))]
fn own(bytes: &[u8], at: Spot, n: usize) -> Seen
    requires { Ready bytes.now × Placed at × (n < (parts_of bytes.now).nodes) }
    ensures { (result.count ≡ 1) × (result.face ≡ score (parts_of bytes.now).faces (nodes_of (parts_of bytes.now)) (face_of (parts_of bytes.now)) (face_holds (parts_of bytes.now) at.x at.y) n) }
{
    let none = nodes::face_count(bytes);
    if nodes::is_inner_node(bytes, n) {
        return Seen {
            count: 1,
            face: none,
        };
    }
    let f = nodes::face_of(bytes, n);
    if face_holds(bytes, at, f) {
        return Seen { count: 1, face: f };
    }
    Seen {
        count: 1,
        face: none,
    }
}

// An inner node over what was seen below its children: one node more, and the lower face.
fn joined(a: Seen, b: Seen) -> Seen
    requires { a.count + b.count < 8191 }
    ensures { (result.count ≡ 1 + (a.count + b.count)) × (result.face ≡ min a.face b.face) }
{
    let count = 1 + (a.count + b.count);
    if a.face < b.face {
        return Seen {
            count,
            face: a.face,
        };
    }
    Seen {
        count,
        face: b.face,
    }
}

// Visits n, and where its box holds the point what hangs below it. It counts the nodes as it goes.
fn look(bytes: &[u8], at: Spot, n: usize, depth: usize) -> Seen
    requires ready { Ready bytes.now × Placed at × (n < (parts_of bytes.now).nodes) }
    requires few { length (ends (nodes_of (parts_of bytes.now)) depth n) ≤ 8191 }
    ensures visits { result.count ≡ length (ends (cut (nodes_of (parts_of bytes.now)) (box_holds (parts_of bytes.now) at.x at.y)) depth n) }
    ensures lowest { result.face ≡ least (parts_of bytes.now).faces (score (parts_of bytes.now).faces (nodes_of (parts_of bytes.now)) (face_of (parts_of bytes.now)) (face_holds (parts_of bytes.now) at.x at.y)) (ends (cut (nodes_of (parts_of bytes.now)) (box_holds (parts_of bytes.now) at.x at.y)) depth n) }
{
    if depth == 0 {
        return own(bytes, at, n);
    }
    if !goes_on(bytes, at, n) {
        return own(bytes, at, n);
    }
    let l = nodes::left_of(bytes, n);
    let a = look(bytes, at, l, depth - 1);
    let r = nodes::right_of(bytes, n);
    let b = look(bytes, at, r, depth - 1);
    joined(a, b)
}

// The point with its floats, made once.
fn spot_at(x: i64, y: i64) -> Spot
    requires { Within 65536 x × Within 65536 y }
    ensures { Placed result × (result.x ≡ x) × (result.y ≡ y) }
{
    let fx = grid::float_of(x);
    let fy = grid::float_of(y);
    Spot { x, y, fx, fy }
}

// What a walk from the root has seen, as an answer.
#[tactic(auto, using(crate::proofs::Replies::on_found, crate::proofs::Replies::on_none))]
fn told(seen: Seen, faces: usize) -> Point
    requires { (seen.count ≤ 8191) × (faces ≤ 4096) }
    ensures { result ≡ reply_of accepted seen.face faces seen.count }
{
    let visited = seen.count as u32;
    if seen.face < faces {
        return Point {
            number: 0,
            place: 0,
            found: 1,
            face: seen.face as u32,
            visited,
        };
    }
    Point {
        number: 0,
        place: 0,
        found: 0,
        face: 0,
        visited,
    }
}

// The answer where nothing is refused.
#[tactic(auto, using(crate::proofs::Walks::no_faces, crate::proofs::Walks::root_under, crate::proofs::Walks::all_few, crate::proofs::Walks::few_seen, crate::proofs::Walks::walk_answer))]
fn walked(bytes: &[u8], x: i64, y: i64) -> Point
    requires { Ready bytes.now × Within 65536 x × Within 65536 y }
    ensures { result ≡ point_of accepted (parts_of bytes.now) x y }
{
    let faces = nodes::face_count(bytes);
    if faces == 0 {
        return told(Seen { count: 0, face: 0 }, 0);
    }
    let at = spot_at(x, y);
    let root = tables::root_of(bytes) as usize;
    let seen = look(bytes, at, root, DEPTH);
    told(seen, faces)
}

// A refusal.
fn refused(r: Refused) -> Point
    ensures { result ≡ reply_of (refused (number_of r.refusal) r.place) 0 0 0 }
{
    Point {
        number: r.refusal.number(),
        place: r.place,
        found: 0,
        face: 0,
        visited: 0,
    }
}

// The answer for an accepted floor: 29 and 30, then the walk.
fn asked(bytes: &[u8], x: i64, y: i64) -> Point
    requires { Accepted bytes.now }
    ensures { result ≡ point_of (rule29 x y then rule30 (parts_of bytes.now)) (parts_of bytes.now) x y }
{
    match point_verdict(bytes, x, y) {
        Ok(()) => walked(bytes, x, y),
        Err(r) => refused(r),
    }
}

// The query: any bytes, any work memory, any x and y, which are in sixty-fourths.
pub fn query(bytes: &[u8], work: &mut [u8], x: i32, y: i32) -> Point
    ensures answer { result ≡ point_answer bytes.now (length work.old) x y }
    ensures memory { work.new ≡ reader_memory work.old }
{
    match floor::read_verdict(bytes, work) {
        Ok(()) => asked(bytes, wire::widened(x), wire::widened(y)),
        Err(r) => refused(r),
    }
}
