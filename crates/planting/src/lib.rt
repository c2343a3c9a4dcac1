// The tree of a floor that comes without one (M-113): each range of faces cut in half, tight boxes, written into lent memory.
#![tactic(auto)]

ghost use Rattle.std.specs.Prelude.{◌≡◌, [], ◌∷◌, ◌+◌, ◌*◌, ◌<◌, ◌≤◌, length};
ghost use Rattle.std.specs.Float.{binary32};
ghost use Rattle.std.specs.Float.Ieee.{to_bits};
ghost use Rattle.wire.specs.Bytes.{put};
ghost use Rattle.wire.specs.Words.{bytes_of};
ghost use Rattle.tables.specs.Parts.{parts_of};
ghost use Rattle.planting.specs.Boxes.{coordinate_of, lesser, greater, around, vertex_box, face_box, range_box, longest, plane_for};
ghost use Rattle.planting.specs.Planting.{box_words, leaf_words, inner_words, range_words, tree_words};
ghost use Rattle.planting.specs.Sides.{Sides, Good};
ghost use Rattle.planting.specs.Ready.{Ready, Range};

use boxes::Box;

// The unknown number of every node.
const UNKNOWN: u32 = 4;

// How many bytes a node takes.
const NODE: usize = 44;

// The lesser and the greater of two floats.
#[tactic(auto, unfolding(crate::specs::Boxes::lesser))]
fn lesser_of(x: f32, y: f32) -> f32
    ensures { result ≡ lesser x y }
{
    if x <= y {
        return x;
    }
    y
}

#[tactic(auto, unfolding(crate::specs::Boxes::greater))]
fn greater_of(x: f32, y: f32) -> f32
    ensures { result ≡ greater x y }
{
    if x <= y {
        return y;
    }
    x
}

// The tight box around two.
#[tactic(auto, unfolding(crate::specs::Boxes::around))]
fn around_both(a: Box, b: Box) -> Box
    ensures { result ≡ around a b }
{
    let least_x = lesser_of(a.least_x, b.least_x);
    let least_y = lesser_of(a.least_y, b.least_y);
    let least_z = lesser_of(a.least_z, b.least_z);
    let greatest_x = greater_of(a.greatest_x, b.greatest_x);
    let greatest_y = greater_of(a.greatest_y, b.greatest_y);
    let greatest_z = greater_of(a.greatest_z, b.greatest_z);
    Box {
        least_x,
        least_y,
        least_z,
        greatest_x,
        greatest_y,
        greatest_z,
    }
}

// Coordinate c of vertex v, negative zero written as zero.
#[tactic(auto, using(tree::proofs::Held::vertex_finite, crate::proofs::Order::plain_finite))]
fn coordinate(bytes: &[u8], v: usize, c: usize) -> f32
    requires { Ready bytes.now × (v < (parts_of bytes.now).vertices) × (c < 3) }
    ensures { result ≡ coordinate_of (parts_of bytes.now) v c }
{
    let word = tables::word_of(bytes, 0, v, c);
    let plain = grid::plain_of(word);
    grid::float_of_bits(plain)
}

// The box of vertex v.
#[tactic(auto, unfolding(crate::specs::Boxes::point_box, crate::specs::Boxes::vertex_box))]
fn vertex_box(bytes: &[u8], v: usize) -> Box
    requires { Ready bytes.now × (v < (parts_of bytes.now).vertices) }
    ensures { result ≡ vertex_box (parts_of bytes.now) v }
{
    let x = coordinate(bytes, v, 0);
    let y = coordinate(bytes, v, 1);
    let z = coordinate(bytes, v, 2);
    Box {
        least_x: x,
        least_y: y,
        least_z: z,
        greatest_x: x,
        greatest_y: y,
        greatest_z: z,
    }
}

// The box of face f.
#[tactic(auto, unfolding(crate::specs::Boxes::face_box))]
fn face_box(bytes: &[u8], f: usize) -> Box
    requires { Ready bytes.now × (f < (parts_of bytes.now).faces) }
    ensures { result ≡ face_box (parts_of bytes.now) f }
{
    let u = tables::corner_of(bytes, f, 0);
    let v = tables::corner_of(bytes, f, 1);
    let w = tables::corner_of(bytes, f, 2);
    let a = vertex_box(bytes, u);
    let b = vertex_box(bytes, v);
    let c = vertex_box(bytes, w);
    let first = around_both(a, b);
    around_both(first, c)
}

// The axis of the longest of three sides, the first on a tie.
#[tactic(auto, unfolding(crate::specs::Boxes::longest))]
fn longest_of(x: f32, y: f32, z: f32) -> u32
    ensures { (result ≡ longest x y z) × (result ≤ 3) }
{
    if y <= x && z <= x {
        return 1;
    }
    if z <= y {
        return 2;
    }
    3
}

// The plane that cuts a box.
#[tactic(auto, unfolding(crate::specs::Boxes::plane_for))]
fn plane_of(b: Box) -> u32
    ensures { result ≡ plane_for b }
{
    longest_of(
        b.greatest_x - b.least_x,
        b.greatest_y - b.least_y,
        b.greatest_z - b.least_z,
    )
}

// Three floats, as words.
#[tactic(auto, using(grid::proofs::Grid::finite_number, crate::proofs::Writing::three_words))]
fn put_point(out: &mut [u8], place: usize, x: f32, y: f32, z: f32)
    requires { Good 0 x × Good 1 y × Good 2 z × (place + 12 ≤ length out.old) }
    ensures { out.new ≡ put out.old place (bytes_of (to_bits binary32 x ∷ to_bits binary32 y ∷ to_bits binary32 z ∷ [])) }
{
    let a = f32::to_bits(x);
    let b = f32::to_bits(y);
    let c = f32::to_bits(z);
    wire::put_u32(out, place, a);
    wire::put_u32(out, place + 4, b);
    wire::put_u32(out, place + 8, c);
}

// A box's six words.
fn put_box(out: &mut [u8], place: usize, b: Box)
    requires { Sides Good b × (place + 24 ≤ length out.old) }
    ensures { out.new ≡ put out.old place (bytes_of (box_words b)) }
{
    put_point(out, place, b.least_x, b.least_y, b.least_z);
    put_point(out, place + 12, b.greatest_x, b.greatest_y, b.greatest_z);
}

// The other five words of a node.
#[tactic(auto, using(crate::proofs::Writing::five_words))]
fn put_rest(out: &mut [u8], place: usize, face: u32, plane: u32, left: u32, right: u32)
    requires { place + 20 ≤ length out.old }
    ensures { out.new ≡ put out.old place (bytes_of (face ∷ 4 ∷ plane ∷ left ∷ right ∷ [])) }
{
    wire::put_u32(out, place, face);
    wire::put_u32(out, place + 4, UNKNOWN);
    wire::put_u32(out, place + 8, plane);
    wire::put_u32(out, place + 12, left);
    wire::put_u32(out, place + 16, right);
}

// A leaf.
fn put_leaf(out: &mut [u8], place: usize, b: Box, f: u32)
    requires { Sides Good b × (place + 44 ≤ length out.old) }
    ensures { out.new ≡ put out.old place (bytes_of (leaf_words b f)) }
{
    put_box(out, place, b);
    put_rest(out, place + 24, f, 0, wire::NONE, wire::NONE);
}

// An inner node, the `at`-th.
fn put_inner(out: &mut [u8], place: usize, b: Box, at: usize, half: usize)
    requires { Sides Good b × (at + 2 * half ≤ 8191) × (place + 44 ≤ length out.old) }
    ensures { out.new ≡ put out.old place (bytes_of (inner_words b at half)) }
{
    let plane = plane_of(b);
    put_box(out, place, b);
    put_rest(
        out,
        place + 24,
        wire::NONE,
        plane,
        (at + 1) as u32,
        (at + 2 * half) as u32,
    );
}

// The nodes of n faces from face `from` on, numbered from `at` on, written into a table of nodes that starts at `start`: left
// subtree, right subtree, then the parent before them. The answer is their box.
fn put_range(bytes: &[u8], out: &mut [u8], start: usize, from: usize, n: usize, at: usize) -> Box
    requires { Ready bytes.now × Range bytes.now out.old start from n at }
    ensures whole { result ≡ range_box (parts_of bytes.now) 12 from n }
    ensures memory { out.new ≡ put out.old (start + 44 * at) (bytes_of (range_words (parts_of bytes.now) 12 from n at)) }
{
    if n <= 1 {
        let b = face_box(bytes, from);
        put_leaf(out, start + NODE * at, b, from as u32);
        return b;
    }
    let half = n / 2;
    let rest = n - half;
    let lower = put_range(bytes, out, start, from, half, at + 1);
    let upper = put_range(bytes, out, start, from + half, rest, at + 2 * half);
    let b = around_both(lower, upper);
    put_inner(out, start + NODE * at, b, at, half);
    b
}

// The nodes of a floor's tree, written from `start` on; where the next table goes.
pub fn put_tree(bytes: &[u8], out: &mut [u8], start: usize) -> usize
    requires { Ready bytes.now × (start ≤ 737372) × (start + 4 * length (tree_words (parts_of bytes.now)) ≤ length out.old) }
    ensures next { result ≡ start + 4 * length (tree_words (parts_of bytes.now)) }
    ensures memory { out.new ≡ put out.old start (bytes_of (tree_words (parts_of bytes.now))) }
{
    let faces = nodes::face_count(bytes);
    if faces == 0 {
        return start;
    }
    put_range(bytes, out, start, 0, faces, 0);
    start + NODE * (2 * faces - 1)
}
