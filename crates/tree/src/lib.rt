// One tree over a floor's faces, and boxes that hold: rules 13 and 14.
#![tactic(auto)]

ghost use Rattle.std.specs.Prelude.{◌≡◌, not, ◌&&◌, ◌<◌, ◌≤◌, length};
ghost use Rattle.verdict.specs.Lowest.{first};
ghost use Rattle.verdict.specs.Refusals.{verdict_of};
ghost use Rattle.verdict.specs.Lists.{once};
ghost use Rattle.verdict.specs.Memory.{work_size, SamePast, fresh, marked};
ghost use Rattle.tables.specs.Header.{RightHeader};
ghost use Rattle.tables.specs.Parts.{parts_of};
ghost use Rattle.boxes.specs.Box.{holds_point};
ghost use Rattle.mesh.specs.Mesh.{Finite, Cornered};
ghost use Rattle.nodes.specs.Nodes.{face_of, left_of, right_of, nodes_of};
ghost use Rattle.nodes.specs.Plain.{Closed};
ghost use Rattle.tree.specs.Tree.{ends, deep, leaf_faces, one_tree};
ghost use Rattle.tree.specs.Boxes.{box_of, vertex_float, holds_corner, holds_face, holds_children, too_small, rules13to14};
ghost use Rattle.tree.specs.Trail.{trail};

use boxes::Box;
use verdict::{Refusal, Verdict, refuse_at, refuse_if};

// The most steps from the root to a node.
const DEPTH: usize = 64;

// Marks n and the nodes below it; false at a node that is marked already, or at an inner node where the depth is used up.
fn walk(bytes: &[u8], work: &mut [u8], n: usize, depth: usize) -> bool
    requires closed { RightHeader bytes.now × Closed (parts_of bytes.now) }
    requires below { (n < (parts_of bytes.now).nodes) × ((parts_of bytes.now).nodes ≤ length work.old) }
    ensures answer { result ≡ fresh (trail (nodes_of (parts_of bytes.now)) depth n) work.old }
    ensures marks { work.new ≡ marked (trail (nodes_of (parts_of bytes.now)) depth n) work.old }
{
    if work[n] != 0 {
        return false;
    }
    work[n] = 1;
    if !nodes::is_inner_node(bytes, n) {
        return true;
    }
    if depth == 0 {
        return false;
    }
    let l = nodes::left_of(bytes, n);
    if !walk(bytes, work, l, depth - 1) {
        return false;
    }
    let r = nodes::right_of(bytes, n);
    walk(bytes, work, r, depth - 1)
}

// Marks the face of each leaf; false at a face that is marked already.
fn mark_faces(bytes: &[u8], work: &mut [u8]) -> bool
    requires closed { RightHeader bytes.now × Closed (parts_of bytes.now) }
    requires room { (parts_of bytes.now).faces ≤ length work.old }
    ensures answer { result ≡ fresh (leaf_faces (nodes_of (parts_of bytes.now)) (face_of (parts_of bytes.now)) (parts_of bytes.now).nodes) work.old }
    ensures marks { work.new ≡ marked (leaf_faces (nodes_of (parts_of bytes.now)) (face_of (parts_of bytes.now)) (parts_of bytes.now).nodes) work.old }
{
    for n in 0..nodes::node_count(bytes) {
        if !nodes::is_inner_node(bytes, n) {
            let f = nodes::face_of(bytes, n);
            if work[f] != 0 {
                return false;
            }
            work[f] = 1;
        }
    }
    true
}

// Whether every node is reached from the root by exactly one path, and none by more than 64 steps.
fn spans(bytes: &[u8], work: &mut [u8], root: usize) -> bool
    requires closed { RightHeader bytes.now × Closed (parts_of bytes.now) }
    requires room { (root < (parts_of bytes.now).nodes) × (work_size ≤ length work.old) }
    ensures answer { result ≡ (not (deep (nodes_of (parts_of bytes.now)) 64 root) && once (parts_of bytes.now).nodes (ends (nodes_of (parts_of bytes.now)) 64 root)) }
    ensures memory { SamePast work.new work.old }
{
    let nodes = nodes::node_count(bytes);
    verdict::clear_to(work, nodes);
    let walked = walk(bytes, work, root, DEPTH);
    let full = verdict::all_marked(work, nodes);
    if walked { full } else { false }
}

// Whether every face stands in exactly one leaf.
fn covers(bytes: &[u8], work: &mut [u8]) -> bool
    requires closed { RightHeader bytes.now × Closed (parts_of bytes.now) }
    requires room { work_size ≤ length work.old }
    ensures answer { result ≡ once (parts_of bytes.now).faces (leaf_faces (nodes_of (parts_of bytes.now)) (face_of (parts_of bytes.now)) (parts_of bytes.now).nodes) }
    ensures memory { SamePast work.new work.old }
{
    let faces = nodes::face_count(bytes);
    verdict::clear_to(work, faces);
    let apart = mark_faces(bytes, work);
    let full = verdict::all_marked(work, faces);
    if apart { full } else { false }
}

// 13: whether the nodes, hanging from the one that the root field names, are one tree.
fn one_tree(bytes: &[u8], work: &mut [u8]) -> bool
    requires closed { RightHeader bytes.now × Closed (parts_of bytes.now) }
    requires room { work_size ≤ length work.old }
    ensures answer { result ≡ one_tree (nodes_of (parts_of bytes.now)) (face_of (parts_of bytes.now)) (parts_of bytes.now).root (parts_of bytes.now).nodes (parts_of bytes.now).faces }
    ensures memory { SamePast work.new work.old }
{
    if nodes::node_count(bytes) == 0 {
        return true;
    }
    let root = tables::root_of(bytes) as usize;
    let nodes = spans(bytes, work, root);
    let leaves = covers(bytes, work);
    if nodes { leaves } else { false }
}

// Node n's box.
#[tactic(auto, using(crate::proofs::Held::node_finite), unfolding(crate::specs::Boxes::box_of))]
pub fn box_of(bytes: &[u8], n: usize) -> Box
    requires finite { Finite (parts_of bytes.now) }
    requires below { RightHeader bytes.now × (n < (parts_of bytes.now).nodes) }
    ensures { result ≡ box_of (parts_of bytes.now) n }
{
    let a = tables::word_of(bytes, 5, n, 0);
    let b = tables::word_of(bytes, 5, n, 1);
    let c = tables::word_of(bytes, 5, n, 2);
    let d = tables::word_of(bytes, 5, n, 3);
    let e = tables::word_of(bytes, 5, n, 4);
    let f = tables::word_of(bytes, 5, n, 5);
    boxes::box_of_bits(a, b, c, d, e, f)
}

// Whether a box holds vertex v.
#[tactic(auto, using(crate::proofs::Held::vertex_finite))]
fn holds_vertex(bytes: &[u8], own: Box, v: usize) -> bool
    requires finite { Finite (parts_of bytes.now) }
    requires below { RightHeader bytes.now × (v < (parts_of bytes.now).vertices) }
    ensures { result ≡ holds_point own (vertex_float (parts_of bytes.now) v 0) (vertex_float (parts_of bytes.now) v 1) (vertex_float (parts_of bytes.now) v 2) }
{
    let x = grid::float_of_bits(tables::word_of(bytes, 0, v, 0));
    let y = grid::float_of_bits(tables::word_of(bytes, 0, v, 1));
    let z = grid::float_of_bits(tables::word_of(bytes, 0, v, 2));
    boxes::holds_point(own, x, y, z)
}

// Whether node n's box holds corner e of face f.
#[tactic(auto, unfolding(crate::specs::Boxes::holds_corner))]
fn holds_corner(bytes: &[u8], n: usize, f: usize, e: usize) -> bool
    requires sound { Finite (parts_of bytes.now) × Cornered (parts_of bytes.now) }
    requires below { RightHeader bytes.now × (n < (parts_of bytes.now).nodes) × (f < (parts_of bytes.now).faces) × (e < 3) }
    ensures { result ≡ holds_corner (parts_of bytes.now) n f e }
{
    let own = box_of(bytes, n);
    let v = tables::corner_of(bytes, f, e);
    holds_vertex(bytes, own, v)
}

// Whether a leaf's box holds its face's three corners.
fn holds_face(bytes: &[u8], n: usize, f: usize) -> bool
    requires sound { Finite (parts_of bytes.now) × Cornered (parts_of bytes.now) }
    requires below { RightHeader bytes.now × (n < (parts_of bytes.now).nodes) × (f < (parts_of bytes.now).faces) × (f ≡ face_of (parts_of bytes.now) n) }
    ensures { result ≡ holds_face (parts_of bytes.now) n }
{
    (0..3).all(|e| holds_corner(bytes, n, f, e))
}

// Whether an inner node's box holds both children's.
#[tactic(auto, using(crate::proofs::Held::no_left, crate::proofs::Held::by_right))]
fn holds_children(bytes: &[u8], n: usize) -> bool
    requires sound { Finite (parts_of bytes.now) }
    requires below { RightHeader bytes.now × (n < (parts_of bytes.now).nodes) × (left_of (parts_of bytes.now) n < (parts_of bytes.now).nodes) × (right_of (parts_of bytes.now) n < (parts_of bytes.now).nodes) }
    ensures { result ≡ holds_children (parts_of bytes.now) n }
{
    let own = box_of(bytes, n);
    let left = box_of(bytes, nodes::left_of(bytes, n));
    if !boxes::holds_box(own, left) {
        return false;
    }
    let right = box_of(bytes, nodes::right_of(bytes, n));
    boxes::holds_box(own, right)
}

// Whether a node's box is too small.
#[tactic(auto, using(crate::proofs::Held::small_inner, crate::proofs::Held::small_leaf))]
fn too_small(bytes: &[u8], n: usize) -> bool
    requires sound { Finite (parts_of bytes.now) × Cornered (parts_of bytes.now) × Closed (parts_of bytes.now) }
    requires below { RightHeader bytes.now × (n < (parts_of bytes.now).nodes) }
    ensures { result ≡ too_small (parts_of bytes.now) n }
{
    if nodes::is_inner_node(bytes, n) {
        return !holds_children(bytes, n);
    }
    !holds_face(bytes, n, nodes::face_of(bytes, n))
}

// The lowest node whose box is too small.
fn first_small(bytes: &[u8]) -> Option<usize>
    requires sound { Finite (parts_of bytes.now) × Cornered (parts_of bytes.now) × Closed (parts_of bytes.now) }
    requires header { RightHeader bytes.now }
    ensures { result ≡ first (parts_of bytes.now).nodes (too_small (parts_of bytes.now)) }
{
    (0..nodes::node_count(bytes)).find(|n| too_small(bytes, *n))
}

// Rules 13 and 14 of a floor whose rules 7 to 12 were accepted.
#[tactic(auto, using(verdict::proofs::Results::here, verdict::proofs::Results::past, verdict::proofs::Results::each_by_first), unfolding(crate::specs::Tree::rule13, crate::specs::Boxes::rule14, crate::specs::Boxes::rules13to14))]
pub fn tree_verdict(bytes: &[u8], work: &mut [u8]) -> Verdict
    requires sound { Finite (parts_of bytes.now) × Cornered (parts_of bytes.now) × Closed (parts_of bytes.now) }
    requires room { RightHeader bytes.now × (work_size ≤ length work.old) }
    ensures answer { verdict_of result ≡ rules13to14 (parts_of bytes.now) }
    ensures memory { SamePast work.new work.old }
{
    refuse_if(!one_tree(bytes, work), Refusal::OneTree, 0)?;
    refuse_at(first_small(bytes), Refusal::Box)
}
