// The nodes of the tree over a floor's faces: rules 11 and 12.
#![tactic(auto)]

ghost use Rattle.std.specs.Prelude.{◌≡◌, ◌*◌, ◌-◌, ◌<◌, ◌≤◌};
ghost use Rattle.verdict.specs.Lowest.{first};
ghost use Rattle.verdict.specs.Refusals.{verdict_of};
ghost use Rattle.tables.specs.Header.{RightHeader};
ghost use Rattle.tables.specs.Parts.{parts_of};
ghost use Rattle.nodes.specs.Nodes.{face_of, plane_of, left_of, right_of, nodes_of, is_plane, is_leaf, is_inner, neither, stray_root, rule11, rules11to12};

use verdict::{Refusal, Verdict, refuse_at, refuse_if};

// No face, no child.
const NONE: usize = wire::NONE as usize;

// How many nodes there are.
pub fn node_count(bytes: &[u8]) -> usize
    requires { RightHeader bytes.now }
    ensures { (result ≡ (parts_of bytes.now).nodes) × (result ≤ 8191) }
{
    tables::count_of(bytes, 5)
}

// How many faces there are.
pub fn face_count(bytes: &[u8]) -> usize
    requires { RightHeader bytes.now }
    ensures { (result ≡ (parts_of bytes.now).faces) × (result ≤ 4096) }
{
    tables::count_of(bytes, 1)
}

// A node's face, plane and children.
pub fn face_of(bytes: &[u8], n: usize) -> usize
    requires { RightHeader bytes.now × (n < (parts_of bytes.now).nodes) }
    ensures { result ≡ face_of (parts_of bytes.now) n }
{
    tables::word_of(bytes, 5, n, 6) as usize
}

fn plane_of(bytes: &[u8], n: usize) -> u32
    requires { RightHeader bytes.now × (n < (parts_of bytes.now).nodes) }
    ensures { result ≡ plane_of (parts_of bytes.now) n }
{
    tables::word_of(bytes, 5, n, 8)
}

pub fn left_of(bytes: &[u8], n: usize) -> usize
    requires { RightHeader bytes.now × (n < (parts_of bytes.now).nodes) }
    ensures { result ≡ left_of (parts_of bytes.now) n }
{
    tables::word_of(bytes, 5, n, 9) as usize
}

pub fn right_of(bytes: &[u8], n: usize) -> usize
    requires { RightHeader bytes.now × (n < (parts_of bytes.now).nodes) }
    ensures { result ≡ right_of (parts_of bytes.now) n }
{
    tables::word_of(bytes, 5, n, 10) as usize
}

// Whether a node has no face, so that it is to be inner.
#[tactic(auto, unfolding(crate::specs::Nodes::nodes_of))]
pub fn is_inner_node(bytes: &[u8], n: usize) -> bool
    requires { RightHeader bytes.now × (n < (parts_of bytes.now).nodes) }
    ensures { result ≡ (nodes_of (parts_of bytes.now)).inner n }
{
    face_of(bytes, n) == NONE
}

// 1, 2, 3 or -1, -2, -3 as 32 bits.
#[tactic(auto, using(verdict::proofs::Bools::and_yes), unfolding(crate::specs::Nodes::is_plane))]
fn is_plane(w: u32) -> bool
    ensures { result ≡ is_plane w }
{
    if w < 1 {
        return false;
    }
    if w <= 3 {
        return true;
    }
    0xFFFF_FFFD <= w
}

#[tactic(auto, using(verdict::proofs::Bools::and_no), unfolding(crate::specs::Nodes::is_leaf))]
fn is_leaf(bytes: &[u8], n: usize) -> bool
    requires { RightHeader bytes.now × (n < (parts_of bytes.now).nodes) }
    ensures { result ≡ is_leaf (parts_of bytes.now) n }
{
    if face_count(bytes) <= face_of(bytes, n) {
        return false;
    }
    if plane_of(bytes, n) != 0 {
        return false;
    }
    if left_of(bytes, n) != NONE {
        return false;
    }
    right_of(bytes, n) == NONE
}

#[tactic(auto, using(verdict::proofs::Bools::and_no), unfolding(crate::specs::Nodes::is_inner))]
fn is_inner(bytes: &[u8], n: usize) -> bool
    requires { RightHeader bytes.now × (n < (parts_of bytes.now).nodes) }
    ensures { result ≡ is_inner (parts_of bytes.now) n }
{
    if face_of(bytes, n) != NONE {
        return false;
    }
    if !is_plane(plane_of(bytes, n)) {
        return false;
    }
    let nodes = node_count(bytes);
    if nodes <= left_of(bytes, n) {
        return false;
    }
    right_of(bytes, n) < nodes
}

#[tactic(auto, unfolding(crate::specs::Nodes::neither))]
fn is_neither(bytes: &[u8], n: usize) -> bool
    requires { RightHeader bytes.now × (n < (parts_of bytes.now).nodes) }
    ensures { result ≡ neither (parts_of bytes.now) n }
{
    if is_leaf(bytes, n) {
        return false;
    }
    !is_inner(bytes, n)
}

// The lowest node that is neither leaf nor inner.
fn first_neither(bytes: &[u8]) -> Option<usize>
    requires { RightHeader bytes.now }
    ensures { result ≡ first (parts_of bytes.now).nodes (neither (parts_of bytes.now)) }
{
    (0..node_count(bytes)).find(|n| is_neither(bytes, *n))
}

// How many nodes so many faces have: one less than twice as many, none for none.
pub fn nodes_for(faces: usize) -> usize
    requires { faces ≤ 4096 }
    ensures { result ≡ 2 * faces - 1 }
{
    if faces == 0 {
        return 0;
    }
    2 * faces - 1
}

// Whether there are nodes, and the root is none of them.
#[tactic(auto, using(crate::proofs::Rule12::root_of_none, crate::proofs::Rule12::root_of_some))]
fn is_root_stray(bytes: &[u8]) -> bool
    requires { RightHeader bytes.now }
    ensures { result ≡ stray_root (parts_of bytes.now) }
{
    let nodes = node_count(bytes);
    let root = tables::root_of(bytes) as usize;
    if 0 < nodes {
        return nodes <= root;
    }
    false
}

// 11
#[tactic(auto, using(verdict::proofs::Results::here, verdict::proofs::Results::past), unfolding(crate::specs::Nodes::rule11))]
fn count_verdict(bytes: &[u8]) -> Verdict
    requires { RightHeader bytes.now }
    ensures { verdict_of result ≡ rule11 (parts_of bytes.now) }
{
    let right = nodes_for(face_count(bytes));
    refuse_if(node_count(bytes) != right, Refusal::NodeCount, 100)?;
    refuse_if(is_root_stray(bytes), Refusal::NodeCount, 108)
}

// 11 and 12
#[tactic(auto, using(verdict::proofs::Results::here, verdict::proofs::Results::past, verdict::proofs::Results::each_by_first), unfolding(crate::specs::Nodes::rules11to12, crate::specs::Nodes::rule12))]
pub fn nodes_verdict(bytes: &[u8]) -> Verdict
    requires { RightHeader bytes.now }
    ensures { verdict_of result ≡ rules11to12 (parts_of bytes.now) }
{
    count_verdict(bytes)?;
    refuse_at(first_neither(bytes), Refusal::NodeKind)
}
