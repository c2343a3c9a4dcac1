// Rules 7 to 10 of the floor's reader: finite floats, corners, materials.
#![tactic(auto)]

ghost use Rattle.std.specs.Prelude.{◌≡◌, ◌+◌, ◌*◌, ◌^◌, ◌<◌, ◌≤◌, length, IfSome};
ghost use Rattle.std.specs.Option.{option_map};
ghost use Rattle.verdict.specs.Lowest.{first};
ghost use Rattle.verdict.specs.Refusals.{verdict_of};
ghost use Rattle.tables.specs.Tables.{table_at, width};
ghost use Rattle.tables.specs.Header.{floor_tables, RightHeader};
ghost use Rattle.tables.specs.Parts.{parts_of, count_of, word_place};
ghost use Rattle.mesh.specs.Floats.{wild, wild_head, wild_from, wild_in, float_place, rule7_head, rule7_in, rule7};
ghost use Rattle.mesh.specs.Faces.{wrong_corner, wrong_corners, walkable, strange, misplaced};
ghost use Rattle.mesh.specs.Mesh.{rules7to10};

use verdict::{Refusal, Verdict, refuse_at};

// Which of the materials 0 to 22 are walkable: bit m is set where material m is. A number, for an array would be built anew at each look.
const WALKABLE: u32 = 0b111_0101_0111_1110_0111_1010;

#[tactic(auto, unfolding(crate::specs::Floats::wild))]
fn is_wild(bits: u32) -> bool
    ensures { result ≡ wild bits }
{
    !grid::is_finite(bits)
}

#[tactic(auto, unfolding(crate::specs::Floats::wild_head))]
fn is_wild_head(bytes: &[u8], i: usize) -> bool
    requires { RightHeader bytes.now × (i < 15) }
    ensures { result ≡ wild_head (parts_of bytes.now) i }
{
    is_wild(tables::float_word(bytes, i))
}

// The first of the header's floats that is wild.
fn first_wild_head(bytes: &[u8]) -> Option<usize>
    requires { RightHeader bytes.now }
    ensures { result ≡ first 15 (wild_head (parts_of bytes.now)) }
{
    (0..15).find(|i| is_wild_head(bytes, *i))
}

// Where the header's float i lies.
fn head_place(i: usize) -> usize
    requires { i < 15 }
    ensures { result ≡ 12 + 4 * i }
{
    12 + 4 * i
}

// 7, of the header.
fn head_verdict(bytes: &[u8]) -> Verdict
    requires { RightHeader bytes.now }
    ensures { verdict_of result ≡ rule7_head (parts_of bytes.now) }
{
    let place = first_wild_head(bytes).map(head_place);
    refuse_at(place, Refusal::NotFinite)
}

// The first wild one of n words from `at` on.
fn first_wild_word(bytes: &[u8], at: usize, n: usize) -> Option<usize>
    requires { at + 4 * n ≤ length bytes.now }
    ensures { result ≡ first n (wild_from bytes.now at) }
{
    (0..n).find(|j| is_wild(wire::u32_at(bytes, at + 4 * j)))
}

// Where the first float of table k that is wild lies. Where the table lies is read once, and not for each float.
fn first_wild(bytes: &[u8], k: usize, per: usize) -> Option<usize>
    requires { RightHeader bytes.now × (k < 9) × (0 < per) × (per ≤ width (table_at floor_tables k)) }
    ensures place { result ≡ option_map (float_place (word_place bytes.now) k per) (first (count_of (parts_of bytes.now) k * per) (wild_in (parts_of bytes.now) k per)) }
    ensures inside { IfSome result (λ place. place < 2 ^ 32) }
{
    let size = tables::table_at(k).size;
    let start = tables::start_of(bytes, k);
    for i in 0..tables::count_of(bytes, k) {
        if let Some(e) = first_wild_word(bytes, start + i * size, per) {
            return Some(tables::place_of(bytes, k, i, e));
        }
    }
    None
}

// 7, of one table.
#[tactic(auto, using(verdict::proofs::Results::each_by_place), unfolding(crate::specs::Floats::rule7_in))]
fn table_verdict(bytes: &[u8], k: usize, per: usize) -> Verdict
    requires { RightHeader bytes.now × (k < 9) × (0 < per) × (per ≤ 6) × (per ≤ width (table_at floor_tables k)) }
    ensures { verdict_of result ≡ rule7_in (word_place bytes.now) (parts_of bytes.now) k per }
{
    refuse_at(first_wild(bytes, k, per), Refusal::NotFinite)
}

// 7
#[tactic(auto, using(verdict::proofs::Results::here, verdict::proofs::Results::past), unfolding(crate::specs::Floats::rule7))]
fn floats_verdict(bytes: &[u8]) -> Verdict
    requires { RightHeader bytes.now }
    ensures { verdict_of result ≡ rule7 (word_place bytes.now) (parts_of bytes.now) }
{
    head_verdict(bytes)?;
    table_verdict(bytes, 0, 3)?;
    table_verdict(bytes, 3, 3)?;
    table_verdict(bytes, 4, 1)?;
    table_verdict(bytes, 5, 6)
}

// Corner e of face f names no vertex, or is the next corner too.
#[tactic(auto, using(crate::proofs::Corners::too_large, crate::proofs::Corners::by_next))]
fn wrong_corner(bytes: &[u8], f: usize, e: usize) -> bool
    requires { RightHeader bytes.now × (f < (parts_of bytes.now).faces) × (e < 3) }
    ensures { result ≡ wrong_corner (parts_of bytes.now) f e }
{
    let n = tables::count_of(bytes, 0);
    let own = tables::corner_of(bytes, f, e);
    if n <= own {
        return true;
    }
    own == tables::corner_of(bytes, f, (e + 1) % 3)
}

fn wrong_corners(bytes: &[u8], f: usize) -> bool
    requires { RightHeader bytes.now × (f < (parts_of bytes.now).faces) }
    ensures { result ≡ wrong_corners (parts_of bytes.now) f }
{
    (0..3).any(|e| wrong_corner(bytes, f, e))
}

// The lowest face with wrong corners.
fn first_cornered(bytes: &[u8]) -> Option<usize>
    requires { RightHeader bytes.now }
    ensures { result ≡ first (parts_of bytes.now).faces (wrong_corners (parts_of bytes.now)) }
{
    (0..tables::count_of(bytes, 1)).find(|f| wrong_corners(bytes, *f))
}

// Whether a material is walkable.
#[tactic(auto, using(crate::proofs::Walkable::flag_walkable, crate::proofs::Walkable::past_walkable))]
pub fn is_walkable(m: u32) -> bool
    ensures { result ≡ walkable m }
{
    if m < 23 {
        return (WALKABLE >> m) % 2 == 1;
    }
    false
}

#[tactic(auto, unfolding(crate::specs::Faces::strange))]
fn is_strange(bytes: &[u8], f: usize) -> bool
    requires { RightHeader bytes.now × (f < (parts_of bytes.now).faces) }
    ensures { result ≡ strange (parts_of bytes.now) f }
{
    22 < tables::material_of(bytes, f)
}

// The lowest face with a strange material.
fn first_strange(bytes: &[u8]) -> Option<usize>
    requires { RightHeader bytes.now }
    ensures { result ≡ first (parts_of bytes.now).faces (strange (parts_of bytes.now)) }
{
    (0..tables::count_of(bytes, 1)).find(|f| is_strange(bytes, *f))
}

#[tactic(auto, using(crate::proofs::Walkable::misplaced_under, crate::proofs::Walkable::misplaced_past))]
fn is_misplaced(bytes: &[u8], f: usize) -> bool
    requires { RightHeader bytes.now × (f < (parts_of bytes.now).faces) }
    ensures { result ≡ misplaced (parts_of bytes.now) f }
{
    let a = tables::count_of(bytes, 6);
    let w = is_walkable(tables::material_of(bytes, f));
    if f < a {
        return !w;
    }
    w
}

// The lowest misplaced face.
fn first_misplaced(bytes: &[u8]) -> Option<usize>
    requires { RightHeader bytes.now }
    ensures { result ≡ first (parts_of bytes.now).faces (misplaced (parts_of bytes.now)) }
{
    (0..tables::count_of(bytes, 1)).find(|f| is_misplaced(bytes, *f))
}

// Rules 7 to 10 of a file with a right header.
#[tactic(auto, using(verdict::proofs::Results::here, verdict::proofs::Results::past, verdict::proofs::Results::first_under, verdict::proofs::Results::each_by_first), unfolding(crate::specs::Mesh::rules7to10, crate::specs::Faces::rule8, crate::specs::Faces::rule9, crate::specs::Faces::rule10))]
pub fn mesh_verdict(bytes: &[u8]) -> Verdict
    requires { RightHeader bytes.now }
    ensures { verdict_of result ≡ rules7to10 (word_place bytes.now) (parts_of bytes.now) }
{
    floats_verdict(bytes)?;
    refuse_at(first_cornered(bytes), Refusal::Corner)?;
    refuse_at(first_strange(bytes), Refusal::Material)?;
    refuse_at(first_misplaced(bytes), Refusal::WalkableFirst)
}
