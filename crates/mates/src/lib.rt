// A floor's corners mended in the work memory: the lowest equal vertex of each vertex, rules 8 and 15 asked of the changed corners, and the
// partner of each half-edge.
#![tactic(auto)]

ghost use Rattle.std.specs.Prelude.{◌≡◌, ◌+◌, ◌<◌, ◌≤◌, length};
ghost use Rattle.verdict.specs.Lowest.{lowest, first};
ghost use Rattle.verdict.specs.Verdict.{◌then◌};
ghost use Rattle.verdict.specs.Refusals.{verdict_of};
ghost use Rattle.verdict.specs.Memory.{work_size, SamePast};
ghost use Rattle.chains.specs.Chains.{one_more, Chained, Found};
ghost use Rattle.tables.specs.Header.{RightHeader};
ghost use Rattle.tables.specs.Parts.{parts_of, corner};
ghost use Rattle.mesh.specs.Faces.{wrong_corners, rule8};
ghost use Rattle.mesh.specs.Mesh.{Finite, Cornered};
ghost use Rattle.pairs.specs.Halves.{halves, runs, repeats, rule15};
ghost use Rattle.pairs.specs.Plain.{Apart};
ghost use Rattle.corners.specs.Corners.{same_point, lowest_same, recornered};
ghost use Rattle.corners.specs.Memory.{top, SameTop, Mapped, Mated};
ghost use Rattle.mates.specs.Keys.{point_word, point_chains, point_key, run_chains, run_key};
ghost use Rattle.mates.specs.Steps.{MappedTo, IsMate, Ready};

use verdict::{Refusal, Verdict, refuse_at};

// How many chains of vertices stand in the work memory, and later of half-edges.
const POINT_CHAINS: usize = 16384;

const RUN_CHAINS: usize = 4096;

// Coordinate e of vertex v as a word, with zero's for minus zero's.
fn point_word(bytes: &[u8], v: usize, e: usize) -> u32
    requires { RightHeader bytes.now × (v < (parts_of bytes.now).vertices) × (e < 3) }
    ensures { result ≡ point_word (parts_of bytes.now) v e }
{
    let w = tables::word_of(bytes, 0, v, e);
    grid::plain_of(w)
}

// Whether vertices v and u have equal coordinates.
fn is_same(bytes: &[u8], v: usize, u: usize) -> bool
    requires { RightHeader bytes.now × Finite (parts_of bytes.now) × (v < (parts_of bytes.now).vertices) × (u < (parts_of bytes.now).vertices) }
    ensures { result ≡ same_point (parts_of bytes.now) v u }
{
    if point_word(bytes, v, 0) != point_word(bytes, u, 0) {
        return false;
    }
    if point_word(bytes, v, 1) != point_word(bytes, u, 1) {
        return false;
    }
    point_word(bytes, v, 2) == point_word(bytes, u, 2)
}

// The chain of vertex v.
fn point_key(bytes: &[u8], v: usize) -> usize
    requires { RightHeader bytes.now × (v < (parts_of bytes.now).vertices) }
    ensures { (result ≡ point_key (parts_of bytes.now) v) × (result < point_chains) }
{
    let x = point_word(bytes, v, 0) as usize;
    let y = point_word(bytes, v, 1) as usize;
    let z = point_word(bytes, v, 2) as usize;
    (668265263 * x + 374761393 * y + 1013904223 * z) / 4294967296 % POINT_CHAINS
}

// A vertex under v with the coordinates of v, if there is one: the last of them, looked for along the chain of v.
fn find_same(bytes: &[u8], work: &[u8], v: usize) -> Option<usize>
    requires right_header { RightHeader bytes.now × Finite (parts_of bytes.now) × (v < (parts_of bytes.now).vertices) }
    requires chained { (work_size ≤ length work.now) × Chained point_chains (point_key (parts_of bytes.now)) work.now v }
    ensures { Found (same_point (parts_of bytes.now) v) v (one_more result) }
{
    let mut next = chains::last_of(work, point_key(bytes, v));
    // No count: a chain is followed from its last number back, until it ends.
    while let Some(u) = next {
        if is_same(bytes, v, u) {
            return Some(u);
        }
        next = chains::before_of(work, POINT_CHAINS, u);
    }
    None
}

// The lowest vertex with the coordinates of v, by the map of the vertices under v.
fn lowest_by(bytes: &[u8], work: &[u8], v: usize) -> usize
    requires right_header { RightHeader bytes.now × Finite (parts_of bytes.now) × (v < (parts_of bytes.now).vertices) }
    requires mapped { (work_size ≤ length work.now) × MappedTo (parts_of bytes.now) work.now v }
    ensures { result ≡ lowest_same (parts_of bytes.now) v }
{
    if let Some(u) = find_same(bytes, work, v) {
        return wire::u16_at(work, corners::MAP_AT + 2 * u);
    }
    v
}

// Maps vertex v, and puts it last in its chain.
fn map_vertex(bytes: &[u8], work: &mut [u8], v: usize)
    requires right_header { RightHeader bytes.now × Finite (parts_of bytes.now) × (v < (parts_of bytes.now).vertices) }
    requires mapped { (work_size ≤ length work.old) × MappedTo (parts_of bytes.now) work.old v }
    ensures { MappedTo (parts_of bytes.now) work.new (v + 1) × SamePast work.new work.old }
{
    let own = lowest_by(bytes, work, v);
    wire::put_u16(work, corners::MAP_AT + 2 * v, own);
    chains::put_last(work, POINT_CHAINS, point_key(bytes, v), v);
}

// Maps every vertex.
fn map_vertices(bytes: &[u8], work: &mut [u8])
    requires { RightHeader bytes.now × Finite (parts_of bytes.now) × (work_size ≤ length work.old) }
    ensures { Mapped (parts_of bytes.now) (top work.new) × SamePast work.new work.old }
{
    let n = tables::count_of(bytes, 0);
    verdict::clear_to(work, 2 * POINT_CHAINS);
    for v in 0..n {
        map_vertex(bytes, work, v);
    }
}

// Corner e of face f, mended.
fn corner_of(bytes: &[u8], work: &[u8], f: usize, e: usize) -> usize
    requires right_header { RightHeader bytes.now × Cornered (parts_of bytes.now) × (f < (parts_of bytes.now).faces) × (e < 3) }
    requires mapped { (work_size ≤ length work.now) × Mapped (parts_of bytes.now) (top work.now) }
    ensures { result ≡ corner (recornered (parts_of bytes.now)) f e }
{
    corners::lowest_of(bytes, work, tables::corner_of(bytes, f, e))
}

// Whether a mended corner is used twice in face f; none is too large.
fn is_pinched(bytes: &[u8], work: &[u8], f: usize) -> bool
    requires right_header { RightHeader bytes.now × Finite (parts_of bytes.now) × Cornered (parts_of bytes.now) × (f < (parts_of bytes.now).faces) }
    requires mapped { (work_size ≤ length work.now) × Mapped (parts_of bytes.now) (top work.now) }
    ensures { result ≡ wrong_corners (recornered (parts_of bytes.now)) f }
{
    let a = corner_of(bytes, work, f, 0);
    let b = corner_of(bytes, work, f, 1);
    let c = corner_of(bytes, work, f, 2);
    if a == b {
        return true;
    }
    if b == c {
        return true;
    }
    c == a
}

// The lowest face with a mended corner used twice, if one of n has one.
fn first_pinched(bytes: &[u8], work: &[u8], n: usize) -> Option<usize>
    requires right_header { RightHeader bytes.now × Finite (parts_of bytes.now) × Cornered (parts_of bytes.now) × (n ≡ (parts_of bytes.now).faces) }
    requires mapped { (work_size ≤ length work.now) × Mapped (parts_of bytes.now) (top work.now) }
    ensures { result ≡ first n (wrong_corners (recornered (parts_of bytes.now))) }
{
    (0..n).find(|f| is_pinched(bytes, work, *f))
}

// Whether half-edge h runs from vertex a to vertex b, its ends mended.
fn runs_so(bytes: &[u8], work: &[u8], a: usize, b: usize, h: usize) -> bool
    requires right_header { RightHeader bytes.now × Cornered (parts_of bytes.now) × (h < halves (parts_of bytes.now)) }
    requires mapped { (work_size ≤ length work.now) × Mapped (parts_of bytes.now) (top work.now) }
    ensures { result ≡ runs (recornered (parts_of bytes.now)) a b h }
{
    if corners::from_of(bytes, work, h) == a {
        return corners::to_of(bytes, work, h) == b;
    }
    false
}

// A half-edge under s that runs from vertex a to vertex b, if there is one. No others are chained, so s is named for the promise alone.
fn find_run(bytes: &[u8], work: &[u8], s: usize, a: usize, b: usize) -> Option<usize>
    requires right_header { RightHeader bytes.now × Cornered (parts_of bytes.now) × (s ≤ halves (parts_of bytes.now)) × (a < 65536) × (b < 65536) }
    requires mapped { (work_size ≤ length work.now) × Mapped (parts_of bytes.now) (top work.now) }
    requires chained { Chained run_chains (run_key (recornered (parts_of bytes.now))) work.now s }
    ensures { Found (runs (recornered (parts_of bytes.now)) a b) s (one_more result) }
{
    let mut next = chains::last_of(work, chains::mixed::<RUN_CHAINS>(a, b));
    // No count: a chain is followed from its last number back, until it ends.
    while let Some(g) = next {
        if runs_so(bytes, work, a, b, g) {
            return Some(g);
        }
        next = chains::before_of(work, RUN_CHAINS, g);
    }
    None
}

// Chains the half-edges one by one, up to the first that runs as a lower one.
fn first_repeat(bytes: &[u8], work: &mut [u8]) -> Option<usize>
    requires right_header { RightHeader bytes.now × Cornered (parts_of bytes.now) }
    requires mapped { (work_size ≤ length work.old) × Mapped (parts_of bytes.now) (top work.old) }
    ensures answer { result ≡ first (halves (parts_of bytes.now)) (repeats (recornered (parts_of bytes.now))) }
    ensures chained { Chained run_chains (run_key (recornered (parts_of bytes.now))) work.new (lowest (halves (parts_of bytes.now)) (repeats (recornered (parts_of bytes.now)))) }
    ensures memory { SameTop work.new work.old }
{
    let n = pairs::halves_of(bytes);
    verdict::clear_to(work, 2 * RUN_CHAINS);
    for h in 0..n {
        let a = corners::from_of(bytes, work, h);
        let b = corners::to_of(bytes, work, h);
        if find_run(bytes, work, h, a, b).is_some() {
            return Some(h);
        }
        chains::put_last(work, RUN_CHAINS, chains::mixed::<RUN_CHAINS>(a, b), h);
    }
    None
}

// What is kept of half-edge h, where no two run the same way: the number of the one that runs the opposite way, or that there is none.
fn mate_of(bytes: &[u8], work: &[u8], h: usize) -> usize
    requires right_header { RightHeader bytes.now × Cornered (parts_of bytes.now) × (h < halves (parts_of bytes.now)) × Apart (recornered (parts_of bytes.now)) }
    requires mapped { (work_size ≤ length work.now) × Mapped (parts_of bytes.now) (top work.now) }
    requires chained { Chained run_chains (run_key (recornered (parts_of bytes.now))) work.now (halves (parts_of bytes.now)) }
    ensures { IsMate (recornered (parts_of bytes.now)) h result }
{
    let n = pairs::halves_of(bytes);
    let a = corners::from_of(bytes, work, h);
    let b = corners::to_of(bytes, work, h);
    find_run(bytes, work, n, b, a).unwrap_or(corners::LOOSE)
}

// Keeps what is known of each half-edge, where no two run the same way.
fn put_mates(bytes: &[u8], work: &mut [u8])
    requires right_header { RightHeader bytes.now × Cornered (parts_of bytes.now) × Apart (recornered (parts_of bytes.now)) }
    requires mapped { (work_size ≤ length work.old) × Mapped (parts_of bytes.now) (top work.old) }
    requires chained { Chained run_chains (run_key (recornered (parts_of bytes.now))) work.old (halves (parts_of bytes.now)) }
    ensures mated { Mated (recornered (parts_of bytes.now)) work.new }
    ensures memory { SameTop work.new work.old }
{
    let n = pairs::halves_of(bytes);
    for h in 0..n {
        let mate = mate_of(bytes, work, h);
        wire::put_u16(work, corners::MATES_AT + 2 * h, mate);
    }
}

// Rules 8 and 15 of the floor with the changed corners; where they are met, the map of vertices and the partners stand in the work memory.
pub fn corners_verdict(bytes: &[u8], work: &mut [u8]) -> Verdict
    requires { RightHeader bytes.now × Finite (parts_of bytes.now) × Cornered (parts_of bytes.now) × (work_size ≤ length work.old) }
    ensures answer { verdict_of result ≡ (rule8 (recornered (parts_of bytes.now)) then rule15 (recornered (parts_of bytes.now))) }
    ensures memory { SamePast work.new work.old }
    ensures ready { (verdict_of result).number ≡ 0 → Ready (parts_of bytes.now) work.new }
{
    map_vertices(bytes, work);
    let faces = tables::count_of(bytes, 1);
    let pinched = first_pinched(bytes, work, faces);
    refuse_at(pinched, Refusal::Corner)?;
    let repeat = first_repeat(bytes, work);
    refuse_at(repeat, Refusal::RunsTwice)?;
    put_mates(bytes, work);
    Ok(())
}
