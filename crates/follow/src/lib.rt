// The rings of borders of a floor with changed corners, worked out in lent memory without a search: borders are chained by the vertex that they
// start at.
#![tactic(auto)]

ghost use Rattle.std.specs.Prelude.{◌≡◌, true, ◌+◌, ◌<◌, ◌≤◌, length};
ghost use Rattle.verdict.specs.Memory.{work_size};
ghost use Rattle.wire.specs.Bytes.{u16_at, put_u16};
ghost use Rattle.rings.specs.Rings.{unused, edge_list, end_list};
ghost use Rattle.corners.specs.Memory.{SameTop};
ghost use Rattle.follow.specs.Memory.{most_halves, edge_place, mark, edges_in, ends_in, SameMates};
ghost use Rattle.follow.specs.Ready.{web_in, Ready};
ghost use Rattle.follow.specs.Steps.{Chained, Due, Stepped, Rung, Passed};

// How many vertices have a head in the work memory, one behind the other from its start; where the edges start behind them; what is added to the
// last edge of a ring.
const VERTICES: usize = 4096;

const EDGES_AT: usize = 8192;

const MARK: usize = 32768;

// How many edges there are, and how many rings.
#[derive(Clone, Copy)]
pub struct Counts {
    pub edges: usize,
    pub rings: usize,
}

// Takes border h, the head of its vertex: puts it at place i of the edges, moves the head on, and answers where it ends.
fn step(bytes: &[u8], work: &mut [u8], i: usize, h: usize) -> usize
    requires ready { Ready bytes.now work.old }
    requires due { Due (web_in bytes.now) work.old i h }
    ensures end { result ≡ (web_in bytes.now).to h }
    ensures stepped { Stepped (web_in bytes.now) work.old work.new i h }
{
    let start = corners::from_of(bytes, work, h);
    let end = corners::to_of(bytes, work, h);
    let behind = wire::u16_at(work, corners::MATES_AT + 2 * h) - corners::LOOSE;
    wire::put_u16(work, EDGES_AT + 2 * i, h);
    wire::put_u16(work, 2 * start, behind);
    end
}

// Follows the ring that starts at border h, the lowest unused one, and puts it behind the first i edges: answers how many they are then. The
// number of rings so far is named for the promise alone.
fn ring_from(bytes: &[u8], work: &mut [u8], i: usize, j: usize, h: usize) -> usize
    requires ready { Ready bytes.now work.old }
    requires passed { Passed (web_in bytes.now) work.old i j h }
    requires start { (unused (web_in bytes.now) (edges_in work.old i) h ≡ true) × (h < (web_in bytes.now).halves) }
    ensures { Rung (web_in bytes.now) work.old work.new i result }
{
    let start = corners::from_of(bytes, work, h);
    let mut end = step(bytes, work, i, h);
    let mut n = i + 1;
    // No count: the ring ends where it began.
    while end != start {
        let g = wire::u16_at(work, 2 * end);
        end = step(bytes, work, n, g);
        n += 1;
    }
    n
}

// Whether half-edge c is a border not yet used: the head of its vertex has not gone past it. The edges and rings so far are named for the promise
// alone.
#[tactic(auto, using(crate::proofs::Floors::small_of, crate::proofs::Floors::asked_ends, crate::proofs::Floors::asked_border, crate::proofs::Passing::free_border, crate::proofs::Passing::free_not))]
fn is_free(bytes: &[u8], work: &[u8], i: usize, j: usize, c: usize) -> bool
    requires ready { Ready bytes.now work.now }
    requires passed { Passed (web_in bytes.now) work.now i j c }
    requires inside { c < (web_in bytes.now).halves }
    ensures { result ≡ unused (web_in bytes.now) (edges_in work.now i) c }
{
    if corners::is_border(bytes, work, c) {
        let start = corners::from_of(bytes, work, c);
        return wire::u16_at(work, 2 * start) <= c;
    }
    false
}

// Marks edge i as the last of its ring.
fn mark_end(work: &mut [u8], i: usize)
    requires { (i < most_halves) × (work_size ≤ length work.old) }
    ensures { work.new ≡ put_u16 work.old (edge_place i) (mark + u16_at work.old (edge_place i)) }
{
    let h = wire::u16_at(work, EDGES_AT + 2 * i);
    wire::put_u16(work, EDGES_AT + 2 * i, MARK + h);
}

// One half-edge more: where it is an unused border, its ring and where that ends.
fn turn(bytes: &[u8], work: &mut [u8], so: Counts, c: usize) -> Counts
    requires ready { Ready bytes.now work.old }
    requires passed { Passed (web_in bytes.now) work.old so.edges so.rings c }
    requires inside { c < (web_in bytes.now).halves }
    ensures passed { Passed (web_in bytes.now) work.new result.edges result.rings (c + 1) }
    ensures memory { SameMates work.new work.old }
{
    let i = so.edges;
    let j = so.rings;
    if is_free(bytes, work, i, j, c) {
        let n = ring_from(bytes, work, i, j, c);
        mark_end(work, n - 1);
        return Counts {
            edges: n,
            rings: j + 1,
        };
    }
    so
}

// Empty chains: those of the borders from the number of half-edges on.
fn empty_chains(bytes: &[u8], work: &mut [u8])
    requires { Ready bytes.now work.old }
    ensures chained { Chained (web_in bytes.now) work.new (web_in bytes.now).halves }
    ensures memory { SameMates work.new work.old }
{
    let n = pairs::halves_of(bytes);
    for v in 0..VERTICES {
        wire::put_u16(work, 2 * v, n);
    }
}

// Half-edge h before the chains of those after it, if it is a border.
fn chain_one(bytes: &[u8], work: &mut [u8], h: usize)
    requires ready { Ready bytes.now work.old }
    requires chained { Chained (web_in bytes.now) work.old (h + 1) }
    requires inside { h < (web_in bytes.now).halves }
    ensures chained { Chained (web_in bytes.now) work.new h }
    ensures memory { Ready bytes.now work.new × SameTop work.new work.old }
{
    if corners::is_border(bytes, work, h) {
        let start = corners::from_of(bytes, work, h);
        let head = wire::u16_at(work, 2 * start);
        wire::put_u16(work, corners::MATES_AT + 2 * h, corners::LOOSE + head);
        wire::put_u16(work, 2 * start, h);
    }
}

// All borders chained, from the highest down.
fn chain_all(bytes: &[u8], work: &mut [u8])
    requires { Ready bytes.now work.old }
    ensures chained { Chained (web_in bytes.now) work.new 0 }
    ensures memory { Ready bytes.now work.new × SameTop work.new work.old }
{
    empty_chains(bytes, work);
    for h in (0..pairs::halves_of(bytes)).rev() {
        chain_one(bytes, work, h);
    }
}

// All rings: the edges in the work memory, the last of each ring marked.
pub fn all_rings(bytes: &[u8], work: &mut [u8]) -> Counts
    requires { Ready bytes.now work.old }
    ensures edges { edges_in work.new result.edges ≡ edge_list (web_in bytes.now) }
    ensures ends { ends_in work.new result.edges ≡ end_list (web_in bytes.now) }
    ensures counts { (result.rings ≡ length (end_list (web_in bytes.now))) × (result.edges ≤ most_halves) × (result.rings ≤ most_halves) }
    ensures memory { Ready bytes.now work.new × SameTop work.new work.old }
{
    let n = pairs::halves_of(bytes);
    chain_all(bytes, work);
    let mut so = Counts { edges: 0, rings: 0 };
    for c in 0..n {
        so = turn(bytes, work, so, c);
    }
    so
}
