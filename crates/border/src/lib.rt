// Rules 17 to 19: edge entries, transitions and loops.
#![tactic(auto)]

ghost use Rattle.std.specs.Prelude.{◌≡◌, ◌<◌, ◌≤◌, length};
ghost use Rattle.verdict.specs.Lowest.{lowest, any_under, first};
ghost use Rattle.verdict.specs.Refusals.{verdict_of};
ghost use Rattle.verdict.specs.Memory.{work_size, cleared_to, SamePast};
ghost use Rattle.tables.specs.Header.{RightHeader};
ghost use Rattle.tables.specs.Parts.{parts_of, edge_of, transition, loop_end};
ghost use Rattle.pairs.specs.Halves.{halves, rules15to16, RightPairs};
ghost use Rattle.border.specs.Loops.{wrong_edge, rule17, wrong_transition, loop_start, after, open_at, open_run, wrong_loop, rule19, rules17to19, EdgesIn};
ghost use Rattle.border.specs.Memory.{marks_of, wrong_by, unmarked};

use verdict::{Refusal, Verdict, refuse_at, refuse_if};

// The number of edge entries.
#[tactic(auto, using(crate::proofs::Loops::few_edges))]
pub fn edges_of(bytes: &[u8]) -> usize
    requires { RightHeader bytes.now }
    ensures { (result ≡ (parts_of bytes.now).edges) × (result ≤ 12288) }
{
    tables::count_of(bytes, 7)
}

// The number of perimeter entries.
#[tactic(auto, using(crate::proofs::Loops::few_loops))]
fn loops_of(bytes: &[u8]) -> usize
    requires { RightHeader bytes.now }
    ensures { (result ≡ (parts_of bytes.now).perimeters) × (result ≤ 12288) }
{
    tables::count_of(bytes, 8)
}

// The half-edge of edge entry i.
pub fn edge_of(bytes: &[u8], i: usize) -> usize
    requires { RightHeader bytes.now × (i < (parts_of bytes.now).edges) }
    ensures { result ≡ edge_of (parts_of bytes.now) i }
{
    tables::word_of(bytes, 7, i, 0) as usize
}

// The transition of edge entry i.
pub fn transition_of(bytes: &[u8], i: usize) -> u32
    requires { RightHeader bytes.now × (i < (parts_of bytes.now).edges) }
    ensures { result ≡ transition (parts_of bytes.now) i }
{
    tables::word_of(bytes, 7, i, 1)
}

// Perimeter entry j: the end of loop j.
fn loop_end(bytes: &[u8], j: usize) -> usize
    requires { RightHeader bytes.now × (j < (parts_of bytes.now).perimeters) }
    ensures { result ≡ loop_end (parts_of bytes.now) j }
{
    tables::word_of(bytes, 8, j, 0) as usize
}

// The start of loop j: the end before it.
#[tactic(auto, using(crate::proofs::Loops::start_first, crate::proofs::Loops::start_later))]
fn loop_start(bytes: &[u8], j: usize) -> usize
    requires { RightHeader bytes.now × (j ≤ (parts_of bytes.now).perimeters) }
    ensures { result ≡ loop_start (parts_of bytes.now) j }
{
    if j == 0 {
        return 0;
    }
    loop_end(bytes, j - 1)
}

// Whether edge entry i is no border, or is marked already.
#[tactic(auto, using(pairs::proofs::Halves::few_walkable, pairs::proofs::Halves::border_in), unfolding(verdict::specs::Memory::is_marked, crate::specs::Memory::wrong_by))]
fn wrong_by(bytes: &[u8], work: &[u8], i: usize) -> bool
    requires right_header { RightHeader bytes.now × RightPairs (parts_of bytes.now) }
    requires marks { (work_size ≤ length work.now) × (i < (parts_of bytes.now).edges) }
    ensures { result ≡ wrong_by (parts_of bytes.now) work.now i }
{
    let h = edge_of(bytes, i);
    if pairs::is_border(bytes, h) {
        return work[h] != 0;
    }
    true
}

// Marks the borders of the edge entries in memory made clear for them, up to the first wrong one.
fn mark_edges(bytes: &[u8], work: &mut [u8]) -> Option<usize>
    requires right_header { RightHeader bytes.now × RightPairs (parts_of bytes.now) }
    requires memory { work_size ≤ length work.old }
    ensures answer { result ≡ first (parts_of bytes.now).edges (wrong_edge (parts_of bytes.now)) }
    ensures marks { work.new ≡ marks_of (parts_of bytes.now) (lowest (parts_of bytes.now).edges (wrong_edge (parts_of bytes.now))) (cleared_to (halves (parts_of bytes.now)) work.old) }
{
    verdict::clear_to(work, pairs::halves_of(bytes));
    for i in 0..edges_of(bytes) {
        if wrong_by(bytes, work, i) {
            return Some(i);
        }
        work[edge_of(bytes, i)] = 1;
    }
    None
}

// Whether half-edge h is a border without a mark.
#[tactic(auto, using(verdict::proofs::Bools::not_not, pairs::proofs::Halves::few_walkable), unfolding(verdict::specs::Memory::is_marked, crate::specs::Memory::unmarked))]
fn is_unmarked(bytes: &[u8], work: &[u8], h: usize) -> bool
    requires right_header { RightHeader bytes.now × RightPairs (parts_of bytes.now) }
    requires marks { (work_size ≤ length work.now) × (h < halves (parts_of bytes.now)) }
    ensures { result ≡ unmarked (parts_of bytes.now) work.now h }
{
    if pairs::is_border(bytes, h) {
        return work[h] == 0;
    }
    false
}

// Whether some border has no mark.
fn has_unmarked(bytes: &[u8], work: &[u8]) -> bool
    requires right_header { RightHeader bytes.now × RightPairs (parts_of bytes.now) }
    requires marks { work_size ≤ length work.now }
    ensures { result ≡ any_under (halves (parts_of bytes.now)) (unmarked (parts_of bytes.now) work.now) }
{
    (0..pairs::halves_of(bytes)).any(|h| is_unmarked(bytes, work, h))
}

// 17
#[tactic(auto, using(verdict::proofs::Results::here, verdict::proofs::Results::each_by_first), unfolding(crate::specs::Loops::rule17))]
fn edges_verdict(bytes: &[u8], work: &mut [u8]) -> Verdict
    requires right_header { RightHeader bytes.now × RightPairs (parts_of bytes.now) }
    requires memory { work_size ≤ length work.old }
    ensures answer { verdict_of result ≡ rule17 (parts_of bytes.now) }
    ensures memory { SamePast work.new work.old }
{
    refuse_at(mark_edges(bytes, work), Refusal::EdgeEntry)?;
    let missing = has_unmarked(bytes, work);
    refuse_if(missing, Refusal::EdgeEntry, edges_of(bytes) as u32)
}

// Whether the transition of edge entry i is not -1 to 63.
#[tactic(auto, using(crate::proofs::Loops::transition_room, crate::proofs::Loops::transition_past))]
pub fn wrong_transition(bytes: &[u8], i: usize) -> bool
    requires { RightHeader bytes.now × (i < (parts_of bytes.now).edges) }
    ensures { result ≡ wrong_transition (parts_of bytes.now) i }
{
    let t = transition_of(bytes, i);
    if t <= 63 {
        return false;
    }
    t != wire::NONE
}

fn first_wrong_transition(bytes: &[u8]) -> Option<usize>
    requires { RightHeader bytes.now }
    ensures { result ≡ first (parts_of bytes.now).edges (wrong_transition (parts_of bytes.now)) }
{
    (0..edges_of(bytes)).find(|i| wrong_transition(bytes, *i))
}

// The next after edge i in the run from s up to t.
#[tactic(auto, using(crate::proofs::Loops::after_last, crate::proofs::Loops::after_step))]
fn after_of(s: usize, t: usize, i: usize) -> usize
    requires { (s < t) × (i < t) }
    ensures { (result ≡ after s t i) × (result < t) }
{
    if i + 1 == t {
        return s;
    }
    i + 1
}

// Whether edge i does not end where the next starts.
#[tactic(auto, unfolding(crate::specs::Loops::open_at))]
fn open_at(bytes: &[u8], s: usize, t: usize, i: usize) -> bool
    requires right_header { RightHeader bytes.now × EdgesIn (parts_of bytes.now) }
    requires run { (s < t) × (i < t) × (t ≤ (parts_of bytes.now).edges) }
    ensures { result ≡ open_at (parts_of bytes.now) s t i }
{
    let next = after_of(s, t, i);
    let h = edge_of(bytes, i);
    let g = edge_of(bytes, next);
    let end = pairs::to_of(bytes, h);
    let start = pairs::from_of(bytes, g);
    end != start
}

// Whether the run of edges from s up to t isn't a closed chain.
fn open_run(bytes: &[u8], s: usize, t: usize) -> bool
    requires right_header { RightHeader bytes.now × EdgesIn (parts_of bytes.now) }
    requires run { (s < t) × (t ≤ (parts_of bytes.now).edges) }
    ensures { result ≡ open_run (parts_of bytes.now) s t }
{
    (0..t - s).any(|k| open_at(bytes, s, t, s + k))
}

// Whether perimeter entry j is wrong.
#[tactic(auto, using(crate::proofs::Loops::loop_falls, crate::proofs::Loops::loop_past, crate::proofs::Loops::loop_run))]
fn wrong_loop(bytes: &[u8], j: usize) -> bool
    requires right_header { RightHeader bytes.now × EdgesIn (parts_of bytes.now) }
    requires entry { j < (parts_of bytes.now).perimeters }
    ensures { result ≡ wrong_loop (parts_of bytes.now) j }
{
    let count = edges_of(bytes);
    let s = loop_start(bytes, j);
    let t = loop_end(bytes, j);
    if t <= s {
        return true;
    }
    if count < t {
        return true;
    }
    open_run(bytes, s, t)
}

fn first_wrong_loop(bytes: &[u8]) -> Option<usize>
    requires { RightHeader bytes.now × EdgesIn (parts_of bytes.now) }
    ensures { result ≡ first (parts_of bytes.now).perimeters (wrong_loop (parts_of bytes.now)) }
{
    (0..loops_of(bytes)).find(|j| wrong_loop(bytes, *j))
}

// 19
#[tactic(auto, using(verdict::proofs::Results::here, verdict::proofs::Results::past, verdict::proofs::Results::each_by_first), unfolding(crate::specs::Loops::rule19))]
fn perimeters_verdict(bytes: &[u8]) -> Verdict
    requires { RightHeader bytes.now × EdgesIn (parts_of bytes.now) }
    ensures { verdict_of result ≡ rule19 (parts_of bytes.now) }
{
    refuse_at(first_wrong_loop(bytes), Refusal::Perimeter)?;
    let loops = loops_of(bytes);
    let last = loop_start(bytes, loops);
    refuse_if(last != edges_of(bytes), Refusal::Perimeter, loops as u32)
}

// Rules 17 to 19, where 15 and 16 are unbroken.
#[tactic(auto, using(verdict::proofs::Results::here, verdict::proofs::Results::past, verdict::proofs::Results::each_by_first), unfolding(crate::specs::Loops::rules17to19, crate::specs::Loops::rule18))]
pub fn loops_verdict(bytes: &[u8], work: &mut [u8]) -> Verdict
    requires right_header { RightHeader bytes.now × (work_size ≤ length work.old) }
    requires pairs { (rules15to16 (parts_of bytes.now)).number ≡ 0 }
    ensures answer { verdict_of result ≡ rules17to19 (parts_of bytes.now) }
    ensures memory { SamePast work.new work.old }
{
    edges_verdict(bytes, work)?;
    refuse_at(first_wrong_transition(bytes), Refusal::Transition)?;
    perimeters_verdict(bytes)
}
