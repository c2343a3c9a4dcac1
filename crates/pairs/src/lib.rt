// Rules 15 and 16: half-edges and their partners, found by chains in the work memory.
#![tactic(auto)]

ghost use Rattle.std.specs.Prelude.{◌≡◌, ◌+◌, ◌/◌, ◌%◌, ◌<◌, ◌≤◌, length};
ghost use Rattle.verdict.specs.Lowest.{lowest, any_under, first};
ghost use Rattle.verdict.specs.Refusals.{verdict_of};
ghost use Rattle.verdict.specs.Memory.{work_size, SamePast};
ghost use Rattle.chains.specs.Chains.{Chained};
ghost use Rattle.tables.specs.Header.{RightHeader};
ghost use Rattle.tables.specs.Parts.{parts_of, adjacent_to};
ghost use Rattle.pairs.specs.Halves.{halves, from, to, runs, repeats, border, wrong_adjacent, rule15, rules15to16, RightPairs};
ghost use Rattle.pairs.specs.Plain.{Apart};
ghost use Rattle.pairs.specs.Chains.{chains, chain};

use verdict::{Refusal, Verdict, refuse_at};

// How many chains of half-edges stand in the work memory.
const CHAINS: usize = 16384;

// The number of half-edges of walkable faces.
#[tactic(auto, using(crate::proofs::Halves::few_walkable))]
pub fn halves_of(bytes: &[u8]) -> usize
    requires { RightHeader bytes.now }
    ensures { (result ≡ halves (parts_of bytes.now)) × (result ≤ 12288) }
{
    3 * tables::count_of(bytes, 6)
}

// The vertex where half-edge h starts: corner after corner is the order of half-edges, so that nothing is divided.
pub fn from_of(bytes: &[u8], h: usize) -> usize
    requires { RightHeader bytes.now × (h < halves (parts_of bytes.now)) }
    ensures { (result ≡ from (parts_of bytes.now) h) × (result < 4294967296) }
{
    tables::word_at(bytes, 1, h) as usize
}

// The half-edge after h in its face.
fn next_in_face(h: usize) -> usize
    requires { h < 12288 }
    ensures { (result / 3 ≡ h / 3) × (result % 3 ≡ (h % 3 + 1) % 3) }
{
    if h % 3 == 2 {
        return h - 2;
    }
    h + 1
}

// The vertex where half-edge h ends: there the next one starts.
#[tactic(auto, using(crate::proofs::Halves::few_walkable, crate::proofs::Halves::next_starts))]
pub fn to_of(bytes: &[u8], h: usize) -> usize
    requires { RightHeader bytes.now × (h < halves (parts_of bytes.now)) }
    ensures { (result ≡ to (parts_of bytes.now) h) × (result < 4294967296) }
{
    from_of(bytes, next_in_face(h))
}

// Adjacency entry h.
#[tactic(auto, using(crate::proofs::Halves::adjacent_word))]
fn adjacent_of(bytes: &[u8], h: usize) -> u32
    requires { RightHeader bytes.now × (h < halves (parts_of bytes.now)) }
    ensures { result ≡ adjacent_to (parts_of bytes.now) h }
{
    tables::word_at(bytes, 6, h)
}

// Whether half-edge h runs from vertex a to vertex b.
#[tactic(auto, unfolding(crate::specs::Halves::runs))]
fn runs_so(bytes: &[u8], a: usize, b: usize, h: usize) -> bool
    requires { RightHeader bytes.now × (h < halves (parts_of bytes.now)) }
    ensures { result ≡ runs (parts_of bytes.now) a b h }
{
    if from_of(bytes, h) == a {
        return to_of(bytes, h) == b;
    }
    false
}

// Whether a half-edge under s runs from vertex a to vertex b. No others are chained, so s is named for the promise alone.
fn is_run(bytes: &[u8], work: &[u8], s: usize, a: usize, b: usize) -> bool
    requires right_header { RightHeader bytes.now × (s ≤ halves (parts_of bytes.now)) × (a < 4294967296) × (b < 4294967296) }
    requires chained { (work_size ≤ length work.now) × Chained chains (chain (parts_of bytes.now)) work.now s }
    ensures { result ≡ any_under s (runs (parts_of bytes.now) a b) }
{
    let mut next = chains::last_of(work, chains::mixed::<CHAINS>(a, b));
    // No count: a chain is followed from its last number back, until it ends.
    while let Some(g) = next {
        if runs_so(bytes, a, b, g) {
            return true;
        }
        next = chains::before_of(work, CHAINS, g);
    }
    false
}

// Chains the half-edges one by one, up to the first that runs as a lower one.
fn first_repeat(bytes: &[u8], work: &mut [u8]) -> Option<usize>
    requires { RightHeader bytes.now × (work_size ≤ length work.old) }
    ensures answer { result ≡ first (halves (parts_of bytes.now)) (repeats (parts_of bytes.now)) }
    ensures memory { Chained chains (chain (parts_of bytes.now)) work.new (lowest (halves (parts_of bytes.now)) (repeats (parts_of bytes.now))) × SamePast work.new work.old }
{
    verdict::clear_to(work, 2 * CHAINS);
    for h in 0..halves_of(bytes) {
        let a = from_of(bytes, h);
        let b = to_of(bytes, h);
        if is_run(bytes, work, h, a, b) {
            return Some(h);
        }
        chains::put_last(work, CHAINS, chains::mixed::<CHAINS>(a, b), h);
    }
    None
}

// Whether adjacency entry h is wrong, where 15 is unbroken: a half-edge that it names is the partner if it runs the opposite way, for no other
// does; only for -1 is a partner looked for.
#[tactic(auto, using(crate::proofs::Halves::few_walkable, crate::proofs::Claims::claims_none, crate::proofs::Claims::claims_half, crate::proofs::Claims::claims_more))]
fn wrong_adjacent(bytes: &[u8], work: &[u8], h: usize) -> bool
    requires right_header { RightHeader bytes.now × (h < halves (parts_of bytes.now)) × Apart (parts_of bytes.now) }
    requires chained { (work_size ≤ length work.now) × Chained chains (chain (parts_of bytes.now)) work.now (halves (parts_of bytes.now)) }
    ensures { result ≡ wrong_adjacent (parts_of bytes.now) h }
{
    let n = halves_of(bytes);
    let own = adjacent_of(bytes, h);
    let a = from_of(bytes, h);
    let b = to_of(bytes, h);
    if own == wire::NONE {
        return is_run(bytes, work, n, b, a);
    }
    let g = own as usize;
    if g < n {
        return !runs_so(bytes, b, a, g);
    }
    true
}

fn first_wrong_adjacent(bytes: &[u8], work: &[u8]) -> Option<usize>
    requires right_header { RightHeader bytes.now × Apart (parts_of bytes.now) }
    requires chained { (work_size ≤ length work.now) × Chained chains (chain (parts_of bytes.now)) work.now (halves (parts_of bytes.now)) }
    ensures { result ≡ first (halves (parts_of bytes.now)) (wrong_adjacent (parts_of bytes.now)) }
{
    (0..halves_of(bytes)).find(|h| wrong_adjacent(bytes, work, *h))
}

// Rule 15.
#[tactic(auto, using(verdict::proofs::Results::each_by_first), unfolding(crate::specs::Halves::rule15))]
pub fn runs_verdict(bytes: &[u8], work: &mut [u8]) -> Verdict
    requires { RightHeader bytes.now × (work_size ≤ length work.old) }
    ensures answer { verdict_of result ≡ rule15 (parts_of bytes.now) }
    ensures memory { SamePast work.new work.old }
{
    let repeat = first_repeat(bytes, work);
    refuse_at(repeat, Refusal::RunsTwice)
}

// Rules 15 and 16.
#[tactic(auto, using(verdict::proofs::Results::here, verdict::proofs::Results::past, verdict::proofs::Results::each_by_first), unfolding(crate::specs::Halves::rules15to16, crate::specs::Halves::rule15, crate::specs::Halves::rule16))]
pub fn pairs_verdict(bytes: &[u8], work: &mut [u8]) -> Verdict
    requires { RightHeader bytes.now × (work_size ≤ length work.old) }
    ensures answer { verdict_of result ≡ rules15to16 (parts_of bytes.now) }
    ensures memory { SamePast work.new work.old }
{
    refuse_at(first_repeat(bytes, work), Refusal::RunsTwice)?;
    refuse_at(first_wrong_adjacent(bytes, work), Refusal::Adjacency)
}

// Whether half-edge h is a border: where 15 and 16 are unbroken the adjacency entry says so.
#[tactic(auto, using(crate::proofs::Halves::few_walkable, crate::proofs::Halves::border_read, crate::proofs::Halves::border_out))]
pub fn is_border(bytes: &[u8], h: usize) -> bool
    requires { RightHeader bytes.now × RightPairs (parts_of bytes.now) }
    ensures { result ≡ border (parts_of bytes.now) h }
{
    if h < halves_of(bytes) {
        return adjacent_of(bytes, h) == wire::NONE;
    }
    false
}
