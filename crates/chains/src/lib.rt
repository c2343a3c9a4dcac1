// Numbers in chains by a key, in lent memory: the last of a chain, the one before it, and one more put in.
#![tactic(auto)]

ghost use Rattle.std.specs.Prelude.{◌≡◌, ◌+◌, ◌<◌, ◌≤◌, length};
ghost use Rattle.wire.specs.Bytes.{u16_at};
ghost use Rattle.chains.specs.Chains.{mixed, one_more, last_place, before_place, with_last};

// By how many chains the second part of a key moves it on. Any number gives the same answers; this one keeps the chains short.
const STRIDE: usize = 517;

// The chain of the key of a and b.
#[tactic(auto, unfolding(crate::specs::Chains::mixed))]
pub fn mixed<const CHAINS: usize>(a: usize, b: usize) -> usize
    requires { (0 < CHAINS) × (a < 4294967296) × (b < 4294967296) }
    ensures { (result ≡ mixed CHAINS a b) × (result < CHAINS) }
{
    (a + STRIDE * b) % CHAINS
}

// The last number of chain v, if it has one.
pub fn last_of(work: &[u8], v: usize) -> Option<usize>
    requires { last_place v + 2 ≤ length work.now }
    ensures { (one_more result ≡ u16_at work.now (last_place v)) × (one_more result < 65536) }
{
    wire::u16_at(work, 2 * v).checked_sub(1)
}

// The number before h in its chain, if there is one; there are n chains.
pub fn before_of(work: &[u8], n: usize, h: usize) -> Option<usize>
    requires { before_place n h + 2 ≤ length work.now }
    ensures { (one_more result ≡ u16_at work.now (before_place n h)) × (one_more result < 65536) }
{
    wire::u16_at(work, 2 * (n + h)).checked_sub(1)
}

// Puts number h last in chain v, of n chains. The memory has it as one more than itself, and 0 for none.
#[tactic(auto, unfolding(crate::specs::Chains::with_last))]
pub fn put_last(work: &mut [u8], n: usize, v: usize, h: usize)
    requires { (v < n) × (before_place n h + 2 ≤ length work.old) }
    ensures { work.new ≡ with_last n work.old v h }
{
    let before = wire::u16_at(work, 2 * v);
    wire::put_u16(work, 2 * (n + h), before);
    wire::put_u16(work, 2 * v, h + 1);
}
