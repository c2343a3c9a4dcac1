// The journal's records by bench: how many a bench holds, its latest one, whether that one is blocked, and a record taken out.
#![tactic(auto)]

ghost use Rattle.std.specs.Prelude.{◌≡◌, ◌&&◌, ◌+◌, ◌*◌, ◌≤◌, ◌<◌, length};
ghost use Rattle.record.specs.Record.{size};
ghost use Rattle.holding.specs.Held.{stored, is_of, same_field, held, latest_held, blocked, closed};

use record::{Rec, SIZE};

// Whether record i is the bench's.
#[tactic(auto, unfolding(crate::specs::Held::is_of))]
fn is_own(journal: &[u8], i: u32, bench: u32) -> bool
    requires { size * (i + 1) ≤ length journal.now }
    ensures { result ≡ is_of bench (stored journal.now i) }
{
    wire::wide(record::bench_at(journal, SIZE * (i as usize))) == bench
}

// How many of the first f records are the bench's. Each edit asks this, and a count by `filter` took thrice as long.
pub fn held_by(journal: &[u8], f: u32, bench: u32) -> u32
    requires { size * f ≤ length journal.now }
    ensures { result ≡ held (stored journal.now) f bench }
{
    let mut n = 0;
    for i in 0..f {
        let own = is_own(journal, i, bench);
        if own {
            n += 1;
        }
    }
    n
}

// The latest of the first f records that is the bench's, if it holds one. It looks from the last one down, where a visitor's own most often
// stands.
pub fn latest_of(journal: &[u8], f: u32, bench: u32) -> Option<u32>
    requires { size * f ≤ length journal.now }
    ensures { result ≡ latest_held (stored journal.now) f bench }
{
    (0..f).rev().find(|k| is_own(journal, *k, bench))
}

// Whether record q is the other bench's and has the field of r.
#[tactic(auto, unfolding(crate::specs::Held::is_of, crate::specs::Held::same_field))]
fn hinders(r: Rec, other: u32, q: Rec) -> bool
    ensures { result ≡ (is_of other q && same_field r q) }
{
    wire::wide(q.bench) == other && r.tag == q.tag && r.place == q.place
}

// 43, of record i.
pub fn is_blocked(journal: &[u8], f: u32, bench: u32, i: u32) -> bool
    requires { (size * f ≤ length journal.now) × (i < f) × (bench ≤ 1) }
    ensures { result ≡ blocked (stored journal.now) f bench i }
{
    let r = record::get_record(journal, SIZE * (i as usize));
    let other = 1 - bench;
    (i + 1..f).any(|j| hinders(r, other, record::get_record(journal, SIZE * (j as usize))))
}

// The records behind record i are moved down by one.
pub fn close_up(journal: &mut [u8], i: u32, f: u32)
    requires { (i < f) × (size * f ≤ length journal.old) }
    ensures { journal.new ≡ closed journal.old i f }
{
    let at = SIZE * (i as usize);
    journal.copy_within(at + SIZE..SIZE * (f as usize), at);
}
