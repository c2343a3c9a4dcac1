// One record of the journal: its bytes. This file and specs/Record.antt are all that knows a record's form.
#![tactic(auto)]

ghost use Rattle.std.specs.Prelude.{◌≡◌, ◌+◌, ◌≤◌, length};
ghost use Rattle.wire.specs.Bytes.{put};
ghost use Rattle.record.specs.Record.{size, made, flip, record_bytes, record_at};

// The bytes that a record takes, and what its length field says.
pub const SIZE: usize = 16;

pub const BODY: u32 = 13;

// A journal record as it stands.
#[derive(Clone, Copy)]
pub struct Rec {
    pub tag: u8,
    pub len: u32,
    pub bench: u8,
    pub place: u32,
    pub old: u32,
    pub new: u32,
}

// The record at a place of the journal.
#[tactic(auto, unfolding(crate::specs::Record::record_at))]
pub fn get_record(journal: &[u8], at: usize) -> Rec
    requires { at + size ≤ length journal.now }
    ensures { result ≡ record_at journal.now at }
{
    Rec {
        tag: journal[at],
        len: wire::wide(journal[at + 1]) + 256 * wire::wide(journal[at + 2]),
        bench: bench_at(journal, at),
        place: wire::u32_at(journal, at + 4),
        old: wire::u32_at(journal, at + 8),
        new: wire::u32_at(journal, at + 12),
    }
}

// Whose record stands at a place of the journal.
#[tactic(auto, unfolding(crate::specs::Record::record_at))]
pub fn bench_at(journal: &[u8], start: usize) -> u8
    requires { start + size ≤ length journal.now }
    ensures { result ≡ (record_at journal.now start).bench }
{
    journal[start + 3]
}

// A record written at a place of the journal.
#[tactic(auto, using(crate::proofs::Records::put_record))]
pub fn put_record(journal: &mut [u8], at: usize, r: Rec)
    requires { at + size ≤ length journal.old }
    ensures { journal.new ≡ put journal.old at (record_bytes r) }
{
    let tag = r.tag;
    let len = r.len;
    let bench = r.bench;
    let place = r.place;
    let old = r.old;
    let new = r.new;
    journal[at] = tag;
    journal[at + 1] = (len % 256) as u8;
    journal[at + 2] = (len / 256 % 256) as u8;
    journal[at + 3] = bench;
    wire::put_u32(journal, at + 4, place);
    wire::put_u32(journal, at + 8, old);
    wire::put_u32(journal, at + 12, new);
}

// A record as a bench's edit makes it.
pub fn make(tag: u8, bench: u8, place: u32, old: u32, new: u32) -> Rec
    ensures { result ≡ made tag bench place old new }
{
    Rec {
        tag,
        len: BODY,
        bench,
        place,
        old,
        new,
    }
}

// The record that takes a record back.
pub fn flipped(r: Rec) -> Rec
    ensures { result ≡ flip r }
{
    Rec {
        tag: r.tag,
        len: r.len,
        bench: r.bench,
        place: r.place,
        old: r.new,
        new: r.old,
    }
}
