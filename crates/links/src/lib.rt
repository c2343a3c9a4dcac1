// The link check: whether every transition of a floor leads to a room of a layout.
#![tactic(auto)]

ghost use Rattle.std.specs.Prelude.{◌≡◌, ◌<◌, length};
ghost use Rattle.verdict.specs.Lowest.{first};
ghost use Rattle.verdict.specs.Refusals.{verdict_of};
ghost use Rattle.tables.specs.Header.{RightHeader};
ghost use Rattle.tables.specs.Parts.{parts_of};
ghost use Rattle.floor.specs.Reader.{reader_memory};
ghost use Rattle.links.specs.Links.{astray, rule42, link_verdict};

use verdict::{Answer, Refusal, Verdict, refuse_at};

// Whether the transition of edge entry i is not under so many rooms.
fn is_astray(bytes: &[u8], rooms: u32, i: usize) -> bool
    requires { RightHeader bytes.now × (i < (parts_of bytes.now).edges) }
    ensures { result ≡ astray (parts_of bytes.now) rooms i }
{
    let t = tables::word_of(bytes, 7, i, 1);
    if t == wire::NONE {
        return false;
    }
    rooms <= t
}

// The lowest edge entry whose transition leads to no room.
fn first_astray(bytes: &[u8], rooms: u32) -> Option<usize>
    requires { RightHeader bytes.now }
    ensures { result ≡ first (parts_of bytes.now).edges (astray (parts_of bytes.now) rooms) }
{
    (0..tables::count_of(bytes, 7)).find(|i| is_astray(bytes, rooms, *i))
}

// Rule 42 of a floor with a right header.
#[tactic(auto, using(verdict::proofs::Results::each_by_first), unfolding(crate::specs::Links::rule42))]
fn rooms_verdict(bytes: &[u8], rooms: u32) -> Verdict
    requires { RightHeader bytes.now }
    ensures { verdict_of result ≡ rule42 (parts_of bytes.now) rooms }
{
    refuse_at(first_astray(bytes, rooms), Refusal::LinkNowhere)
}

// The rules in order: the reader's, the layout's, then 42.
fn links_verdict(bytes: &[u8], work: &mut [u8], text: &[u8]) -> Verdict
    ensures answer { verdict_of result ≡ link_verdict bytes.now (length work.old) text.now }
    ensures memory { work.new ≡ reader_memory work.old }
{
    floor::read_verdict(bytes, work)?;
    let rooms = rooms::room_count(text)?;
    rooms_verdict(bytes, rooms)
}

// The link check: any bytes, any work memory, any text.
pub fn link_check(bytes: &[u8], work: &mut [u8], text: &[u8]) -> Answer
    ensures answer { result ≡ link_verdict bytes.now (length work.old) text.now }
    ensures memory { work.new ≡ reader_memory work.old }
{
    Answer::from(links_verdict(bytes, work, text))
}
