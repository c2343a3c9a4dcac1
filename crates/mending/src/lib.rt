// The mended floor and the list of changes, written into lent memory from what the work memory holds.
#![tactic(auto)]

ghost use Rattle.std.specs.Prelude.{◌≡◌, ◌∷◌, ◌+◌, ◌*◌, ◌<◌, ◌≤◌, length};
ghost use Rattle.verdict.specs.Output.{over};
ghost use Rattle.wire.specs.Bytes.{u16_bytes, put};
ghost use Rattle.wire.specs.Words.{bytes_of};
ghost use Rattle.tables.specs.Parts.{parts_of};
ghost use Rattle.tables.specs.Fixed.{form_of, Sized};
ghost use Rattle.fixed.specs.Written.{numbers_of};
ghost use Rattle.corners.specs.Corners.{mended_corners, recornered};
ghost use Rattle.rings.specs.Rings.{edge_list, end_list};
ghost use Rattle.follow.specs.Ready.{web_in};
ghost use Rattle.seams.specs.Mended.{adjacency_of, entries_for, mended};
ghost use Rattle.seams.specs.Changes.{new_corner, changed, corner_record, lost_record, corner_changes, lost_changes, changes};
ghost use Rattle.mending.specs.Worked.{Worked};

use fixed::Numbers;

// Where the edges stand in the work memory; the mark of a ring's last edge.
const EDGES_AT: usize = 8192;

const MARK: usize = 32768;

// How long the records of the list are: a corner changed, a transition lost.
const CORNER_RECORD: usize = 15;

const LOST_RECORD: usize = 7;

// The vertex that corner j becomes, as it stands in the file or as another.
#[tactic(auto, using(crate::proofs::Tables::corner_low))]
fn corner_at(bytes: &[u8], work: &[u8], e: usize, j: usize) -> u32
    requires { Worked bytes.now work.now e × (j < 3 * (parts_of bytes.now).faces) }
    ensures { result ≡ new_corner (parts_of bytes.now) j }
{
    let v = tables::word_at(bytes, 1, j) as usize;
    corners::lowest_of(bytes, work, v) as u32
}

// The corners; where the next table goes.
fn put_corners(bytes: &[u8], work: &[u8], e: usize, out: &mut [u8], at: usize) -> usize
    requires { Worked bytes.now work.now e × (at ≤ 737372) × (at + 4 * length (mended_corners (parts_of bytes.now)) ≤ length out.old) }
    ensures next { result ≡ at + 4 * length (mended_corners (parts_of bytes.now)) }
    ensures table { out.new ≡ put out.old at (bytes_of (mended_corners (parts_of bytes.now))) }
{
    let n = 3 * tables::count_of(bytes, 1);
    for j in 0..n {
        wire::put_u32(out, at + 4 * j, corner_at(bytes, work, e, j));
    }
    at + 4 * n
}

// The adjacency entries.
fn put_adjacency(bytes: &[u8], work: &[u8], e: usize, out: &mut [u8], at: usize) -> usize
    requires { Worked bytes.now work.now e × (at ≤ 737372) × (at + 4 * length (adjacency_of (recornered (parts_of bytes.now))) ≤ length out.old) }
    ensures next { result ≡ at + 4 * length (adjacency_of (recornered (parts_of bytes.now))) }
    ensures table { out.new ≡ put out.old at (bytes_of (adjacency_of (recornered (parts_of bytes.now)))) }
{
    let n = pairs::halves_of(bytes);
    for h in 0..n {
        wire::put_u32(out, at + 4 * h, kept::pairing_of(bytes, work, h));
    }
    at + 4 * n
}

// The edge entries: each border with the transition that it keeps.
fn put_entries(bytes: &[u8], work: &[u8], e: usize, out: &mut [u8], at: usize) -> usize
    requires { Worked bytes.now work.now e × (at ≤ 737372) × (at + 4 * length (entries_for (parts_of bytes.now) (edge_list (web_in bytes.now))) ≤ length out.old) }
    ensures next { result ≡ at + 4 * length (entries_for (parts_of bytes.now) (edge_list (web_in bytes.now))) }
    ensures table { out.new ≡ put out.old at (bytes_of (entries_for (parts_of bytes.now) (edge_list (web_in bytes.now)))) }
{
    for i in 0..e {
        let h = wire::u16_at(work, EDGES_AT + 2 * i) % MARK;
        wire::put_u32(out, at + 8 * i, h as u32);
        wire::put_u32(out, at + 8 * i + 4, kept::kept_of(bytes, work, h));
    }
    at + 8 * e
}

// The perimeter entries: where each ring ends.
fn put_ends(bytes: &[u8], work: &[u8], e: usize, out: &mut [u8], at: usize)
    requires { Worked bytes.now work.now e × (at ≤ 737372) × (at + 4 * length (end_list (web_in bytes.now)) ≤ length out.old) }
    ensures { out.new ≡ put out.old at (bytes_of (end_list (web_in bytes.now))) }
{
    let mut k = 0;
    for i in 0..e {
        if MARK <= wire::u16_at(work, EDGES_AT + 2 * i) {
            wire::put_u32(out, at + 4 * k, (i + 1) as u32);
            k += 1;
        }
    }
}

// The mended floor's fixed form, over the start of out: n has its counts.
pub fn write_mended(bytes: &[u8], work: &[u8], e: usize, n: Numbers, out: &mut [u8])
    requires worked { Worked bytes.now work.now e × (n ≡ numbers_of (mended (parts_of bytes.now))) × Sized (mended (parts_of bytes.now)) }
    requires room { length (form_of (mended (parts_of bytes.now))) ≤ length out.old }
    ensures { out.new ≡ over (form_of (mended (parts_of bytes.now))) out.old }
{
    fixed::write_head(bytes, n, out);
    let a = fixed::copy_table(bytes, 0, out, 136);
    let b = put_corners(bytes, work, e, out, a);
    let c = fixed::copy_table(bytes, 2, out, b);
    let d = fixed::copy_table(bytes, 3, out, c);
    let f = fixed::copy_table(bytes, 4, out, d);
    let g = fixed::copy_table(bytes, 5, out, f);
    let h = put_adjacency(bytes, work, e, out, g);
    let i = put_entries(bytes, work, e, out, h);
    put_ends(bytes, work, e, out, i);
}

// Whether corner j becomes another vertex.
#[tactic(auto, unfolding(seams::specs::Changes::changed))]
fn is_changed(bytes: &[u8], work: &[u8], e: usize, j: usize) -> bool
    requires { Worked bytes.now work.now e × (j < 3 * (parts_of bytes.now).faces) }
    ensures { result ≡ changed (parts_of bytes.now) j }
{
    corner_at(bytes, work, e, j) != tables::word_at(bytes, 1, j)
}

// How many bytes the corners changed take in the list.
fn corners_length(bytes: &[u8], work: &[u8], e: usize) -> usize
    requires { Worked bytes.now work.now e }
    ensures { (result ≡ length (corner_changes (parts_of bytes.now))) × (result ≤ 184320) }
{
    let n = 3 * tables::count_of(bytes, 1);
    (0..n).filter(|j| is_changed(bytes, work, e, *j)).count() * CORNER_RECORD
}

// How many bytes the transitions lost take in it.
fn lost_length(bytes: &[u8], work: &[u8], e: usize) -> usize
    requires { Worked bytes.now work.now e }
    ensures { (result ≡ length (lost_changes (parts_of bytes.now))) × (result ≤ 86016) }
{
    let n = pairs::halves_of(bytes);
    (0..n).filter(|h| kept::is_lost(bytes, work, *h)).count() * LOST_RECORD
}

// The length of the list.
#[tactic(auto, using(crate::proofs::Records::changes_long))]
pub fn list_length(bytes: &[u8], work: &[u8], e: usize) -> usize
    requires { Worked bytes.now work.now e }
    ensures { (result ≡ length (changes (parts_of bytes.now))) × (result ≤ 270336) }
{
    corners_length(bytes, work, e) + lost_length(bytes, work, e)
}

// A record's tag and the length of what follows.
#[tactic(auto, using(crate::proofs::Puts::put_long, crate::proofs::Records::tag_put))]
fn put_tag(list: &mut [u8], at: usize, tag: u8, size: usize)
    requires { at + 3 ≤ length list.old }
    ensures { list.new ≡ put list.old at (tag ∷ u16_bytes size) }
{
    list[at] = tag;
    wire::put_u16(list, at + 1, size);
}

// The record of corner j, changed.
fn put_corner_record(bytes: &[u8], work: &[u8], e: usize, list: &mut [u8], at: usize, j: usize)
    requires { Worked bytes.now work.now e × (j < 3 * (parts_of bytes.now).faces) × (at + 15 ≤ length list.old) }
    ensures { list.new ≡ put list.old at (corner_record (parts_of bytes.now) j) }
{
    put_tag(list, at, 1, 12);
    wire::put_u32(list, at + 3, j as u32);
    wire::put_u32(list, at + 7, tables::word_at(bytes, 1, j));
    wire::put_u32(list, at + 11, corner_at(bytes, work, e, j));
}

// The record of half-edge h, whose transition is lost.
#[tactic(auto, using(crate::proofs::Records::lost_put))]
fn put_lost_record(list: &mut [u8], at: usize, h: usize)
    requires { (h < 12288) × (at + 7 ≤ length list.old) }
    ensures { list.new ≡ put list.old at (lost_record h) }
{
    put_tag(list, at, 2, 4);
    wire::put_u32(list, at + 3, h as u32);
}

// The corners changed, over the start of the list; where the next record goes.
fn put_corner_changes(bytes: &[u8], work: &[u8], e: usize, list: &mut [u8]) -> usize
    requires { Worked bytes.now work.now e × (length (changes (parts_of bytes.now)) ≤ length list.old) }
    ensures next { (result ≡ length (corner_changes (parts_of bytes.now))) × (result ≤ 184320) }
    ensures list { list.new ≡ put list.old 0 (corner_changes (parts_of bytes.now)) }
{
    let n = 3 * tables::count_of(bytes, 1);
    let mut at = 0;
    for j in 0..n {
        if is_changed(bytes, work, e, j) {
            put_corner_record(bytes, work, e, list, at, j);
            at += CORNER_RECORD;
        }
    }
    at
}

// The transitions lost, behind them.
fn put_lost_changes(bytes: &[u8], work: &[u8], e: usize, list: &mut [u8], start: usize)
    requires { Worked bytes.now work.now e × (start ≤ 184320) × (start + length (lost_changes (parts_of bytes.now)) ≤ length list.old) }
    ensures { list.new ≡ put list.old start (lost_changes (parts_of bytes.now)) }
{
    let n = pairs::halves_of(bytes);
    let mut at = start;
    for h in 0..n {
        if kept::is_lost(bytes, work, h) {
            put_lost_record(list, at, h);
            at += LOST_RECORD;
        }
    }
}

// The list of changes, over the start of list.
#[tactic(auto, using(crate::proofs::Records::changes_long, crate::proofs::Records::list_put))]
pub fn write_list(bytes: &[u8], work: &[u8], e: usize, list: &mut [u8])
    requires { Worked bytes.now work.now e × (length (changes (parts_of bytes.now)) ≤ length list.old) }
    ensures { list.new ≡ over (changes (parts_of bytes.now)) list.old }
{
    let at = put_corner_changes(bytes, work, e, list);
    put_lost_changes(bytes, work, e, list, at);
}
