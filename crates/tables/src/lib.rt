// The nine tables of a floor: where they and their entries lie, and the words of entries.
#![tactic(auto)]

ghost use Rattle.std.specs.Prelude.{◌≡◌, ◌+◌, ◌*◌, ◌<◌, ◌≤◌, length, get_or};
ghost use Rattle.wire.specs.Bytes.{u32_at};
ghost use Rattle.tables.specs.Tables.{table, table_at, width, span_of, InHeader, entry_at};
ghost use Rattle.tables.specs.Header.{floor_tables, RightHeader};
ghost use Rattle.tables.specs.Parts.{parts_of, table_of, count_of, word_index, word_of, word_place, corner, material};

// How many tables a floor has.
pub const TABLES: usize = 9;

// A table by the positions of its count and its offset in the header, and the size of an entry.
#[derive(Clone, Copy)]
pub struct Table {
    pub count: usize,
    pub offset: usize,
    pub size: usize,
}

// A run of bytes of the file, up to the byte at `stop`, not included.
#[derive(Clone, Copy)]
pub struct Span {
    pub start: usize,
    pub stop: usize,
}

// A table by its three numbers.
fn table_by(count: usize, offset: usize, size: usize) -> Table
    ensures { result ≡ table count offset size }
{
    Table {
        count,
        offset,
        size,
    }
}

// Table k, by comparisons: an array that is indexed by a variable would be built anew at each look.
pub fn table_at(k: usize) -> Table
    requires { k < 9 }
    ensures { (result ≡ table_at floor_tables k) × InHeader result }
{
    if k == 0 {
        return table_by(72, 76, 12);
    }
    if k == 1 {
        return table_by(80, 84, 12);
    }
    if k == 2 {
        return table_by(80, 88, 4);
    }
    if k == 3 {
        return table_by(80, 92, 12);
    }
    if k == 4 {
        return table_by(80, 96, 4);
    }
    if k == 5 {
        return table_by(100, 104, 44);
    }
    if k == 6 {
        return table_by(112, 116, 12);
    }
    if k == 7 {
        return table_by(120, 124, 8);
    }
    table_by(128, 132, 4)
}

// Where table k lies.
#[tactic(auto, using(crate::proofs::Floor::product_fits), unfolding(crate::specs::Tables::span_of))]
pub fn span_at(bytes: &[u8], k: usize) -> Span
    requires { (k < 9) × (136 ≤ length bytes.now) }
    ensures { result ≡ span_of bytes.now (table_at floor_tables k) }
{
    let t = table_at(k);
    let size = t.size;
    let start = wire::u32_at(bytes, t.offset) as usize;
    let count = wire::u32_at(bytes, t.count) as usize;
    Span {
        start,
        stop: start + count * size,
    }
}

// How many entries table k has.
pub fn count_of(bytes: &[u8], k: usize) -> usize
    requires { RightHeader bytes.now × (k < 9) }
    ensures { (result ≡ count_of (parts_of bytes.now) k) × (result < 4294967296) }
{
    let t = table_at(k);
    wire::u32_at(bytes, t.count) as usize
}

// Where table k starts.
#[tactic(auto, using(crate::proofs::Right::header_met))]
pub fn start_of(bytes: &[u8], k: usize) -> usize
    requires { RightHeader bytes.now × (k < 9) }
    ensures { (result ≡ u32_at bytes.now (table_at floor_tables k).offset) × (result < 4294967296) }
{
    let t = table_at(k);
    wire::u32_at(bytes, t.offset) as usize
}

// Word j of table k, whose entries lie one behind another.
pub fn word_at(bytes: &[u8], k: usize, j: usize) -> u32
    requires { RightHeader bytes.now × (k < 9) × (j < count_of (parts_of bytes.now) k * width (table_at floor_tables k)) }
    ensures { result ≡ get_or (table_of (parts_of bytes.now) k) j 0 }
{
    wire::u32_at(bytes, start_of(bytes, k) + 4 * j)
}

// The root field.
#[tactic(auto, using(crate::proofs::Right::header_met), unfolding(crate::specs::Parts::parts_of))]
pub fn root_of(bytes: &[u8]) -> u32
    requires { RightHeader bytes.now }
    ensures { result ≡ (parts_of bytes.now).root }
{
    wire::u32_at(bytes, 108)
}

// The bits of the header's float i.
#[tactic(auto, using(crate::proofs::Right::header_met, crate::proofs::Reading::read_at, crate::proofs::Reading::float_is))]
pub fn float_word(bytes: &[u8], i: usize) -> u32
    requires { RightHeader bytes.now × (i < 15) }
    ensures { result ≡ get_or (parts_of bytes.now).floats i 0 }
{
    wire::u32_at(bytes, 12 + 4 * i)
}

// Where entry i of table k lies.
#[tactic(auto, using(crate::proofs::Right::floor_entry), unfolding(crate::specs::Tables::entry_at))]
fn entry_at(bytes: &[u8], k: usize, i: usize) -> usize
    requires { RightHeader bytes.now × (k < 9) × (i < u32_at bytes.now (table_at floor_tables k).count) }
    ensures { (result ≡ entry_at bytes.now (table_at floor_tables k) i) × (result + (table_at floor_tables k).size ≤ length bytes.now) }
{
    let t = table_at(k);
    let size = t.size;
    start_of(bytes, k) + i * size
}

// Where word e of entry i of table k lies.
#[tactic(auto, using(crate::proofs::Floor::floor_in_header, crate::proofs::Right::header_met, crate::proofs::Reading::count_is, crate::proofs::Reading::place_is))]
pub fn place_of(bytes: &[u8], k: usize, i: usize, e: usize) -> usize
    requires { RightHeader bytes.now × (k < 9) × (i < count_of (parts_of bytes.now) k) × (e < width (table_at floor_tables k)) }
    ensures { (result ≡ word_place bytes.now k (word_index k i e)) × (result + 4 ≤ length bytes.now) × (result ≤ 1048576) }
{
    entry_at(bytes, k, i) + 4 * e
}

// Word e of entry i of table k.
#[tactic(auto, using(crate::proofs::Reading::word_read))]
pub fn word_of(bytes: &[u8], k: usize, i: usize, e: usize) -> u32
    requires { RightHeader bytes.now × (k < 9) × (i < count_of (parts_of bytes.now) k) × (e < width (table_at floor_tables k)) }
    ensures { result ≡ word_of (parts_of bytes.now) k i e }
{
    let at = place_of(bytes, k, i, e);
    wire::u32_at(bytes, at)
}

// Corner e of face f.
pub fn corner_of(bytes: &[u8], f: usize, e: usize) -> usize
    requires { RightHeader bytes.now × (f < (parts_of bytes.now).faces) × (e < 3) }
    ensures { (result ≡ corner (parts_of bytes.now) f e) × (result < 4294967296) }
{
    word_of(bytes, 1, f, e) as usize
}

// The material of face f.
pub fn material_of(bytes: &[u8], f: usize) -> u32
    requires { RightHeader bytes.now × (f < (parts_of bytes.now).faces) }
    ensures { result ≡ material (parts_of bytes.now) f }
{
    word_of(bytes, 2, f, 0)
}
