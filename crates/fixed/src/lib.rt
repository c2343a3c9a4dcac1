// The fixed form of a floor, written over the start of an output that the caller lends.
#![tactic(auto)]

ghost use Rattle.std.specs.Prelude.{◌≡◌, [], ◌∷◌, ◌+◌, ◌*◌, ◌<◌, ◌≤◌, length, take, drop};
ghost use Rattle.verdict.specs.Output.{over};
ghost use Rattle.wire.specs.Bytes.{u32_at, put};
ghost use Rattle.wire.specs.Words.{bytes_of};
ghost use Rattle.tables.specs.Tables.{table_at};
ghost use Rattle.tables.specs.Header.{floor_tables, RightHeader};
ghost use Rattle.tables.specs.Parts.{parts_of, words_in};
ghost use Rattle.tables.specs.Fixed.{form_of};
ghost use Rattle.fixed.specs.Written.{numbers_of, count_by, start_by, fields_by, head_by, Few};

// The counts and the root, from which the rest of a fixed form's header follows.
#[derive(Clone, Copy)]
pub struct Numbers {
    pub vertices: usize,
    pub faces: usize,
    pub nodes: usize,
    pub root: u32,
    pub adjacency: usize,
    pub edges: usize,
    pub perimeters: usize,
}

// n bytes of src from `from`, over those of dst from `at`. Where n is 0 nothing is asked of `from`.
fn copy_part(src: &[u8], from: usize, dst: &mut [u8], at: usize, n: usize)
    requires { (0 < n → from + n ≤ length src.now) × (at + n ≤ length dst.old) }
    ensures { dst.new ≡ put dst.old at (take n (drop from src.now)) }
{
    // Byte by byte, and the machine takes many at once. `copy_from_slice` becomes a call of `memmove`, which the archive would need from outside.
    for j in 0..n {
        dst[at + j] = src[from + j];
    }
}

// The counts and the root of a file.
#[tactic(auto, unfolding(crate::specs::Written::numbers_of))]
pub fn numbers_of(bytes: &[u8]) -> Numbers
    requires { RightHeader bytes.now }
    ensures { result ≡ numbers_of (parts_of bytes.now) }
{
    let vertices = tables::count_of(bytes, 0);
    let faces = tables::count_of(bytes, 1);
    let nodes = tables::count_of(bytes, 5);
    let root = tables::root_of(bytes);
    let adjacency = tables::count_of(bytes, 6);
    let edges = tables::count_of(bytes, 7);
    let perimeters = tables::count_of(bytes, 8);
    Numbers {
        vertices,
        faces,
        nodes,
        root,
        adjacency,
        edges,
        perimeters,
    }
}

// How many entries table k has, by the counts.
fn count_by(n: Numbers, k: usize) -> usize
    requires { k < 9 }
    ensures { result ≡ count_by n k }
{
    if k == 0 {
        return n.vertices;
    }
    if k < 5 {
        return n.faces;
    }
    if k == 5 {
        return n.nodes;
    }
    if k == 6 {
        return n.adjacency;
    }
    if k == 7 {
        return n.edges;
    }
    n.perimeters
}

// Where table k starts in a fixed form with these counts; where a tenth would is the form's length.
pub fn start_by(n: Numbers, k: usize) -> usize
    requires { Few n × (k ≤ 9) }
    ensures { (result ≡ start_by n k) × (result ≤ 737372) }
{
    let mut at = 136;
    for j in 0..k {
        let t = tables::table_at(j);
        let size = t.size;
        at += count_by(n, j) * size;
    }
    at
}

// The length of the fixed form.
#[tactic(auto, using(tables::proofs::Reading::sized_of, tables::proofs::Reform::whole_length, tables::proofs::Reform::length_form, crate::proofs::Parted::start_by_lem, crate::proofs::Parted::few_numbers))]
pub fn form_length(bytes: &[u8]) -> usize
    requires { RightHeader bytes.now }
    ensures { (result ≡ length (form_of (parts_of bytes.now))) × (result ≤ 737372) }
{
    start_by(numbers_of(bytes), 9)
}

// Where table k starts, as a word.
fn start_word(n: Numbers, k: usize) -> u32
    requires { Few n × (k ≤ 9) }
    ensures { result ≡ start_by n k }
{
    start_by(n, k) as u32
}

// How many entries table k has, as a word.
fn count_word(n: Numbers, k: usize) -> u32
    requires { Few n × (k < 9) }
    ensures { result ≡ count_by n k }
{
    count_by(n, k) as u32
}

// Four words, one after the other.
#[tactic(auto, using(crate::proofs::Parted::four_words))]
fn put_four(out: &mut [u8], at: usize, a: u32, b: u32, c: u32, d: u32)
    requires { at + 16 ≤ length out.old }
    ensures { out.new ≡ put out.old at (bytes_of (a ∷ b ∷ c ∷ d ∷ [])) }
{
    wire::put_u32(out, at, a);
    wire::put_u32(out, at + 4, b);
    wire::put_u32(out, at + 8, c);
    wire::put_u32(out, at + 12, d);
}

// The counts, the root and the offsets of a fixed form, in four parts: the first two.
fn put_fields(n: Numbers, out: &mut [u8])
    requires { Few n × (136 ≤ length out.old) }
    ensures { out.new ≡ put (put out.old 72 (bytes_of (take 4 (fields_by n)))) 88 (bytes_of (take 4 (drop 4 (fields_by n)))) }
{
    let v = count_word(n, 0);
    let f = count_word(n, 1);
    put_four(out, 72, v, start_word(n, 0), f, start_word(n, 1));
    let nodes = count_word(n, 5);
    put_four(
        out,
        88,
        start_word(n, 2),
        start_word(n, 3),
        start_word(n, 4),
        nodes,
    );
}

// The other two parts.
fn put_more_fields(n: Numbers, out: &mut [u8])
    requires { Few n × (136 ≤ length out.old) }
    ensures { out.new ≡ put (put out.old 104 (bytes_of (take 4 (drop 8 (fields_by n))))) 120 (bytes_of (drop 12 (fields_by n))) }
{
    let root = n.root;
    let a = count_word(n, 6);
    put_four(out, 104, start_word(n, 5), root, a, start_word(n, 6));
    let e = count_word(n, 7);
    let p = count_word(n, 8);
    put_four(out, 120, e, start_word(n, 7), p, start_word(n, 8));
}

// Table k, to `at`; where the next one goes.
pub fn copy_table(bytes: &[u8], k: usize, out: &mut [u8], at: usize) -> usize
    requires { RightHeader bytes.now × (k < 9) × (at + 4 * words_in bytes.now k ≤ length out.old) }
    ensures { (result ≡ at + 4 * words_in bytes.now k) × (out.new ≡ put out.old at (take (4 * words_in bytes.now k) (drop (u32_at bytes.now (table_at floor_tables k).offset) bytes.now))) }
{
    let s = tables::span_at(bytes, k);
    let start = s.start;
    let n = s.stop - start;
    copy_part(bytes, start, out, at, n);
    at + n
}

// The header of a fixed form: the file's own first 72 bytes, then these counts, this root and the offsets that follow from them.
#[tactic(auto, using(tables::proofs::Right::header_met, crate::proofs::Parted::head_written))]
pub fn write_head(bytes: &[u8], n: Numbers, out: &mut [u8])
    requires { RightHeader bytes.now × Few n × (136 ≤ length out.old) }
    ensures { out.new ≡ over (head_by (parts_of bytes.now).floats n) out.old }
{
    copy_part(bytes, 0, out, 0, 72);
    put_fields(n, out);
    put_more_fields(n, out);
}

// The fixed form, over the start of out.
pub fn write_form(bytes: &[u8], out: &mut [u8])
    requires { RightHeader bytes.now × (length (form_of (parts_of bytes.now)) ≤ length out.old) }
    ensures { out.new ≡ over (form_of (parts_of bytes.now)) out.old }
{
    let n = numbers_of(bytes);
    write_head(bytes, n, out);
    let mut at = 136;
    for k in 0..9 {
        at = copy_table(bytes, k, out, at);
    }
}
