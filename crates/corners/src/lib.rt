// A floor's corners as they are when mended: read from the file through the map of vertices in the work memory.
#![tactic(auto)]

ghost use Rattle.std.specs.Prelude.{◌≡◌, ◌+◌, ◌<◌, ◌≤◌, length};
ghost use Rattle.verdict.specs.Memory.{work_size};
ghost use Rattle.tables.specs.Header.{RightHeader};
ghost use Rattle.tables.specs.Parts.{parts_of};
ghost use Rattle.mesh.specs.Mesh.{Cornered};
ghost use Rattle.pairs.specs.Halves.{halves, from, to, border};
ghost use Rattle.corners.specs.Corners.{lowest_same, recornered};
ghost use Rattle.corners.specs.Memory.{top, Mapped, Mated};

// Where the map of vertices starts in the work memory; where the numbers kept of half-edges start; the least of a border's.
pub const MAP_AT: usize = 57344;

pub const MATES_AT: usize = 32768;

pub const LOOSE: usize = 32768;

// The lowest vertex with the coordinates of vertex v.
pub fn lowest_of(bytes: &[u8], work: &[u8], v: usize) -> usize
    requires right_header { RightHeader bytes.now × (v < (parts_of bytes.now).vertices) }
    requires mapped { (work_size ≤ length work.now) × Mapped (parts_of bytes.now) (top work.now) }
    ensures { (result ≡ lowest_same (parts_of bytes.now) v) × (result < 65536) }
{
    wire::u16_at(work, MAP_AT + 2 * v)
}

// The vertex where half-edge h starts.
#[tactic(auto, using(tables::proofs::Reading::sized_of, crate::proofs::Corners::mended_from, crate::proofs::Corners::from_vertex))]
pub fn from_of(bytes: &[u8], work: &[u8], h: usize) -> usize
    requires right_header { RightHeader bytes.now × Cornered (parts_of bytes.now) × (h < halves (parts_of bytes.now)) }
    requires mapped { (work_size ≤ length work.now) × Mapped (parts_of bytes.now) (top work.now) }
    ensures { (result ≡ from (recornered (parts_of bytes.now)) h) × (result < 65536) }
{
    let v = pairs::from_of(bytes, h);
    lowest_of(bytes, work, v)
}

// The vertex where half-edge h ends.
#[tactic(auto, using(tables::proofs::Reading::sized_of, crate::proofs::Corners::mended_to, crate::proofs::Corners::to_vertex))]
pub fn to_of(bytes: &[u8], work: &[u8], h: usize) -> usize
    requires right_header { RightHeader bytes.now × Cornered (parts_of bytes.now) × (h < halves (parts_of bytes.now)) }
    requires mapped { (work_size ≤ length work.now) × Mapped (parts_of bytes.now) (top work.now) }
    ensures { (result ≡ to (recornered (parts_of bytes.now)) h) × (result < 65536) }
{
    let v = pairs::to_of(bytes, h);
    lowest_of(bytes, work, v)
}

// Whether half-edge h is a border: the number kept of it says so.
pub fn is_border(bytes: &[u8], work: &[u8], h: usize) -> bool
    requires right_header { RightHeader bytes.now × (h < halves (parts_of bytes.now)) }
    requires mated { (work_size ≤ length work.now) × Mated (recornered (parts_of bytes.now)) work.now }
    ensures { result ≡ border (recornered (parts_of bytes.now)) h }
{
    LOOSE <= wire::u16_at(work, MATES_AT + 2 * h)
}
