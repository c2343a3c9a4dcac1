// A tree for a floor that comes without one (M-113): the call.
#![tactic(auto)]

ghost use Rattle.std.specs.Prelude.{◌≡◌, ◌+◌, ◌*◌, ◌<◌, ◌≤◌, length};
ghost use Rattle.verdict.specs.Memory.{work_size, SamePast};
ghost use Rattle.verdict.specs.Output.{over, form_answer, form_memory};
ghost use Rattle.verdict.specs.Refusals.{verdict_of, told_form};
ghost use Rattle.wire.specs.Bytes.{put};
ghost use Rattle.wire.specs.Words.{bytes_of};
ghost use Rattle.tables.specs.Header.{RightHeader};
ghost use Rattle.tables.specs.Parts.{parts_of, table_of};
ghost use Rattle.tables.specs.Fixed.{form_of};
ghost use Rattle.fixed.specs.Written.{numbers_of};
ghost use Rattle.mesh.specs.Mesh.{Meshed};
ghost use Rattle.floor.specs.Reader.{reader_memory};
ghost use Rattle.planting.specs.Planting.{planted};
ghost use Rattle.plant.specs.Plant.{planted_form, rule40, bare_verdict, plant_answer, plant_output};

use fixed::Numbers;
use verdict::{Form, Refusal, Refused, Verdict, refuse_if};

// The table of nodes, and the header's field of their count.
const NODES: usize = 5;

const NODE_COUNT_FIELD: u32 = 100;

// Rules 1 to 10, then 49, then 15 to 19, with work memory enough.
#[tactic(auto, using(verdict::proofs::Results::here, verdict::proofs::Results::past), unfolding(crate::specs::Plant::bare_verdict, crate::specs::Plant::rule49))]
fn bare_verdict(bytes: &[u8], work: &mut [u8]) -> Verdict
    requires { work_size ≤ length work.old }
    ensures answer { verdict_of result ≡ bare_verdict bytes.now }
    ensures memory { SamePast work.new work.old }
{
    header::header_verdict(bytes)?;
    mesh::mesh_verdict(bytes)?;
    refuse_if(
        nodes::node_count(bytes) != 0,
        Refusal::HasTree,
        NODE_COUNT_FIELD,
    )?;
    floor::borders_verdict(bytes, work)
}

// The counts of the floor with its tree: the file's own but for the nodes; the root is 0.
fn planted_numbers(bytes: &[u8]) -> Numbers
    requires { RightHeader bytes.now }
    ensures { result ≡ numbers_of (planted (parts_of bytes.now)) }
{
    let n = fixed::numbers_of(bytes);
    let nodes = nodes::nodes_for(n.faces);
    Numbers {
        vertices: n.vertices,
        faces: n.faces,
        nodes,
        root: 0,
        adjacency: n.adjacency,
        edges: n.edges,
        perimeters: n.perimeters,
    }
}

// Table k of the floor with its tree, to `at`; where the next one goes.
fn put_table(bytes: &[u8], k: usize, out: &mut [u8], at: usize) -> usize
    requires { RightHeader bytes.now × Meshed (parts_of bytes.now) × (k < 9) × (at ≤ 737372) × (at + 4 * length (table_of (planted (parts_of bytes.now)) k) ≤ length out.old) }
    ensures next { result ≡ at + 4 * length (table_of (planted (parts_of bytes.now)) k) }
    ensures table { out.new ≡ put out.old at (bytes_of (table_of (planted (parts_of bytes.now)) k)) }
{
    if k == NODES {
        return planting::put_tree(bytes, out, at);
    }
    fixed::copy_table(bytes, k, out, at)
}

// The fixed form of the floor with its tree, over the start of out: n has its counts.
fn write_planted(bytes: &[u8], n: Numbers, out: &mut [u8])
    requires ready { RightHeader bytes.now × Meshed (parts_of bytes.now) × (n ≡ numbers_of (planted (parts_of bytes.now))) }
    requires room { length (form_of (planted (parts_of bytes.now))) ≤ length out.old }
    ensures { out.new ≡ over (form_of (planted (parts_of bytes.now))) out.old }
{
    fixed::write_head(bytes, n, out);
    let mut at = 136;
    for k in 0..9 {
        at = put_table(bytes, k, out, at);
    }
}

// A floor whose rules are met: 40, or the form written: how many bytes.
fn write_out(bytes: &[u8], out: &mut [u8]) -> Result<u32, Refused>
    requires { RightHeader bytes.now × Meshed (parts_of bytes.now) }
    ensures answer { told_form result ≡ form_answer (rule40 bytes.now (length out.old)) (planted_form bytes.now) }
    ensures output { out.new ≡ form_memory (rule40 bytes.now (length out.old)) (planted_form bytes.now) out.old }
{
    let n = planted_numbers(bytes);
    let length = fixed::start_by(n, 9);
    if out.len() < length {
        return Err(Refused {
            refusal: Refusal::OutputShort,
            place: 0,
        });
    }
    write_planted(bytes, n, out);
    Ok(length as u32)
}

// The refusals in order, or the form written: how many bytes.
fn written(bytes: &[u8], work: &mut [u8], out: &mut [u8]) -> Result<u32, Refused>
    ensures answer { told_form result ≡ plant_answer bytes.now (length work.old) (length out.old) }
    ensures memory { work.new ≡ reader_memory work.old }
    ensures output { out.new ≡ plant_output bytes.now (length work.old) out.old }
{
    if work.len() < verdict::WORK_SIZE {
        return Err(Refused {
            refusal: Refusal::WorkMemory,
            place: 0,
        });
    }
    let so = bare_verdict(bytes, work);
    verdict::clear_to(work, verdict::WORK_SIZE);
    so?;
    write_out(bytes, out)
}

// The call: any bytes, any work memory, any output. Of the output nothing is changed on refusal, and nothing past the form.
pub fn plant(bytes: &[u8], work: &mut [u8], out: &mut [u8]) -> Form
    ensures answer { result ≡ plant_answer bytes.now (length work.old) (length out.old) }
    ensures memory { work.new ≡ reader_memory work.old }
    ensures output { out.new ≡ plant_output bytes.now (length work.old) out.old }
{
    Form::from(written(bytes, work, out))
}
