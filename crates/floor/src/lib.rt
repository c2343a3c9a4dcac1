// The reader of a floor: rules 1 to 20 in order, and the counts; and the rewriter, which gives a floor's fixed form.
#![tactic(auto)]

ghost use Rattle.std.specs.Prelude.{◌≡◌, ◌≤◌, length};
ghost use Rattle.verdict.specs.Memory.{work_size, SamePast};
ghost use Rattle.tables.specs.Header.{RightHeader};
ghost use Rattle.tables.specs.Parts.{parts_of, word_place};
ghost use Rattle.verdict.specs.Verdict.{accepted};
ghost use Rattle.verdict.specs.Refusals.{verdict_of, told_form};
ghost use Rattle.floor.specs.Reader.{reader_verdict, walkable_faces, answer_of, reader_answer, reader_memory};
ghost use Rattle.floor.specs.Rewrite.{rewrite_answer, rewrite_memory};
ghost use Rattle.floor.specs.Groups.{rules7to12, rules15to19, rules1to14, rules1to15, rules1to19};

use verdict::{Form, Refusal, Refused, Verdict};

// What the reader answers: a number, a place, and the counts, which are 0 on refusal.
#[repr(C)]
#[derive(Clone, Copy)]
pub struct Floor {
    pub number: u32,
    pub place: u32,
    pub faces: u32,
    pub walkable: u32,
    pub edges: u32,
    pub perimeters: u32,
}

// Rules 7 to 12 of a file with a right header.
#[tactic(auto, using(verdict::proofs::Results::here, verdict::proofs::Results::past), unfolding(crate::specs::Groups::rules7to12))]
fn shape_verdict(bytes: &[u8]) -> Verdict
    requires { RightHeader bytes.now }
    ensures { verdict_of result ≡ rules7to12 (word_place bytes.now) (parts_of bytes.now) }
{
    mesh::mesh_verdict(bytes)?;
    nodes::nodes_verdict(bytes)
}

// Rules 15 to 19.
#[tactic(auto, using(verdict::proofs::Results::here, verdict::proofs::Results::past), unfolding(crate::specs::Groups::rules15to19))]
pub fn borders_verdict(bytes: &[u8], work: &mut [u8]) -> Verdict
    requires { RightHeader bytes.now × (work_size ≤ length work.old) }
    ensures answer { verdict_of result ≡ rules15to19 (parts_of bytes.now) }
    ensures memory { SamePast work.new work.old }
{
    pairs::pairs_verdict(bytes, work)?;
    border::loops_verdict(bytes, work)
}

// Rules 1 to 14, with work memory enough.
#[tactic(auto, using(verdict::proofs::Results::here, verdict::proofs::Results::past), unfolding(crate::specs::Groups::rules1to14))]
fn rules_1_to_14(bytes: &[u8], work: &mut [u8]) -> Verdict
    requires { work_size ≤ length work.old }
    ensures answer { verdict_of result ≡ rules1to14 bytes.now }
    ensures memory { SamePast work.new work.old }
{
    header::header_verdict(bytes)?;
    shape_verdict(bytes)?;
    tree::tree_verdict(bytes, work)
}

// Rules 1 to 15, with work memory enough.
#[tactic(auto, using(verdict::proofs::Results::here, verdict::proofs::Results::past), unfolding(crate::specs::Groups::rules1to15))]
pub fn rules_1_to_15(bytes: &[u8], work: &mut [u8]) -> Verdict
    requires { work_size ≤ length work.old }
    ensures answer { verdict_of result ≡ rules1to15 bytes.now }
    ensures memory { SamePast work.new work.old }
{
    rules_1_to_14(bytes, work)?;
    pairs::runs_verdict(bytes, work)
}

// Rules 1 to 19, with work memory enough.
#[tactic(auto, using(verdict::proofs::Results::here, verdict::proofs::Results::past), unfolding(crate::specs::Groups::rules1to19))]
fn floor_verdict(bytes: &[u8], work: &mut [u8]) -> Verdict
    requires { work_size ≤ length work.old }
    ensures answer { verdict_of result ≡ rules1to19 bytes.now }
    ensures memory { SamePast work.new work.old }
{
    rules_1_to_14(bytes, work)?;
    borders_verdict(bytes, work)
}

// The reader's refusals. The rules use the work memory as they like; here, once, it is made zero. What lies past it is as it was.
pub fn read_verdict(bytes: &[u8], work: &mut [u8]) -> Verdict
    ensures answer { verdict_of result ≡ reader_verdict bytes.now (length work.old) }
    ensures memory { work.new ≡ reader_memory work.old }
{
    if work.len() < verdict::WORK_SIZE {
        return Err(Refused {
            refusal: Refusal::WorkMemory,
            place: 0,
        });
    }
    let so = floor_verdict(bytes, work);
    verdict::clear_to(work, verdict::WORK_SIZE);
    so
}

// The answer for an accepted floor.
#[tactic(auto, unfolding(crate::specs::Reader::answer_of))]
fn counted(bytes: &[u8]) -> Floor
    requires { RightHeader bytes.now × (walkable_faces (parts_of bytes.now) ≡ (parts_of bytes.now).adjacency) }
    ensures { result ≡ answer_of accepted (parts_of bytes.now) }
{
    let faces = tables::count_of(bytes, 1) as u32;
    let walkable = tables::count_of(bytes, 6) as u32;
    let edges = tables::count_of(bytes, 7) as u32;
    let perimeters = tables::count_of(bytes, 8) as u32;
    Floor {
        number: 0,
        place: 0,
        faces,
        walkable,
        edges,
        perimeters,
    }
}

// The reader: any bytes, any work memory.
pub fn read(bytes: &[u8], work: &mut [u8]) -> Floor
    ensures answer { result ≡ reader_answer bytes.now (length work.old) }
    ensures memory { work.new ≡ reader_memory work.old }
{
    match read_verdict(bytes, work) {
        Ok(()) => counted(bytes),
        Err(refused) => Floor {
            number: refused.refusal.number(),
            place: refused.place,
            faces: 0,
            walkable: 0,
            edges: 0,
            perimeters: 0,
        },
    }
}

// The rewriter's refusals, the reader's and then 40, or the form written: how many bytes.
#[tactic(auto, using(verdict::proofs::Results::here, verdict::proofs::Results::past, verdict::proofs::Results::refused_answer, verdict::proofs::Results::refused_memory, verdict::proofs::Results::written_answer, verdict::proofs::Results::written_memory), unfolding(crate::specs::Rewrite::rewrite_answer, crate::specs::Rewrite::rewrite_memory, crate::specs::Rewrite::rewrite_verdict, crate::specs::Rewrite::fixed_form))]
fn rewritten(bytes: &[u8], work: &mut [u8], out: &mut [u8]) -> Result<u32, Refused>
    ensures answer { told_form result ≡ rewrite_answer bytes.now (length work.old) (length out.old) }
    ensures memory { work.new ≡ reader_memory work.old }
    ensures output { out.new ≡ rewrite_memory bytes.now (length work.old) out.old }
{
    read_verdict(bytes, work)?;
    let length = fixed::form_length(bytes);
    if out.len() < length {
        return Err(Refused {
            refusal: Refusal::OutputShort,
            place: 0,
        });
    }
    fixed::write_form(bytes, out);
    Ok(length as u32)
}

// The rewriter: any bytes, any work memory, any output. Of the output nothing is changed on refusal, and nothing past the form.
pub fn rewrite(bytes: &[u8], work: &mut [u8], out: &mut [u8]) -> Form
    ensures answer { result ≡ rewrite_answer bytes.now (length work.old) (length out.old) }
    ensures memory { work.new ≡ reader_memory work.old }
    ensures output { out.new ≡ rewrite_memory bytes.now (length work.old) out.old }
{
    Form::from(rewritten(bytes, work, out))
}
