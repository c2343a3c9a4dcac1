// Mending a floor: corners that are stored twice become one, and adjacency, edges and perimeters are worked out afresh.
#![tactic(auto)]

ghost use Rattle.std.specs.Prelude.{◌≡◌, ◌≤◌, length};
ghost use Rattle.verdict.specs.Verdict.{refused, ◌then◌, in_order};
ghost use Rattle.verdict.specs.Memory.{work_size, SamePast};
ghost use Rattle.verdict.specs.Output.{form_memory};
ghost use Rattle.verdict.specs.Refusals.{number_of, verdict_of};
ghost use Rattle.tables.specs.Header.{RightHeader};
ghost use Rattle.tables.specs.Parts.{parts_of, word_place};
ghost use Rattle.fixed.specs.Written.{numbers_of};
ghost use Rattle.mesh.specs.Mesh.{Meshed};
ghost use Rattle.floor.specs.Groups.{rules1to15};
ghost use Rattle.floor.specs.Reader.{early_rules, reader_memory};
ghost use Rattle.corners.specs.Corners.{recornered};
ghost use Rattle.rings.specs.Rings.{edge_list, end_list};
ghost use Rattle.follow.specs.Ready.{web_in, Ready};
ghost use Rattle.seams.specs.Mended.{mended};
ghost use Rattle.seams.specs.Mend.{mended_form, mended_list, room_verdict, rules_and_room, answer_by, mend_answer, mend_output, mend_list};
ghost use Rattle.mending.specs.Worked.{Worked};

use fixed::Numbers;
use follow::Counts;
use seams::Mended;
use verdict::{Refusal, Refused, Verdict};

// Rules 1 to 15, then the same of the floor with the changed corners, with work memory enough.
#[tactic(auto, using(verdict::proofs::Results::here, verdict::proofs::Results::past))]
fn seams_verdict(bytes: &[u8], work: &mut [u8]) -> Verdict
    requires { work_size ≤ length work.old }
    ensures answer { verdict_of result ≡ (rules1to15 bytes.now then in_order (early_rules (word_place bytes.now) (recornered (parts_of bytes.now)))) }
    ensures memory { SamePast work.new work.old }
    ensures ready { (verdict_of result).number ≡ 0 → Ready bytes.now work.new × Meshed (parts_of bytes.now) }
{
    floor::rules_1_to_15(bytes, work)?;
    mates::corners_verdict(bytes, work)
}

// The rings followed and the old edge entries noted.
fn work_out(bytes: &[u8], work: &mut [u8]) -> Counts
    requires { Ready bytes.now work.old }
    ensures worked { Worked bytes.now work.new result.edges }
    ensures counts { (result.edges ≡ length (edge_list (web_in bytes.now))) × (result.rings ≡ length (end_list (web_in bytes.now))) }
    ensures memory { SamePast work.new work.old }
{
    let c = follow::all_rings(bytes, work);
    kept::note_entries(bytes, work);
    c
}

// The mended floor's counts: the file's own but for edges and perimeters.
#[tactic(auto, using(crate::proofs::Steps::counts_of))]
fn mended_numbers(bytes: &[u8], c: Counts) -> Numbers
    requires { RightHeader bytes.now × (c.edges ≡ length (edge_list (web_in bytes.now))) × (c.rings ≡ length (end_list (web_in bytes.now))) }
    ensures { result ≡ numbers_of (mended (parts_of bytes.now)) }
{
    let n = fixed::numbers_of(bytes);
    Numbers {
        vertices: n.vertices,
        faces: n.faces,
        nodes: n.nodes,
        root: n.root,
        adjacency: n.adjacency,
        edges: c.edges,
        perimeters: c.rings,
    }
}

// A refusal: nothing was written.
#[tactic(auto, unfolding(seams::specs::Mend::answer_by))]
fn refused_mending(bytes: &[u8], r: Refused) -> Mended
    ensures { result ≡ answer_by (refused (number_of r.refusal) r.place) bytes.now }
{
    Mended {
        number: r.refusal.number(),
        place: r.place,
        length: 0,
        listed: 0,
    }
}

// 40: an output is too short.
const TOO_SHORT: Refused = Refused {
    refusal: Refusal::OutputShort,
    place: 0,
};

// A floor whose rules are met: 40, or both outputs written.
fn write_both(bytes: &[u8], work: &mut [u8], out: &mut [u8], list: &mut [u8]) -> Mended
    requires { Ready bytes.now work.old × Meshed (parts_of bytes.now) }
    ensures answer { result ≡ answer_by (room_verdict bytes.now (length out.old) (length list.old)) bytes.now }
    ensures memory { SamePast work.new work.old }
    ensures form { out.new ≡ form_memory (room_verdict bytes.now (length out.old) (length list.old)) (mended_form bytes.now) out.old }
    ensures list { list.new ≡ form_memory (room_verdict bytes.now (length out.old) (length list.old)) (mended_list bytes.now) list.old }
{
    let c = work_out(bytes, work);
    let e = c.edges;
    let n = mended_numbers(bytes, c);
    let length = fixed::start_by(n, 9);
    if out.len() < length {
        return refused_mending(bytes, TOO_SHORT);
    }
    let listed = mending::list_length(bytes, work, e);
    if list.len() < listed {
        return refused_mending(bytes, TOO_SHORT);
    }
    mending::write_mended(bytes, work, e, n, out);
    mending::write_list(bytes, work, e, list);
    Mended {
        number: 0,
        place: 0,
        length: length as u32,
        listed: listed as u32,
    }
}

// The rules in order, and both outputs written where they are met, with work memory enough.
fn seams_mended(bytes: &[u8], work: &mut [u8], out: &mut [u8], list: &mut [u8]) -> Mended
    requires { work_size ≤ length work.old }
    ensures answer { result ≡ answer_by (rules_and_room bytes.now (length out.old) (length list.old)) bytes.now }
    ensures memory { SamePast work.new work.old }
    ensures form { out.new ≡ form_memory (rules_and_room bytes.now (length out.old) (length list.old)) (mended_form bytes.now) out.old }
    ensures list { list.new ≡ form_memory (rules_and_room bytes.now (length out.old) (length list.old)) (mended_list bytes.now) list.old }
{
    match seams_verdict(bytes, work) {
        Ok(()) => write_both(bytes, work, out, list),
        Err(r) => refused_mending(bytes, r),
    }
}

// The call: any bytes, any work memory, any outputs. Of the outputs nothing is changed on refusal, and nothing past what is written.
pub fn mend(bytes: &[u8], work: &mut [u8], out: &mut [u8], list: &mut [u8]) -> Mended
    ensures answer { result ≡ mend_answer bytes.now (length work.old) (length out.old) (length list.old) }
    ensures memory { work.new ≡ reader_memory work.old }
    ensures form { out.new ≡ mend_output bytes.now (length work.old) out.old list.old }
    ensures list { list.new ≡ mend_list bytes.now (length work.old) out.old list.old }
{
    if work.len() < verdict::WORK_SIZE {
        let r = Refused {
            refusal: Refusal::WorkMemory,
            place: 0,
        };
        return refused_mending(bytes, r);
    }
    let done = seams_mended(bytes, work, out, list);
    verdict::clear_to(work, verdict::WORK_SIZE);
    done
}
