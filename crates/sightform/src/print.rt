// The fixed form of visibility, printed: names, lines, rooms, and rule 40.
ghost use Rattle.std.specs.Prelude.{◌≡◌, cond, [], ◌∷◌, map, ◌+◌, ◌*◌, ◌^◌, ◌<◌, ◌≤◌, length, eqb};
ghost use Rattle.verdict.specs.Output.{form_answer, form_memory};
ghost use Rattle.verdict.specs.Refusals.{told_form};
ghost use Rattle.letters.specs.Case.{lowered};
ghost use Rattle.printer.specs.Write.{Wrote};
ghost use Rattle.text.specs.Written.{ended, rule40};
ghost use Rattle.layout.specs.Starts.{KeptEntries, kept_name};
ghost use Rattle.sight.specs.Rows.{sees};
ghost use Rattle.sightform.specs.Form.{seen_to, seen_line, room_lines, sight_text};
ghost use Rattle.sightform.specs.Code.{printed_names};

use printer::put_byte;
use rooms::room_name;
use sight::is_seen;
use verdict::{Refusal, Refused};

// The name of room j in lower case, the typed one for room i.
pub(crate) fn put_name(
    out: &mut [u8],
    at: usize,
    layout: &[u8],
    starts: &[usize],
    j: usize,
    i: usize,
    name: &[u8],
) -> usize
    requires { (at < 2 ^ 28) × ((length name.now ≤ 16) × (length (kept_name layout.now starts.now j) ≤ 16)) }
    ensures { Wrote out.old out.new at result (lowered (cond (eqb j i) name.now (kept_name layout.now starts.now j))) }
{
    if j == i {
        return printer::put_lowered(out, at, name);
    }
    printer::put_lowered(out, at, room_name(layout, starts, j))
}

// A seen room: two spaces, the name, LF.
pub(crate) fn put_line(
    out: &mut [u8],
    at: usize,
    layout: &[u8],
    starts: &[usize],
    j: usize,
    i: usize,
    name: &[u8],
) -> usize
    requires { (at < 2 ^ 27) × ((length name.now ≤ 16) × (length (kept_name layout.now starts.now j) ≤ 16)) }
    ensures { Wrote out.old out.new at result (ended (seen_line (lowered (cond (eqb j i) name.now (kept_name layout.now starts.now j))) ∷ [])) }
{
    let a = put_byte(out, at, 32);
    let b = put_byte(out, a, 32);
    let c = put_name(out, b, layout, starts, j, i, name);
    put_byte(out, c, 10)
}

// The line of room j, if a row sees it.
pub(crate) fn put_if_seen(
    out: &mut [u8],
    at: usize,
    layout: &[u8],
    starts: &[usize],
    row: u64,
    j: usize,
    i: usize,
    name: &[u8],
) -> usize
    requires { (at < 2 ^ 27) × ((length name.now ≤ 16) × (length (kept_name layout.now starts.now j) ≤ 16)) }
    ensures { Wrote out.old out.new at result (ended (map seen_line (cond (sees row j) (lowered (cond (eqb j i) name.now (kept_name layout.now starts.now j)) ∷ []) []))) }
{
    if is_seen(row, j) {
        return put_line(out, at, layout, starts, j, i, name);
    }
    at
}

// The seen rooms of a row.
pub(crate) fn put_seen(
    out: &mut [u8],
    at: usize,
    layout: &[u8],
    starts: &[usize],
    n: usize,
    row: u64,
    i: usize,
    name: &[u8],
) -> usize
    requires { (at < 2 ^ 20) × ((length name.now ≤ 16) × KeptEntries layout.now starts.now n) }
    ensures wrote { Wrote out.old out.new at result (ended (map seen_line (seen_to (printed_names layout.now starts.now n i name.now) row n))) }
    ensures end { result ≤ at + 19 * n }
{
    let mut e = at;
    for j in 0..n {
        e = put_if_seen(out, e, layout, starts, row, j, i, name);
    }
    e
}

// A room with its count, and the rooms that it sees.
pub(crate) fn put_room(
    out: &mut [u8],
    at: usize,
    layout: &[u8],
    starts: &[usize],
    n: usize,
    k: usize,
    row: u64,
    i: usize,
    name: &[u8],
) -> usize
    requires small { (at < 2 ^ 19) × ((length name.now ≤ 16) × (k < n)) }
    requires kept { KeptEntries layout.now starts.now n }
    ensures wrote { Wrote out.old out.new at result (ended (room_lines (printed_names layout.now starts.now n i name.now) k row)) }
    ensures end { result ≤ at + 1239 }
{
    let seen = u64::count_ones(row);
    let a = put_name(out, at, layout, starts, k, i, name);
    let b = put_byte(out, a, 32);
    let c = printer::put_plain(out, b, seen as u64);
    let d = put_byte(out, c, 10);
    put_seen(out, d, layout, starts, n, row, i, name)
}

// The fixed form, room i with the typed name.
pub(crate) fn put_form(
    out: &mut [u8],
    layout: &[u8],
    starts: &[usize],
    n: usize,
    rows: &[u64],
    i: usize,
    name: &[u8],
) -> usize
    requires small { (length rows.now ≡ 64) × (length name.now ≤ 16) }
    requires kept { KeptEntries layout.now starts.now n }
    ensures { Wrote out.old out.new 0 result (sight_text (printed_names layout.now starts.now n i name.now) rows.now) }
{
    let mut e = 0;
    for (k, row) in rows[..n].iter().enumerate() {
        e = put_room(out, e, layout, starts, n, k, *row, i, name);
    }
    e
}

// Rule 40, and the form where it fits. A dry run tells its length.
pub(crate) fn write_form(
    out: &mut [u8],
    layout: &[u8],
    starts: &[usize],
    n: usize,
    rows: &[u64],
    i: usize,
    name: &[u8],
) -> Result<u32, Refused>
    requires small { (length rows.now ≡ 64) × (length name.now ≤ 16) }
    requires kept { KeptEntries layout.now starts.now n }
    ensures answer { told_form result ≡ form_answer (rule40 (sight_text (printed_names layout.now starts.now n i name.now) rows.now) (length out.old)) (sight_text (printed_names layout.now starts.now n i name.now) rows.now) }
    ensures memory { out.new ≡ form_memory (rule40 (sight_text (printed_names layout.now starts.now n i name.now) rows.now) (length out.old)) (sight_text (printed_names layout.now starts.now n i name.now) rows.now) out.old }
{
    let m = put_form(&mut out[..0], layout, starts, n, rows, i, name);
    if 65536 < m || out.len() < m {
        return Err(Refused {
            refusal: Refusal::OutputShort,
            place: 0,
        });
    }
    let length = put_form(out, layout, starts, n, rows, i, name);
    Ok(length as u32)
}
