// Visibility (VIS) in its fixed form, as it is and with another name for a room.
#![tactic(auto)]

ghost use Rattle.std.specs.Prelude.{◌≡◌, length};
ghost use Rattle.verdict.specs.Output.{form_answer, form_memory};
ghost use Rattle.verdict.specs.Refusals.{told_form};
ghost use Rattle.sightform.specs.Rewrite.{rewritten_sight, renamed_sight, sight_rewrite_verdict, sight_rename_verdict};

use verdict::{Form, Refused};

mod print;

// The refusals and 40, or the fixed form of visibility written: how many bytes.
fn rewritten(layout: &[u8], vis: &[u8], out: &mut [u8]) -> Result<u32, Refused>
    ensures answer { told_form result ≡ form_answer (sight_rewrite_verdict layout.now vis.now (length out.old)) (rewritten_sight layout.now vis.now) }
    ensures memory { out.new ≡ form_memory (sight_rewrite_verdict layout.now vis.now (length out.old)) (rewritten_sight layout.now vis.now) out.old }
{
    let r = layout::read(layout)?;
    let rows = sight::look(layout, Ok(r), vis)?;
    let n = r.rooms;
    let starts = r.starts;
    print::write_form(out, layout, &starts, n, &rows, 64, &layout[..0])
}

// Visibility in its fixed form.
pub fn sight_rewrite(layout: &[u8], vis: &[u8], out: &mut [u8]) -> Form
    ensures answer { result ≡ form_answer (sight_rewrite_verdict layout.now vis.now (length out.old)) (rewritten_sight layout.now vis.now) }
    ensures memory { out.new ≡ form_memory (sight_rewrite_verdict layout.now vis.now (length out.old)) (rewritten_sight layout.now vis.now) out.old }
{
    Form::from(rewritten(layout, vis, out))
}

// The refusals, those of the name and 40, or the fixed form with another name for a room written: how many bytes.
fn renamed(
    layout: &[u8],
    vis: &[u8],
    room: u32,
    name: &[u8],
    out: &mut [u8],
) -> Result<u32, Refused>
    ensures answer { told_form result ≡ form_answer (sight_rename_verdict layout.now vis.now room name.now (length out.old)) (renamed_sight layout.now vis.now room name.now) }
    ensures memory { out.new ≡ form_memory (sight_rename_verdict layout.now vis.now room name.now (length out.old)) (renamed_sight layout.now vis.now room name.now) out.old }
{
    let r = layout::read(layout)?;
    let rows = sight::look(layout, Ok(r), vis)?;
    rooms::name_verdict(layout, Ok(r), room, name)?;
    let n = r.rooms;
    let starts = r.starts;
    print::write_form(out, layout, &starts, n, &rows, room as usize, name)
}

// The same with another name for a room.
pub fn sight_rename(layout: &[u8], vis: &[u8], room: u32, name: &[u8], out: &mut [u8]) -> Form
    ensures answer { result ≡ form_answer (sight_rename_verdict layout.now vis.now room name.now (length out.old)) (renamed_sight layout.now vis.now room name.now) }
    ensures memory { out.new ≡ form_memory (sight_rename_verdict layout.now vis.now room name.now (length out.old)) (renamed_sight layout.now vis.now room name.now) out.old }
{
    Form::from(renamed(layout, vis, room, name, out))
}
