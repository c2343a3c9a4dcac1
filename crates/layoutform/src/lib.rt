// Layouts (LYT) in their fixed form, as they are and with another name for a room.
#![tactic(auto)]

ghost use Rattle.std.specs.Prelude.{◌≡◌, length};
ghost use Rattle.verdict.specs.Output.{form_answer, form_memory};
ghost use Rattle.verdict.specs.Refusals.{told_form};
ghost use Rattle.layoutform.specs.Form.{parts_of, form_text};
ghost use Rattle.layoutform.specs.Rewrite.{renamed_form, rewrite_verdict, rename_verdict};

use verdict::{Form, Refused};

mod print;

// A layout's refusals and 40, or its fixed form written: how many bytes.
fn rewritten(text: &[u8], out: &mut [u8]) -> Result<u32, Refused>
    ensures answer { told_form result ≡ form_answer (rewrite_verdict text.now (length out.old)) (form_text (parts_of text.now)) }
    ensures memory { out.new ≡ form_memory (rewrite_verdict text.now (length out.old)) (form_text (parts_of text.now)) out.old }
{
    let r = layout::read(text)?;
    print::write_form(out, text, r, 64, &text[..0])
}

// A layout text in its fixed form.
pub fn layout_rewrite(text: &[u8], out: &mut [u8]) -> Form
    ensures answer { result ≡ form_answer (rewrite_verdict text.now (length out.old)) (form_text (parts_of text.now)) }
    ensures memory { out.new ≡ form_memory (rewrite_verdict text.now (length out.old)) (form_text (parts_of text.now)) out.old }
{
    Form::from(rewritten(text, out))
}

// A layout's refusals, those of the name and 40, or its fixed form with another name for a room written: how many bytes.
fn renamed(text: &[u8], room: u32, name: &[u8], out: &mut [u8]) -> Result<u32, Refused>
    ensures answer { told_form result ≡ form_answer (rename_verdict text.now room name.now (length out.old)) (renamed_form text.now room name.now) }
    ensures memory { out.new ≡ form_memory (rename_verdict text.now room name.now (length out.old)) (renamed_form text.now room name.now) out.old }
{
    let r = layout::read(text)?;
    rooms::name_verdict(text, Ok(r), room, name)?;
    print::write_form(out, text, r, room as usize, name)
}

// The same with another name for a room.
pub fn layout_rename(text: &[u8], room: u32, name: &[u8], out: &mut [u8]) -> Form
    ensures answer { result ≡ form_answer (rename_verdict text.now room name.now (length out.old)) (renamed_form text.now room name.now) }
    ensures memory { out.new ≡ form_memory (rename_verdict text.now room name.now (length out.old)) (renamed_form text.now room name.now) out.old }
{
    Form::from(renamed(text, room, name, out))
}
