// Every call that the exhibit's engine makes, under the names and with the numbers of the C interface. Each passes on to the function of that
// meaning and promises the same.
#![tactic(auto)]

ghost use Rattle.std.specs.Prelude.{◌≡◌, length};
ghost use Rattle.verdict.specs.Output.{form_answer, form_memory};
ghost use Rattle.floor.specs.Reader.{reader_answer, reader_memory};
ghost use Rattle.floor.specs.Rewrite.{rewrite_answer, rewrite_memory};
ghost use Rattle.seams.specs.Mend.{mend_answer, mend_output, mend_list};
ghost use Rattle.plant.specs.Plant.{plant_answer, plant_output};
ghost use Rattle.query.specs.Points.{point_answer};
ghost use Rattle.height.specs.Feet.{height_answer};
ghost use Rattle.laying.specs.Area.{area_floor};
ghost use Rattle.journal.specs.Wish.{paint, link, nudge};
ghost use Rattle.journal.specs.Step.{lent, left};
ghost use Rattle.journal.specs.Calls.{edit, undo, put_back, step};
ghost use Rattle.layoutform.specs.Form.{parts_of, form_text};
ghost use Rattle.layoutform.specs.Rewrite.{rewrite_verdict, rename_verdict, renamed_form};
ghost use Rattle.caption.specs.Caption.{caption_at};
ghost use Rattle.sight.specs.Sight.{row_answer};
ghost use Rattle.sightform.specs.Rewrite.{rewritten_sight, renamed_sight, sight_rewrite_verdict, sight_rename_verdict};
ghost use Rattle.links.specs.Links.{link_verdict};

use caption::CaptionAt;
use floor::Floor;
use height::Height;
use journal::Session;
use query::Point;
use seams::Mended;
use sight::Row;
use verdict::{Answer, Form};

// The reader: rules 1 to 20, and the counts.
#[unsafe(no_mangle)]
pub extern "C" fn wp_read(bytes: &[u8], work: &mut [u8]) -> Floor
    ensures answer { result ≡ reader_answer bytes.now (length work.old) }
    ensures memory { work.new ≡ reader_memory work.old }
{
    floor::read(bytes, work)
}

// A floor in its fixed form.
#[unsafe(no_mangle)]
pub extern "C" fn wp_rewrite(bytes: &[u8], work: &mut [u8], out: &mut [u8]) -> Form
    ensures answer { result ≡ rewrite_answer bytes.now (length work.old) (length out.old) }
    ensures memory { work.new ≡ reader_memory work.old }
    ensures output { out.new ≡ rewrite_memory bytes.now (length work.old) out.old }
{
    floor::rewrite(bytes, work, out)
}

// A floor mended: its fixed form, and the list of changes.
#[unsafe(no_mangle)]
pub extern "C" fn wp_mend(bytes: &[u8], work: &mut [u8], out: &mut [u8], list: &mut [u8]) -> Mended
    ensures answer { result ≡ mend_answer bytes.now (length work.old) (length out.old) (length list.old) }
    ensures memory { work.new ≡ reader_memory work.old }
    ensures form { out.new ≡ mend_output bytes.now (length work.old) out.old list.old }
    ensures list { list.new ≡ mend_list bytes.now (length work.old) out.old list.old }
{
    mend::mend(bytes, work, out, list)
}

// A floor that comes without a tree, with one: its fixed form.
#[unsafe(no_mangle)]
pub extern "C" fn wp_tree(bytes: &[u8], work: &mut [u8], out: &mut [u8]) -> Form
    ensures answer { result ≡ plant_answer bytes.now (length work.old) (length out.old) }
    ensures memory { work.new ≡ reader_memory work.old }
    ensures output { out.new ≡ plant_output bytes.now (length work.old) out.old }
{
    plant::plant(bytes, work, out)
}

// The point query, x and y in sixty-fourths.
#[unsafe(no_mangle)]
pub extern "C" fn wp_query(bytes: &[u8], work: &mut [u8], x: i32, y: i32) -> Point
    ensures answer { result ≡ point_answer bytes.now (length work.old) x y }
    ensures memory { work.new ≡ reader_memory work.old }
{
    query::query(bytes, work, x, y)
}

// The same, and the height of the face found, in sixty-fourths, rounded down.
#[unsafe(no_mangle)]
pub extern "C" fn wp_height(bytes: &[u8], work: &mut [u8], x: i32, y: i32) -> Height
    ensures answer { result ≡ height_answer bytes.now (length work.old) x y }
    ensures memory { work.new ≡ reader_memory work.old }
{
    height::height_at(bytes, work, x, y)
}

// Another material for a face.
#[unsafe(no_mangle)]
pub extern "C" fn wp_paint(
    floor: &mut [u8],
    journal: &mut [u8],
    f: u32,
    bench: u32,
    face: u32,
    material: u32,
) -> Session
    ensures { left result floor.new journal.new
        ≡ step area_floor (edit bench (paint face material)) (lent floor.old journal.old f) }
{
    journal::paint(floor, journal, f, bench, face, material)
}

// Another transition for an edge entry.
#[unsafe(no_mangle)]
pub extern "C" fn wp_link(
    floor: &mut [u8],
    journal: &mut [u8],
    f: u32,
    bench: u32,
    entry: u32,
    transition: i32,
) -> Session
    ensures { left result floor.new journal.new
        ≡ step area_floor (edit bench (link entry transition)) (lent floor.old journal.old f) }
{
    journal::link(floor, journal, f, bench, entry, transition)
}

// A float of the four use positions moved by so many sixty-fourths.
#[unsafe(no_mangle)]
pub extern "C" fn wp_nudge(
    floor: &mut [u8],
    journal: &mut [u8],
    f: u32,
    bench: u32,
    place: u32,
    by: i32,
) -> Session
    ensures { left result floor.new journal.new
        ≡ step area_floor (edit bench (nudge place by)) (lent floor.old journal.old f) }
{
    journal::nudge(floor, journal, f, bench, place, by)
}

// The bench's latest record undone and taken out.
#[unsafe(no_mangle)]
pub extern "C" fn wp_undo(floor: &mut [u8], journal: &mut [u8], f: u32, bench: u32) -> Session
    ensures { left result floor.new journal.new
        ≡ step area_floor (undo bench) (lent floor.old journal.old f) }
{
    journal::undo(floor, journal, f, bench)
}

// All of the bench's records undone and taken out.
#[unsafe(no_mangle)]
pub extern "C" fn wp_put_back(floor: &mut [u8], journal: &mut [u8], f: u32, bench: u32) -> Session
    ensures { left result floor.new journal.new
        ≡ step area_floor (put_back bench) (lent floor.old journal.old f) }
{
    journal::put_back(floor, journal, f, bench)
}

// A layout in its fixed form.
#[unsafe(no_mangle)]
pub extern "C" fn wp_layout_rewrite(text: &[u8], out: &mut [u8]) -> Form
    ensures answer { result ≡ form_answer (rewrite_verdict text.now (length out.old)) (form_text (parts_of text.now)) }
    ensures memory { out.new ≡ form_memory (rewrite_verdict text.now (length out.old)) (form_text (parts_of text.now)) out.old }
{
    layoutform::layout_rewrite(text, out)
}

// The same with another name for a room.
#[unsafe(no_mangle)]
pub extern "C" fn wp_layout_rename(text: &[u8], room: u32, name: &[u8], out: &mut [u8]) -> Form
    ensures answer { result ≡ form_answer (rename_verdict text.now room name.now (length out.old)) (renamed_form text.now room name.now) }
    ensures memory { out.new ≡ form_memory (rename_verdict text.now room name.now (length out.old)) (renamed_form text.now room name.now) out.old }
{
    layoutform::layout_rename(text, room, name, out)
}

// Visibility in its fixed form.
#[unsafe(no_mangle)]
pub extern "C" fn wp_sight_rewrite(layout: &[u8], vis: &[u8], out: &mut [u8]) -> Form
    ensures answer { result ≡ form_answer (sight_rewrite_verdict layout.now vis.now (length out.old)) (rewritten_sight layout.now vis.now) }
    ensures memory { out.new ≡ form_memory (sight_rewrite_verdict layout.now vis.now (length out.old)) (rewritten_sight layout.now vis.now) out.old }
{
    sightform::sight_rewrite(layout, vis, out)
}

// The same with another name for a room.
#[unsafe(no_mangle)]
pub extern "C" fn wp_sight_rename(
    layout: &[u8],
    vis: &[u8],
    room: u32,
    name: &[u8],
    out: &mut [u8],
) -> Form
    ensures answer { result ≡ form_answer (sight_rename_verdict layout.now vis.now room name.now (length out.old)) (renamed_sight layout.now vis.now room name.now) }
    ensures memory { out.new ≡ form_memory (sight_rename_verdict layout.now vis.now room name.now (length out.old)) (renamed_sight layout.now vis.now room name.now) out.old }
{
    sightform::sight_rename(layout, vis, room, name, out)
}

// A room's row, and how many rooms it sees.
#[unsafe(no_mangle)]
pub extern "C" fn wp_sight_row(layout: &[u8], vis: &[u8], room: u32) -> Row
    ensures { result ≡ row_answer layout.now vis.now room }
{
    sight::sight_row(layout, vis, room)
}

// Whether every transition leads to a room of a layout.
#[unsafe(no_mangle)]
pub extern "C" fn wp_link_check(bytes: &[u8], work: &mut [u8], text: &[u8]) -> Answer
    ensures answer { result ≡ link_verdict bytes.now (length work.old) text.now }
    ensures memory { work.new ≡ reader_memory work.old }
{
    links::link_check(bytes, work, text)
}

// A room's name as a place in one of two texts.
#[unsafe(no_mangle)]
pub extern "C" fn wp_caption(visitor: &[u8], house: &[u8], room: u32) -> CaptionAt
    ensures { result ≡ caption_at visitor.now house.now room }
{
    caption::caption_at(visitor, house, room)
}
