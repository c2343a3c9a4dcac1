// The rooms of a layout: how many there are, their names, and whether one may have a typed name.
#![tactic(auto)]

ghost use Rattle.std.specs.Prelude.{◌≡◌};
ghost use Rattle.verdict.specs.Refusals.{verdict_of};
ghost use Rattle.layout.specs.Starts.{kept_name, told, layout_read};
ghost use Rattle.rooms.specs.Rooms.{told_rooms, rooms_of, name_verdict};

use layout::Layout;
use names::is_name;
use text::{line_at, word};
use verdict::{Refusal, Refused, Verdict, refuse_if};

// 21, 34 and 37: whether a room of a layout, as that was read, may have a typed name. A refused layout has no room.
pub fn name_verdict(text: &[u8], read: Result<Layout, Refused>, room: u32, name: &[u8]) -> Verdict
    requires { told read ≡ layout_read text.now }
    ensures { verdict_of result ≡ name_verdict text.now room name.now }
{
    let no_room = Refused {
        refusal: Refusal::NoSuchPlace,
        place: room,
    };
    let Ok(r) = read else {
        return Err(no_room);
    };
    let i = room as usize;
    let n = r.rooms;
    if n <= i {
        return Err(no_room);
    }
    if !is_name(name) {
        return Err(Refused {
            refusal: Refusal::Name,
            place: 0,
        });
    }
    let starts = r.starts;
    refuse_if(
        layout::is_known(text, &starts, n, i, name),
        Refusal::NameTwice,
        0,
    )
}

// How many rooms a layout has, or why it is refused.
pub fn room_count(text: &[u8]) -> Result<u32, Refused>
    ensures { told_rooms result ≡ rooms_of text.now }
{
    let r = layout::read(text)?;
    Ok(r.rooms as u32)
}

// The name of the entry whose start is kept at k, a part of the text; empty where none is kept.
pub fn room_name<'a>(text: &'a [u8], starts: &[usize], k: usize) -> &'a [u8]
    ensures { result.now ≡ kept_name text.now starts.now k }
{
    if k < starts.len() {
        return word(line_at(text, starts[k]), 0);
    }
    &text[..0]
}
