// The words of an area floor that edits may write: where they lie, and a record laid on.
ghost use Rattle.std.specs.Prelude.{◌≡◌, cond, ◌+◌, ◌≤◌, ◌<◌, length};
ghost use Rattle.wire.specs.Bytes.{u32_at};
ghost use Rattle.tables.specs.Header.{RightHeader};
ghost use Rattle.laying.specs.Kind.{fits, lay};
ghost use Rattle.laying.specs.Area.{area_count, area_field, area_floor};

use super::rules::is_allowed;
use record::{BODY, Rec};

// How many places a tag has.
pub fn count_of(floor: &[u8], tag: u8) -> usize
    requires { RightHeader floor.now }
    ensures { result ≡ area_count floor.now tag }
{
    if tag == 1 {
        return tables::count_of(floor, 1);
    }
    if tag == 2 {
        return tables::count_of(floor, 7);
    }
    if tag == 3 {
        return 12;
    }
    0
}

// Where a place's four bytes lie.
pub(crate) fn field_at(floor: &[u8], tag: u8, place: usize) -> usize
    requires { RightHeader floor.now × (place < area_count floor.now tag) }
    ensures { (result ≡ area_field floor.now tag place) × (result + 4 ≤ length floor.now) }
{
    if tag == 1 {
        return tables::place_of(floor, 2, place, 0);
    }
    if tag == 2 {
        return tables::place_of(floor, 7, place, 1);
    }
    12 + 4 * place
}

// The four bytes of a place.
pub fn word_at(floor: &[u8], tag: u8, place: u32) -> u32
    requires { RightHeader floor.now × (place < area_count floor.now tag) }
    ensures { result ≡ u32_at floor.now (area_field floor.now tag place) }
{
    let at = field_at(floor, tag, place as usize);
    wire::u32_at(floor, at)
}

// Whether a record may be laid on: 27.
pub(crate) fn may_lay(floor: &[u8], r: Rec) -> bool
    requires { RightHeader floor.now }
    ensures { result ≡ fits area_floor floor.now r }
{
    let tag = r.tag;
    let len = r.len;
    let place = r.place;
    let old = r.old;
    let new = r.new;
    if len != BODY {
        return false;
    }
    if count_of(floor, tag) <= place as usize {
        return false;
    }
    if word_at(floor, tag, place) != old {
        return false;
    }
    is_allowed(tag, old, new)
}

// A record with a place on the floor, laid on.
pub fn lay_on(floor: &mut [u8], r: Rec)
    requires { RightHeader floor.old × (r.place < area_count floor.old r.tag) }
    ensures { floor.new ≡ lay area_floor floor.old r }
{
    let tag = r.tag;
    let place = r.place;
    let word = r.new;
    let at = field_at(floor, tag, place as usize);
    wire::put_u32(floor, at, word);
}

// A record laid on, where it may be: whether it was.
pub fn turn(floor: &mut [u8], r: Rec) -> bool
    requires { RightHeader floor.old }
    ensures { (result ≡ fits area_floor floor.old r)
        × (floor.new ≡ cond (fits area_floor floor.old r) (lay area_floor floor.old r) floor.old) }
{
    if may_lay(floor, r) {
        lay_on(floor, r);
        return true;
    }
    false
}
