// A line of visibility: the room that it names, what is wrong with it, and what it adds.
ghost use Rattle.std.specs.Prelude.{◌≡◌, true, false, ◌+◌, ◌<◌, length, get_or};
ghost use Rattle.text.specs.Scan.{words};
ghost use Rattle.names.specs.Name.{is_name};
ghost use Rattle.number.specs.Count.{is_count};
ghost use Rattle.text.specs.Reading.{fault_of, nth};
ghost use Rattle.layout.specs.Starts.{KeptEntries};
ghost use Rattle.sight.specs.Rows.{sees, with_mark};
ghost use Rattle.sight.specs.Grammar.{room_of, room_fault, seen_fault, observer_fault, line_fault, moved_to, rows_behind};
ghost use Rattle.sight.specs.Code.{kept_names, state_of, told_turn, turn_of, rows_after};

use super::{Looking, is_seen};
use names::is_name;
use number::is_count;
use rooms::room_name;
use text::{word, word_count};
use verdict::Refusal;

// The row with mark j, which is not set yet.
pub(crate) fn with_mark(row: u64, j: usize) -> u64
    requires { (j < 64) × (sees row j ≡ false) }
    ensures { result ≡ with_mark row j }
{
    row + (1u64 << j)
}

// The first of n rooms that has a name, or n.
pub(crate) fn find_room(layout: &[u8], starts: &[usize], n: usize, w: &[u8]) -> usize
    requires { KeptEntries layout.now starts.now n × (is_name w.now ≡ true) }
    ensures { result ≡ room_of (kept_names layout.now starts.now n) w.now }
{
    (0..n)
        .find(|j| names::same_name(w, room_name(layout, starts, *j)))
        .unwrap_or(n)
}

// The room that a word names, or n: a word that is no name names none.
pub(crate) fn room_of(layout: &[u8], starts: &[usize], n: usize, w: &[u8]) -> usize
    requires { KeptEntries layout.now starts.now n }
    ensures { result ≡ room_of (kept_names layout.now starts.now n) w.now }
{
    if is_name(w) {
        return find_room(layout, starts, n, w);
    }
    n
}

// What is wrong with a line's room: 37, 39 or nothing.
pub(crate) fn room_fault(n: usize, row: u64, room: usize) -> Result<(), Refusal>
    ensures { fault_of result ≡ room_fault n row room }
{
    if is_seen(row, room) {
        return Err(Refusal::NameTwice);
    }
    if room == n {
        return Err(Refusal::UnknownRoom);
    }
    Ok(())
}

// What is wrong with a line of a list.
pub(crate) fn seen_fault(n: usize, row: u64, room: usize, l: &[u8]) -> Result<(), Refusal>
    ensures { fault_of result ≡ seen_fault n row room (words l.now) }
{
    if word_count(l) != 1 {
        return Err(Refusal::TextLine);
    }
    if !is_name(word(l, 0)) {
        return Err(Refusal::Name);
    }
    room_fault(n, row, room)
}

// What is wrong with an observer's line.
pub(crate) fn observer_fault(n: usize, told: u64, room: usize, l: &[u8]) -> Result<(), Refusal>
    ensures { fault_of result ≡ observer_fault n told room (words l.now) }
{
    if word_count(l) != 2 {
        return Err(Refusal::TextLine);
    }
    if !is_name(word(l, 0)) {
        return Err(Refusal::Name);
    }
    if !is_count(word(l, 1)) {
        return Err(Refusal::TextCount);
    }
    room_fault(n, told, room)
}

// What is wrong with a line whose first word names a room; nothing if it is blank.
pub(crate) fn line_fault(
    n: usize,
    st: Looking,
    row: u64,
    room: usize,
    l: &[u8],
) -> Result<(), Refusal>
    ensures { fault_of result ≡ line_fault n st row room (words l.now) }
{
    if word_count(l) == 0 {
        return Ok(());
    }
    if 0 < st.left {
        return seen_fault(n, row, room, l);
    }
    observer_fault(n, st.told, room, l)
}

// Where the reader is behind a line without fault.
pub(crate) fn moved(st: Looking, room: usize, l: &[u8]) -> Looking
    requires { 0 < length (words l.now) → st.left ≡ 0 → (is_count (nth (words l.now) 1) ≡ true) × ((room < 64) × (sees st.told room ≡ false)) }
    ensures { result ≡ moved_to st room (words l.now) }
{
    if word_count(l) == 0 {
        return st;
    }
    if 0 < st.left {
        return Looking {
            observer: st.observer,
            left: st.left - 1,
            told: st.told,
        };
    }
    let left = number::count_of(word(l, 1));
    let told = with_mark(st.told, room);
    Looking {
        observer: room,
        left,
        told,
    }
}

// The mark that a line without fault sets.
pub(crate) fn mark(rows: &mut [u64; 64], st: Looking, room: usize, l: &[u8])
    requires { (st.observer < 64) × (0 < length (words l.now) → 0 < st.left → (room < 64) × (sees (get_or rows.old st.observer 0) room ≡ false)) }
    ensures { rows.new ≡ rows_behind rows.old st room (words l.now) }
{
    if word_count(l) == 0 {
        return;
    }
    if st.left == 0 {
        return;
    }
    let i = st.observer;
    rows[i] = with_mark(rows[i], room);
}

// One line: its fault, or its mark set and where the reader is behind it.
pub(crate) fn turn(
    layout: &[u8],
    starts: &[usize],
    n: usize,
    rows: &mut [u64; 64],
    st: Looking,
    l: &[u8],
) -> Result<Looking, Refusal>
    requires { KeptEntries layout.now starts.now n × (st.observer < 64) }
    ensures answer { told_turn st result ≡ turn_of (kept_names layout.now starts.now n) (state_of st rows.old) (words l.now) }
    ensures marks { rows.new ≡ rows_after (kept_names layout.now starts.now n) (state_of st rows.old) (words l.now) }
{
    let room = room_of(layout, starts, n, word(l, 0));
    let i = st.observer;
    line_fault(n, st, rows[i], room, l)?;
    mark(rows, st, room, l);
    Ok(moved(st, room, l))
}
