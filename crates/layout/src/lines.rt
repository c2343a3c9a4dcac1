// A line of a layout: what is wrong with it, and what it adds to what the reader keeps.
ghost use Rattle.std.specs.Prelude.{◌≡◌, true, cond, not, ◌&&◌, ◌+◌, ◌-◌, ◌<◌, ◌≤◌, length, get_or, drop, eqb};
ghost use Rattle.text.specs.Scan.{words};
ghost use Rattle.names.specs.Name.{is_name, same_name};
ghost use Rattle.text.specs.Reading.{fault_of, nth};
ghost use Rattle.layout.specs.Grammar.{section_of, follows, opens, words_at, known_but, entry_long, numbers, door_fault, hook_fault, name_fault, entry_fault, words_of, open_fault, fault};
ghost use Rattle.layout.specs.Starts.{entry_at, held, Few, KeptSoFar, KeptWords, state_of, count_in, entered, moved_to, slot_of, kept};

use super::{Progress, names_in};
use names::is_name;
use text::{line_at, word, word_count};
use verdict::Refusal;

// The section that a keyword opens, 0 for no keyword.
pub(crate) fn section_of(w: &[u8]) -> usize
    ensures { result ≡ section_of w.now }
{
    if names::same_word(w, b"beginlayout") {
        return 1;
    }
    if names::same_word(w, b"roomcount") {
        return 2;
    }
    if names::same_word(w, b"trackcount") {
        return 3;
    }
    if names::same_word(w, b"obstaclecount") {
        return 4;
    }
    if names::same_word(w, b"doorhookcount") {
        return 5;
    }
    if names::same_word(w, b"donelayout") {
        return 6;
    }
    0
}

// Section k may follow behind `sect`.
pub(crate) fn may_follow(sect: usize, k: usize) -> bool
    ensures { result ≡ follows sect k }
{
    if k == 0 {
        return false;
    }
    if k <= 2 {
        return sect == k - 1;
    }
    if sect < 2 {
        return false;
    }
    sect < k
}

// The section that a word opens behind `sect`, 0 for none.
pub(crate) fn opened(sect: usize, w: &[u8]) -> usize
    ensures { result ≡ opens sect w.now }
{
    let k = section_of(w);
    if may_follow(sect, k) {
        return k;
    }
    0
}

// How many words the line that opens section k has.
pub(crate) fn words_of(k: usize) -> usize
    ensures { result ≡ words_of k }
{
    if k < 2 {
        return 1;
    }
    if k <= 5 {
        return 2;
    }
    1
}

// What is wrong with a line that is to open section k.
pub(crate) fn open_fault(k: usize, l: &[u8]) -> Result<(), Refusal>
    ensures { fault_of result ≡ open_fault k (words l.now) }
{
    if k == 0 {
        return Err(Refusal::TextLine);
    }
    let n = words_of(k);
    if word_count(l) != n {
        return Err(Refusal::TextLine);
    }
    if n == 1 {
        return Ok(());
    }
    if number::is_count(word(l, 1)) {
        return Ok(());
    }
    Err(Refusal::TextCount)
}

// What a count says, 0 where it is none.
pub(crate) fn count_in(w: &[u8]) -> usize
    ensures { result ≡ count_in w.now }
{
    if number::is_count(w) {
        return number::count_of(w);
    }
    0
}

// Entry j, if it is another than `but`, has this name as word k; letter case is ignored.
pub(crate) fn is_named(s: &[u8], starts: &[usize], j: usize, but: usize, k: usize, w: &[u8]) -> bool
    requires { (j < length starts.now) × ((is_name w.now ≡ true) × (is_name (nth (entry_at s.now (get_or starts.now j 0)) k) ≡ true)) }
    ensures { result ≡ (not (eqb j but) && same_name w.now (nth (entry_at s.now (get_or starts.now j 0)) k)) }
{
    if j == but {
        return false;
    }
    names::same_name(w, word(line_at(s, starts[j]), k))
}

// One of the first n entries, another than `but`, has this name as word k.
pub(crate) fn is_among(s: &[u8], starts: &[usize], n: usize, but: usize, k: usize, w: &[u8]) -> bool
    requires { KeptWords k s.now starts.now n × (is_name w.now ≡ true) }
    ensures { result ≡ known_but but w.now (words_at k (held s.now starts.now n)) }
{
    (0..n).any(|j| is_named(s, starts, j, but, k, w))
}

// The words of a line of n words are numbers from k on.
pub(crate) fn are_numbers(l: &[u8], n: usize, k: usize) -> bool
    requires { n ≡ length (words l.now) }
    ensures { result ≡ numbers (drop k (words l.now)) }
{
    (k..n).all(|i| number::number(word(l, i)).ok)
}

// An entry of section k may have n words.
pub(crate) fn is_entry_long(k: usize, n: usize) -> bool
    ensures { result ≡ entry_long k n }
{
    if k == 5 {
        if n == 9 {
            return true;
        }
        return n == 14;
    }
    n == 4
}

// What is wrong with a door, by the n hooks before it.
pub(crate) fn door_fault(s: &[u8], starts: &[usize], n: usize, w: &[u8]) -> Result<(), Refusal>
    requires { KeptWords 1 s.now starts.now n }
    ensures { fault_of result ≡ door_fault (held s.now starts.now n) w.now }
{
    if !is_name(w) {
        return Err(Refusal::Name);
    }
    if is_among(s, starts, n, 64, 1, w) {
        return Err(Refusal::NameTwice);
    }
    Ok(())
}

// What is wrong with a hook's room, which is a name, and with its door.
pub(crate) fn hook_fault(s: &[u8], starts: &[usize], st: Progress, l: &[u8]) -> Result<(), Refusal>
    requires { KeptSoFar s.now starts.now st × (is_name (nth (words l.now) 0) ≡ true) }
    ensures { fault_of result ≡ hook_fault (state_of s.now starts.now st).typed (words l.now) }
{
    if !is_among(s, starts, st.rooms, 64, 0, word(l, 0)) {
        return Err(Refusal::UnknownRoom);
    }
    door_fault(s, &starts[192..], st.hooks, word(l, 1))
}

// What is wrong with the names of an entry.
pub(crate) fn name_fault(s: &[u8], starts: &[usize], st: Progress, l: &[u8]) -> Result<(), Refusal>
    requires { KeptSoFar s.now starts.now st }
    ensures { fault_of result ≡ name_fault (state_of s.now starts.now st) (words l.now) }
{
    if !is_name(word(l, 0)) {
        return Err(Refusal::Name);
    }
    if st.sect == 5 {
        return hook_fault(s, starts, st, l);
    }
    Ok(())
}

// What is wrong with an entry. Of names, only rooms are checked for 37.
pub(crate) fn entry_fault(s: &[u8], starts: &[usize], st: Progress, l: &[u8]) -> Result<(), Refusal>
    requires { KeptSoFar s.now starts.now st }
    ensures { fault_of result ≡ entry_fault (state_of s.now starts.now st) (words l.now) }
{
    let n = word_count(l);
    if !is_entry_long(st.sect, n) {
        return Err(Refusal::TextLine);
    }
    name_fault(s, starts, st, l)?;
    if !are_numbers(l, n, names_in(st.sect)) {
        return Err(Refusal::TextNumber);
    }
    if st.sect == 2 && is_among(s, starts, st.rooms, 64, 0, word(l, 0)) {
        return Err(Refusal::NameTwice);
    }
    Ok(())
}

// What is wrong with a line; nothing if it is blank.
pub(crate) fn line_fault(s: &[u8], starts: &[usize], st: Progress, l: &[u8]) -> Result<(), Refusal>
    requires { KeptSoFar s.now starts.now st }
    ensures { fault_of result ≡ fault (state_of s.now starts.now st) (words l.now) }
{
    if word_count(l) == 0 {
        return Ok(());
    }
    if 0 < st.left {
        return entry_fault(s, starts, st, l);
    }
    open_fault(opened(st.sect, word(l, 0)), l)
}

// One more where an entry is of that kind, else as many.
pub(crate) fn one_if(n: usize, own: bool) -> usize
    requires { n ≤ 64 }
    ensures { result ≡ cond own (n + 1) n }
{
    if own {
        return n + 1;
    }
    n
}

// One entry more in the section.
pub(crate) fn one_more(st: Progress) -> Progress
    requires { (0 < st.left) × Few st }
    ensures { result ≡ entered st }
{
    let sect = st.sect;
    let rooms = one_if(st.rooms, sect == 2);
    let tracks = one_if(st.tracks, sect == 3);
    let obstacles = one_if(st.obstacles, sect == 4);
    let hooks = one_if(st.hooks, sect == 5);
    Progress {
        sect,
        left: st.left - 1,
        rooms,
        tracks,
        obstacles,
        hooks,
    }
}

// The state behind a line.
pub(crate) fn moved(st: Progress, l: &[u8]) -> Progress
    requires { Few st }
    ensures { result ≡ moved_to st (words l.now) }
{
    if word_count(l) == 0 {
        return st;
    }
    if 0 < st.left {
        return one_more(st);
    }
    let sect = opened(st.sect, word(l, 0));
    let left = count_in(word(l, 1));
    Progress {
        sect,
        left,
        rooms: st.rooms,
        tracks: st.tracks,
        obstacles: st.obstacles,
        hooks: st.hooks,
    }
}

// Where the next entry's start is kept.
pub(crate) fn slot(st: Progress) -> usize
    requires { Few st }
    ensures { result ≡ slot_of st }
{
    if st.sect == 2 {
        return st.rooms;
    }
    if st.sect == 3 {
        return 64 + st.tracks;
    }
    if st.sect == 4 {
        return 128 + st.obstacles;
    }
    192 + st.hooks
}

// Keeps the start of an entry.
pub(crate) fn keep(starts: &mut [usize; 256], st: Progress, at: usize)
    requires { Few st × (0 < st.left → slot_of st < 256) }
    ensures { starts.new ≡ kept starts.old st at }
{
    if st.left == 0 {
        return;
    }
    let i = slot(st);
    starts[i] = at;
}
