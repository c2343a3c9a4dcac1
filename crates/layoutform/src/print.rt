// The fixed form of a layout, printed: entries, sections, and rule 40.
ghost use Rattle.std.specs.Prelude.{◌≡◌, true, [], ◌∷◌, map, ◌+◌, ◌*◌, ◌^◌, ◌<◌, ◌≤◌, length, take, drop};
ghost use Rattle.verdict.specs.Output.{form_answer, form_memory};
ghost use Rattle.verdict.specs.Refusals.{told_form};
ghost use Rattle.text.specs.Scan.{words};
ghost use Rattle.letters.specs.Case.{lowered};
ghost use Rattle.number.specs.Number.{number_of, printed, plain};
ghost use Rattle.printer.specs.Write.{Wrote};
ghost use Rattle.text.specs.Written.{after, written, rule40};
ghost use Rattle.names.specs.Name.{is_name, same_name};
ghost use Rattle.text.specs.Reading.{nth};
ghost use Rattle.layout.specs.Grammar.{names_in};
ghost use Rattle.layout.specs.Layout.{layout_of};
ghost use Rattle.layout.specs.Starts.{held, Held, told_layout};
ghost use Rattle.layoutform.specs.Form.{entry_named, entry_of, entry_line, section, longest_line, longest_form};
ghost use Rattle.layoutform.specs.Rewrite.{renamed_from, renamed_form};
ghost use Rattle.layoutform.specs.Lent.{AnEntry, KeptIn, NameOrNone};

use layout::Layout;
use text::{line_at, word, word_count};
use verdict::{Refusal, Refused};

// A space, and word k of a line as a number.
pub(crate) fn put_spaced(out: &mut [u8], at: usize, l: &[u8], k: usize) -> usize
    requires { at < 2 ^ 29 }
    ensures { Wrote out.old out.new at result (32 ∷ printed (number_of (nth (words l.now) k))) }
{
    let x = number::number(word(l, k));
    let e = printer::put_byte(out, at, 32);
    printer::put_number(out, e, x)
}

// The words of a line from k on as numbers, each behind a space.
pub(crate) fn put_numbers(out: &mut [u8], at: usize, l: &[u8], k: usize) -> usize
    requires { (at < 2 ^ 28) × (length (words l.now) ≤ 14) }
    ensures { Wrote out.old out.new at result (after (map printed (map number_of (drop k (words l.now))))) }
{
    let mut e = at;
    for i in k..word_count(l) {
        e = put_spaced(out, e, l, i);
    }
    e
}

// A space and the door in lower case, where the entry is a hook.
pub(crate) fn put_door(out: &mut [u8], at: usize, k: usize, l: &[u8]) -> usize
    requires { (at < 2 ^ 28) × AnEntry k (words l.now) }
    ensures { Wrote out.old out.new at result (after (map lowered (drop 1 (take (names_in k) (words l.now))))) }
{
    if k != 5 {
        return at;
    }
    let e = printer::put_byte(out, at, 32);
    printer::put_lowered(out, e, word(l, 1))
}

// The line of an entry of section k with a name: names in lower case, the line's numbers, LF.
pub(crate) fn put_entry(out: &mut [u8], at: usize, k: usize, w: &[u8], l: &[u8]) -> usize
    requires { (at < 2 ^ 27) × ((length w.now ≤ 16) × AnEntry k (words l.now)) }
    ensures { Wrote out.old out.new at result (written (entry_line (entry_named k w.now (words l.now)) ∷ [])) }
{
    let a = printer::put_lowered(out, at, w);
    let b = put_door(out, a, k, l);
    let c = put_numbers(out, b, l, layout::names_in(k));
    printer::put_byte(out, c, 10)
}

// The word is the old name, letter case ignored; where there is no old name, none is.
pub(crate) fn is_of(w: &[u8], old: &[u8]) -> bool
    requires { (is_name w.now ≡ true) × NameOrNone old.now }
    ensures { result ≡ same_name w.now old.now }
{
    if old.len() == 0 {
        return false;
    }
    names::same_name(w, old)
}

// An entry's line, with the new name where it has the old one.
pub(crate) fn put_one(
    out: &mut [u8],
    at: usize,
    k: usize,
    l: &[u8],
    old: &[u8],
    name: &[u8],
) -> usize
    requires { (at < 2 ^ 27) × ((length name.now ≤ 16) × (NameOrNone old.now × AnEntry k (words l.now))) }
    ensures { Wrote out.old out.new at result (written (entry_line (renamed_from (lowered old.now) (lowered name.now) (entry_of k (words l.now))) ∷ [])) }
{
    let w = word(l, 0);
    if is_of(w, old) {
        return put_entry(out, at, k, name, l);
    }
    put_entry(out, at, k, w, l)
}

// The lines of n entries of section k, each with the new name where it has the old one.
pub(crate) fn put_entries(
    out: &mut [u8],
    at: usize,
    k: usize,
    s: &[u8],
    starts: &[usize],
    n: usize,
    old: &[u8],
    name: &[u8],
) -> usize
    requires { (at < 2 ^ 20) × ((length name.now ≤ 16) × (NameOrNone old.now × KeptIn k s.now starts.now n)) }
    ensures wrote { Wrote out.old out.new at result (written (map entry_line (map (renamed_from (lowered old.now) (lowered name.now)) (map (entry_of k) (held s.now starts.now n))))) }
    ensures end { result ≤ at + longest_line 5 * n }
{
    let mut e = at;
    for start in &starts[..n] {
        e = put_one(out, e, k, line_at(s, *start), old, name);
    }
    e
}

// A keyword and LF.
pub(crate) fn put_key(out: &mut [u8], at: usize, key: &[u8]) -> usize
    requires { (at < 2 ^ 28) × (length key.now ≤ 13) }
    ensures { Wrote out.old out.new at result (written ((key.now ∷ []) ∷ [])) }
{
    let e = printer::put_word(out, at, key);
    printer::put_byte(out, e, 10)
}

// A keyword with its count, and LF.
pub(crate) fn put_head(out: &mut [u8], at: usize, key: &[u8], n: usize) -> usize
    requires { (at < 2 ^ 28) × (length key.now ≤ 13) }
    ensures { Wrote out.old out.new at result (written ((key.now ∷ plain n ∷ []) ∷ [])) }
{
    let a = printer::put_word(out, at, key);
    let b = printer::put_byte(out, a, 32);
    let c = printer::put_plain(out, b, n as u64);
    printer::put_byte(out, c, 10)
}

// A section: its keyword, its count, its entries.
pub(crate) fn put_section(
    out: &mut [u8],
    at: usize,
    k: usize,
    key: &[u8],
    s: &[u8],
    starts: &[usize],
    n: usize,
    old: &[u8],
    name: &[u8],
) -> usize
    requires small { (at < 2 ^ 18) × ((length key.now ≤ 13) × (length name.now ≤ 16)) }
    requires kept { NameOrNone old.now × KeptIn k s.now starts.now n }
    ensures wrote { Wrote out.old out.new at result (written (section key.now (map (renamed_from (lowered old.now) (lowered name.now)) (map (entry_of k) (held s.now starts.now n))))) }
    ensures end { result < at + 2 ^ 14 }
{
    let e = put_head(out, at, key, n);
    put_entries(out, e, k, s, starts, n, old, name)
}

// The fixed form, room i with another name, there and in its hooks.
pub(crate) fn put_form(out: &mut [u8], s: &[u8], r: Layout, i: usize, name: &[u8]) -> usize
    requires { Held s.now (told_layout r) (layout_of s.now) × (length name.now ≤ 16) }
    ensures { Wrote out.old out.new 0 result (renamed_form s.now i name.now) }
{
    let rooms = r.rooms;
    let tracks = r.tracks;
    let obstacles = r.obstacles;
    let hooks = r.hooks;
    let starts = r.starts;
    let old = rooms::room_name(s, &starts[..rooms], i);
    let no = &s[..0];
    let a = put_key(out, 0, b"beginlayout");
    let b = put_section(out, a, 2, b"roomcount", s, &starts, rooms, old, name);
    let c = put_section(out, b, 3, b"trackcount", s, &starts[64..], tracks, no, name);
    let d = put_section(
        out,
        c,
        4,
        b"obstaclecount",
        s,
        &starts[128..],
        obstacles,
        no,
        name,
    );
    let e = put_section(
        out,
        d,
        5,
        b"doorhookcount",
        s,
        &starts[192..],
        hooks,
        old,
        name,
    );
    put_key(out, e, b"donelayout")
}

// Rule 40, and the form where it fits. A dry run tells its length.
pub(crate) fn write_form(
    out: &mut [u8],
    s: &[u8],
    r: Layout,
    i: usize,
    name: &[u8],
) -> Result<u32, Refused>
    requires held { Held s.now (told_layout r) (layout_of s.now) × (length name.now ≤ 16) }
    requires short { length (renamed_form s.now i name.now) ≤ longest_form }
    ensures answer { told_form result ≡ form_answer (rule40 (renamed_form s.now i name.now) (length out.old)) (renamed_form s.now i name.now) }
    ensures memory { out.new ≡ form_memory (rule40 (renamed_form s.now i name.now) (length out.old)) (renamed_form s.now i name.now) out.old }
{
    let n = put_form(&mut out[..0], s, r, i, name);
    if out.len() < n {
        return Err(Refused {
            refusal: Refusal::OutputShort,
            place: 0,
        });
    }
    let m = put_form(out, s, r, i, name);
    Ok(m as u32)
}
