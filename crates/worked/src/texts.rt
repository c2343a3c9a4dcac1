// The text cases. Each is eight lines of standard input: the call, what the case shows, two texts, a room, a name, the length of the output, and
// an empty line. In a text or name a backslash and a letter stand for a byte: n LF, r CR, t tab, 0 the byte 0, f the byte 255. For each case
// the call, what it shows and the numbers of the answer are written on one line, and then the bytes that the call wrote or named.
ghost use Rattle.std.specs.Prelude.{◌≤◌, ◌<◌, length};

use super::{end, gap, number};
use names::same_word;
use std::io;
use text::line;
use verdict::Form;

// The byte that a letter behind a backslash stands for.
fn meant(b: u8) -> u8 {
    if b == 110 {
        return 10;
    }
    if b == 114 {
        return 13;
    }
    if b == 116 {
        return 9;
    }
    if b == 48 {
        return 0;
    }
    255
}

// The byte that stands at a place.
fn byte_at(s: &[u8], i: usize) -> u8
    requires { i < length s.now }
{
    if i + 1 < s.len() {
        if s[i] == 92 {
            return meant(s[i + 1]);
        }
    }
    s[i]
}

// How wide it is there.
fn wide(s: &[u8], i: usize) -> usize
    requires { i < length s.now }
    ensures { (1 ≤ result) × (result ≤ 2) }
{
    if i + 1 < s.len() {
        if s[i] == 92 {
            return 2;
        }
    }
    1
}

// A line with its bytes as they are meant, as far as there is room; how many there are.
fn spelled(s: &[u8], out: &mut [u8]) -> usize {
    let mut i = 0;
    for (n, o) in out.iter_mut().enumerate() {
        if s.len() <= i {
            return n;
        }
        *o = byte_at(s, i);
        i += wide(s, i);
    }
    out.len()
}

// A whole number below 65,536, 0 where there is none.
fn numeral(w: &[u8]) -> u32 {
    (number::number(w).millionths / 1000000 % 65536) as u32
}

// The call, and what the case shows.
fn shows(rt: &impl Print, call: &[u8], what: &[u8]) -> io::Result<()> {
    rt.write_all(call)?;
    gap(rt)?;
    rt.write_all(what)?;
    rt.write_all(b": ")
}

// The first n bytes, none if there are not so many.
fn start(bytes: &[u8], n: usize) -> &[u8] {
    if n <= bytes.len() {
        return &bytes[..n];
    }
    &bytes[..0]
}

// Number, place and length, then the form itself.
fn form(rt: &impl Print, call: &[u8], what: &[u8], f: Form, out: &[u8]) -> io::Result<()> {
    shows(rt, call, what)?;
    number(rt, f.number)?;
    gap(rt)?;
    number(rt, f.place)?;
    gap(rt)?;
    number(rt, f.length)?;
    end(rt)?;
    rt.write_all(start(out, f.length as usize))
}

// A room's caption: the number, the length, and the part of the text on a line of its own.
fn caption<'a>(
    rt: &impl Print,
    call: &[u8],
    what: &[u8],
    visitor: &'a [u8],
    house: &'a [u8],
    room: u32,
) -> io::Result<()> {
    let mut told: u32 = 0;
    let part = caption::caption(visitor, house, room, &mut told);
    shows(rt, call, what)?;
    number(rt, told)?;
    gap(rt)?;
    rt.print(part.len())?;
    end(rt)?;
    rt.write_all(part)?;
    end(rt)
}

// A room's row: number, place, row, how many rooms it sees.
fn row(rt: &impl Print, what: &[u8], rooms: &[u8], vis: &[u8], room: u32) -> io::Result<()> {
    let r = sight::sight_row(rooms, vis, room);
    shows(rt, b"row,", what)?;
    number(rt, r.number)?;
    gap(rt)?;
    number(rt, r.place)?;
    gap(rt)?;
    rt.print(r.row)?;
    gap(rt)?;
    number(rt, r.seen)?;
    end(rt)
}

// Visibility in its fixed form.
fn sight(rt: &impl Print, what: &[u8], rooms: &[u8], vis: &[u8], out: &mut [u8]) -> io::Result<()> {
    let f = sightform::sight_rewrite(rooms, vis, out);
    form(rt, b"VIS", what, f, out)
}

// Visibility rewritten, and a room's row.
fn sight_and_row(
    rt: &impl Print,
    what: &[u8],
    rooms: &[u8],
    vis: &[u8],
    room: u32,
) -> io::Result<()> {
    let mut out = [0u8; 512];
    sight(rt, what, rooms, vis, &mut out)?;
    row(rt, what, rooms, vis, room)
}

// Visibility with another name for a room, read against the layout with the same name for it.
fn read_back(
    rt: &impl Print,
    what: &[u8],
    rooms: &[u8],
    vis: &[u8],
    room: u32,
    name: &[u8],
) -> io::Result<()> {
    let mut new_rooms = [0u8; 512];
    let mut new_vis = [0u8; 512];
    let a = layoutform::layout_rename(rooms, room, name, &mut new_rooms);
    let b = sightform::sight_rename(rooms, vis, room, name, &mut new_vis);
    let n = a.length as usize;
    let m = b.length as usize;
    sight_and_row(rt, what, start(&new_rooms, n), start(&new_vis, m), room)
}

// One of the calls that write an output.
fn written(
    rt: &impl Print,
    call: &[u8],
    what: &[u8],
    first: &[u8],
    second: &[u8],
    room: u32,
    name: &[u8],
    out: &mut [u8],
) -> io::Result<()> {
    if same_word(call, b"LYT") {
        let f = layoutform::layout_rewrite(first, out);
        return form(rt, call, what, f, out);
    }
    if same_word(call, b"LYT renamed,") {
        let f = layoutform::layout_rename(first, room, name, out);
        return form(rt, call, what, f, out);
    }
    if same_word(call, b"VIS") {
        return sight(rt, what, first, second, out);
    }
    let f = sightform::sight_rename(first, second, room, name, out);
    form(rt, call, what, f, out)
}

// One of all calls.
fn called<'a>(
    rt: &impl Print,
    call: &[u8],
    what: &[u8],
    first: &'a [u8],
    second: &'a [u8],
    room: u32,
    name: &[u8],
    out: &mut [u8],
) -> io::Result<()> {
    if same_word(call, b"caption,") {
        return caption(rt, call, what, first, second, room);
    }
    if same_word(call, b"row,") {
        return row(rt, what, first, second, room);
    }
    if same_word(call, b"read back,") {
        return read_back(rt, what, first, second, room, name);
    }
    written(rt, call, what, first, second, room, name, out)
}

// The output of a case is as long as it says.
fn lent<'a>(
    rt: &impl Print,
    call: &[u8],
    what: &[u8],
    first: &'a [u8],
    second: &'a [u8],
    room: u32,
    name: &[u8],
    out: &mut [u8],
    long: usize,
) -> io::Result<()> {
    if long <= out.len() {
        return called(rt, call, what, first, second, room, name, &mut out[..long]);
    }
    Ok(())
}

// A case whose call stands at a line, with its two texts.
fn named<'a>(
    rt: &impl Print,
    s: &[u8],
    at: usize,
    first: &'a [u8],
    second: &'a [u8],
) -> io::Result<()>
    requires { at < 8000 }
{
    let mut name = [0u8; 64];
    let mut out = [0u8; 512];
    let l = spelled(line(s, at + 5), &mut name);
    let room = numeral(line(s, at + 4));
    let long = numeral(line(s, at + 6)) as usize;
    lent(
        rt,
        line(s, at),
        line(s, at + 1),
        first,
        second,
        room,
        start(&name, l),
        &mut out,
        long,
    )
}

// Case k.
fn run(rt: &impl Print, s: &[u8], k: usize) -> io::Result<()>
    requires { k < 1000 }
{
    let at = 8 * k;
    let mut first = [0u8; 512];
    let mut second = [0u8; 512];
    let n = spelled(line(s, at + 2), &mut first);
    let m = spelled(line(s, at + 3), &mut second);
    named(rt, s, at, start(&first, n), start(&second, m))
}

// All cases, up to one without a call.
pub(crate) fn all(rt: &impl Print, s: &[u8]) -> io::Result<()> {
    for k in 0..1000 {
        if line(s, 8 * k).is_empty() {
            return Ok(());
        }
        run(rt, s, k)?;
    }
    Ok(())
}

// Layouts of 65,537 and 65,536 refused bytes.
fn longest_layouts(rt: &impl Print, over: &[u8], most: &[u8]) -> io::Result<()> {
    let mut out = [0u8; 512];
    let a = layoutform::layout_rewrite(over, &mut out);
    form(rt, b"LYT", b"65,537 refused bytes", a, &out)?;
    let b = layoutform::layout_rewrite(most, &mut out);
    form(rt, b"LYT", b"65,536 refused bytes", b, &out)
}

// Visibility of so many, and a layout that is refused before it.
fn longest_sights(rt: &impl Print, over: &[u8], most: &[u8]) -> io::Result<()> {
    let mut out = [0u8; 512];
    let rooms = b"beginlayout\nroomcount 3\nHall 0 0 0\nCourt 10 0 0\nWell 0 10 0\ndonelayout\n";
    sight(
        rt,
        b"layout refused first",
        b"beginlayout\n\n",
        over,
        &mut out,
    )?;
    sight(rt, b"65,537 refused bytes", rooms, over, &mut out)?;
    sight(rt, b"65,536 refused bytes", rooms, most, &mut out)
}

// Texts of 65,537 and 65,536 refused bytes: 31 stands before 32.
pub(crate) fn longest(rt: &impl Print) -> io::Result<()> {
    let over = [35u8; 65537];
    let most = [35u8; 65536];
    longest_layouts(rt, &over, &most)?;
    longest_sights(rt, &over, &most)
}
