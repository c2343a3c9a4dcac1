// The link check: one walkable triangle whose three edges lead to rooms of a layout. What each case shows is written before its answer.
ghost use Rattle.std.specs.Prelude.{◌+◌, ◌≤◌};

use std::io;

// The float 1.
const ONE: u32 = 0x3F80_0000;

fn word(b: &mut [u8; 288], at: usize, w: u32)
    requires { at + 4 ≤ 288 }
{
    wire::put_u32(b, at, w);
}

// "BWM V1.0", world_coords, counts and offsets.
fn header(b: &mut [u8; 288]) {
    word(b, 0, 0x204D_5742);
    word(b, 4, 0x302E_3156);
    word(b, 8, 1);
    word(b, 72, 3);
    word(b, 76, 136);
    word(b, 80, 1);
    word(b, 84, 172);
    word(b, 88, 184);
    word(b, 92, 188);
    word(b, 96, 200);
    word(b, 100, 1);
    word(b, 104, 204);
    word(b, 112, 1);
    word(b, 116, 248);
    word(b, 120, 3);
    word(b, 124, 260);
    word(b, 128, 1);
    word(b, 132, 284);
}

// Vertices (0,0), (1,0), (0,1); the face; its material and normal; its leaf, which keeps the unknown number 4; no partners.
fn triangle(b: &mut [u8; 288]) {
    word(b, 148, ONE);
    word(b, 164, ONE);
    word(b, 176, 1);
    word(b, 180, 2);
    word(b, 184, 4);
    word(b, 196, ONE);
    word(b, 216, ONE);
    word(b, 220, ONE);
    word(b, 232, 4);
    word(b, 240, wire::NONE);
    word(b, 244, wire::NONE);
    word(b, 248, wire::NONE);
    word(b, 252, wire::NONE);
    word(b, 256, wire::NONE);
}

// The edges with their transitions, and the perimeter.
fn edges(b: &mut [u8; 288], t0: u32, t1: u32, t2: u32) {
    word(b, 264, t0);
    word(b, 268, 1);
    word(b, 272, t1);
    word(b, 276, 2);
    word(b, 280, t2);
    word(b, 284, 3);
}

// What the link check says of a floor and a layout, with so much work memory.
fn linked(
    rt: &impl Print,
    what: &[u8],
    floor: &[u8],
    rooms: &[u8],
    work: &mut [u8],
) -> io::Result<()> {
    let a = links::link_check(floor, work, rooms);
    rt.write_all(b"links, ")?;
    rt.write_all(what)?;
    rt.write_all(b": ")?;
    super::told(rt, a)
}

// The triangle that was made, checked against a layout.
fn made(rt: &impl Print, what: &[u8], floor: &[u8; 288], rooms: &[u8]) -> io::Result<()> {
    let mut work = [0u8; verdict::WORK_SIZE];
    linked(rt, what, floor, rooms, &mut work)
}

// The triangle with these transitions, checked against a layout.
fn links(rt: &impl Print, what: &[u8], t0: u32, t1: u32, t2: u32, rooms: &[u8]) -> io::Result<()> {
    let mut b = [0u8; 288];
    header(&mut b);
    triangle(&mut b);
    edges(&mut b, t0, t1, t2);
    made(rt, what, &b, rooms)
}

// Edges that lead to rooms, past them, and nowhere.
fn leads(rt: &impl Print) -> io::Result<()> {
    let two = b"beginlayout\nroomcount 2\nHall 0 0 0\nCourt 0 0 0\ndonelayout\n";
    let none = b"beginlayout\nroomcount 0\ndonelayout\n";
    links(rt, b"edges that lead to both rooms", 1, wire::NONE, 0, two)?;
    links(rt, b"edge that leads past the rooms", 1, 2, 63, two)?;
    links(
        rt,
        b"edges that lead nowhere",
        wire::NONE,
        wire::NONE,
        wire::NONE,
        none,
    )?;
    links(
        rt,
        b"edge that leads on, no room",
        wire::NONE,
        wire::NONE,
        0,
        none,
    )
}

// The floor is asked before the text, and the text before the edges.
fn in_order(rt: &impl Print) -> io::Result<()> {
    links(
        rt,
        b"text refused before the edges",
        63,
        63,
        63,
        b"beginlayout\nroomcount 0\n",
    )?;
    links(rt, b"floor refused before the text", 63, 63, 64, b"")
}

// No floor, with the work memory that a call needs and with a byte less.
fn no_floor(rt: &impl Print) -> io::Result<()> {
    let two = b"beginlayout\nroomcount 0\ndonelayout\n";
    let mut work = [0u8; verdict::WORK_SIZE];
    linked(rt, b"no floor", b"", two, &mut work)?;
    let mut few = [0u8; verdict::WORK_SIZE - 1];
    linked(rt, b"work memory too short", b"", two, &mut few)
}

pub(crate) fn all(rt: &impl Print) -> io::Result<()> {
    leads(rt)?;
    in_order(rt)?;
    no_floor(rt)
}
