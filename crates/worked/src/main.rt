// The vectors beyond document 01's checked examples: each is run, and what is written is compared with the stored output. The text cases are
// read from standard input.
#![tactic(auto)]

ghost use Rattle.std.specs.Prelude.{◌<◌, ◌≤◌, length, IfOk};

use std::io;
use std::io::{Read, Stdin};
use verdict::Answer;

mod floors;
mod texts;

fn number(rt: &impl Print, n: u32) -> io::Result<()> {
    rt.print(n)
}

fn gap(rt: &impl Print) -> io::Result<()> {
    rt.write_all(b" ")
}

fn end(rt: &impl Print) -> io::Result<()> {
    rt.write_all(b"\n")
}

fn told(rt: &impl Print, a: Answer) -> io::Result<()> {
    number(rt, a.number)?;
    gap(rt)?;
    number(rt, a.place)?;
    end(rt)
}

fn said(rt: &impl Print, yes: bool) -> io::Result<()> {
    if yes {
        rt.write_all(b"yes\n")
    } else {
        rt.write_all(b"no\n")
    }
}

// What rules 1 to 6 answer of the first n bytes.
fn first(rt: &impl Print, bytes: &[u8], n: usize) -> io::Result<()> {
    if n <= bytes.len() {
        return told(rt, Answer::from(header::header_verdict(&bytes[..n])));
    }
    Ok(())
}

// A right header with one byte changed, and its first n bytes read.
fn header(rt: &impl Print, at: usize, byte: u8, n: usize) -> io::Result<()>
    requires { at < 136 }
{
    let mut b = [0u8; 136];
    b[0] = 66;
    b[1] = 87;
    b[2] = 77;
    b[3] = 32;
    b[4] = 86;
    b[5] = 49;
    b[6] = 46;
    b[7] = 48;
    b[8] = 1;
    b[at] = byte;
    first(rt, &b, n)
}

fn headers(rt: &impl Print) -> io::Result<()> {
    header(rt, 8, 1, 136)?;
    header(rt, 8, 1, 135)?;
    header(rt, 8, 1, 0)?;
    header(rt, 7, 49, 136)?;
    header(rt, 8, 2, 136)?;
    header(rt, 11, 1, 136)?;
    header(rt, 73, 17, 136)?;
    header(rt, 81, 17, 136)?;
    header(rt, 101, 32, 136)?;
    header(rt, 112, 1, 136)?;
    header(rt, 121, 49, 136)?;
    header(rt, 129, 49, 136)?;
    header(rt, 72, 1, 136)?;
    header(rt, 120, 1, 136)?;
    header(rt, 128, 1, 136)?;
    header(rt, 76, 200, 136)?;
    header(rt, 60, 255, 136)
}

fn nudged(rt: &impl Print, bits: u32, step: i64) -> io::Result<()> {
    let moved = grid::nudge(bits, step);
    said(rt, moved.is_some())?;
    number(rt, moved.unwrap_or(bits))?;
    end(rt)
}

fn nudges(rt: &impl Print) -> io::Result<()> {
    nudged(rt, 0x3FC0_0000, 1)?;
    nudged(rt, 0x3FC0_0000, 640)?;
    nudged(rt, 0x3FC0_0000, -641)?;
    nudged(rt, 0x8000_0000, 0)?;
    nudged(rt, 0xBC80_0000, 1)?;
    nudged(rt, 0x3C80_0000, -1)?;
    nudged(rt, 0x3F80_0001, 1)?;
    nudged(rt, 0x4480_0000, 1)?;
    nudged(rt, 0x4480_0000, -1)?;
    nudged(rt, 0x7FC0_0000, 1)?;
    nudged(rt, 0xFF80_0000, 1)
}

fn triangles(rt: &impl Print) -> io::Result<()> {
    said(rt, triangle::in_triangle(0, 0, 64, 0, 0, 64, 32, 32))?;
    said(rt, triangle::in_triangle(0, 0, 64, 0, 0, 64, 64, 0))?;
    said(rt, triangle::in_triangle(0, 0, 64, 0, 0, 64, 33, 32))?;
    said(rt, triangle::in_triangle(0, 0, 0, 64, 64, 0, 32, 32))?;
    said(rt, triangle::in_triangle(0, 0, 64, 0, 128, 0, 64, 0))?;
    said(
        rt,
        triangle::in_triangle(-65536, -65536, 65536, -65536, -65536, 65536, 0, 0),
    )?;
    said(
        rt,
        triangle::in_triangle(-65536, -65536, 65536, -65536, -65536, 65536, 1, 0),
    )
}

// Reads until the bytes are full or the input ends: how many were read.
fn read_full(mut input: Stdin, bytes: &mut [u8]) -> io::Result<usize>
    ensures { IfOk result (λ n. n ≤ length bytes.new) }
{
    let mut done = 0;
    // No count: reading ends where the input does, or where there is no room.
    while done < bytes.len() {
        let n = input.read(&mut bytes[done..])?;
        if n == 0 {
            break;
        }
        done += n;
    }
    Ok(done)
}

fn main(rt: HostRuntime) -> io::Result<()> {
    headers(&rt)?;
    nudges(&rt)?;
    triangles(&rt)?;
    let mut cases = [0u8; 65536];
    let n = read_full(rt.stdin(), &mut cases)?;
    texts::all(&rt, &cases[..n])?;
    texts::longest(&rt)?;
    floors::all(&rt)
}
