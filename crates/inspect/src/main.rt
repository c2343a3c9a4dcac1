// The program: one floor from standard input, one line to standard output. Reading and writing are assumed; which bytes the line has
// is proved.
#![tactic(auto)]

ghost use Rattle.std.specs.Prelude.{◌≡◌, ◌++◌, ◌+◌, ◌<◌, ◌≤◌, length, IfOk};
ghost use Rattle.verdict.specs.Lowest.{lowest};
ghost use Rattle.printer.specs.Write.{Wrote};
ghost use Rattle.inspect.specs.Line.{has_up_to, decimal, named, line_feed, too_long, accepted_line, refused_line, line_of, file_line, file_memory};

use floor::Floor;
use std::io;
use std::io::{Read, Stdin};

// 10, 100, .., 10 to the ninth.
const POWERS: [u32; 9] = [
    10, 100, 1000, 10000, 100000, 1000000, 10000000, 100000000, 1000000000,
];

// One less than the number of digits: how many of the powers are at most n.
fn first_under(n: u32) -> usize
    ensures { (result ≡ lowest 9 (has_up_to n)) × (result ≤ 9) }
{
    POWERS.iter().take_while(|p| **p <= n).count()
}

fn put_decimal(out: &mut [u8], at: usize, n: u32) -> usize
    requires { at < 1024 }
    ensures { Wrote out.old out.new at result (decimal n) × (result ≤ at + 10) }
{
    let k = first_under(n) + 1;
    printer::put_fixed(out, at, k, n as u64)
}

// A word and then a number.
fn put_named(out: &mut [u8], at: usize, word: &[u8], n: u32) -> usize
    requires { (at < 512) × (length word.now ≤ 32) }
    ensures { Wrote out.old out.new at result (named word.now n) × (result ≤ at + 42) }
{
    let next = printer::put_word(out, at, word);
    put_decimal(out, next, n)
}

fn put_accepted(out: &mut [u8], r: Floor) -> usize
    ensures { Wrote out.old out.new 0 result (accepted_line r) × (result ≤ 256) }
{
    let a = put_named(out, 0, b"accepted faces ", r.faces);
    let b = put_named(out, a, b" walkable ", r.walkable);
    let c = put_named(out, b, b" edges ", r.edges);
    let d = put_named(out, c, b" perimeters ", r.perimeters);
    printer::put_byte(out, d, 10)
}

fn put_refused(out: &mut [u8], r: Floor) -> usize
    ensures { Wrote out.old out.new 0 result (refused_line r) × (result ≤ 256) }
{
    let a = put_named(out, 0, b"refused ", r.number);
    let b = put_named(out, a, b" at ", r.place);
    printer::put_byte(out, b, 10)
}

// The line of an answer.
fn line_of(out: &mut [u8], r: Floor) -> usize
    ensures { Wrote out.old out.new 0 result (line_of r) × (result ≤ 256) }
{
    if r.number == 0 {
        return put_accepted(out, r);
    }
    put_refused(out, r)
}

fn put_too_long(out: &mut [u8]) -> usize
    ensures { Wrote out.old out.new 0 result (too_long ++ line_feed) × (result ≤ 256) }
{
    let a = printer::put_word(out, 0, b"too long");
    printer::put_byte(out, a, 10)
}

// The line of a file.
#[tactic(auto, unfolding(crate::specs::Line::file_line, crate::specs::Line::file_memory))]
fn file_line(bytes: &[u8], work: &mut [u8], out: &mut [u8]) -> usize
    ensures line { Wrote out.old out.new 0 result (file_line bytes.now (length work.old)) × (result ≤ 256) }
    ensures memory { work.new ≡ file_memory bytes.now work.old }
{
    if 65536 < bytes.len() {
        return put_too_long(out);
    }
    let r = floor::read(bytes, work);
    line_of(out, r)
}

// Reads until the bytes are full or the input ends: how many were read.
fn read_full(mut input: Stdin, bytes: &mut [u8]) -> io::Result<usize>
    ensures { IfOk result (λ n. n ≤ length bytes.new) }
{
    let mut done = 0;
    // No count: reading ends where the input does, or where there is no room.
    while done < bytes.len() {
        let n = input.read(&mut bytes[done..])?;
        if n == 0 {
            break;
        }
        done += n;
    }
    Ok(done)
}

fn main(rt: HostRuntime) -> io::Result<()> {
    let mut bytes = [0u8; 65537];
    let mut work = [0u8; verdict::WORK_SIZE];
    let mut out = [0u8; 256];
    let n = read_full(rt.stdin(), &mut bytes)?;
    let e = file_line(&bytes[..n], &mut work, &mut out);
    rt.write_all(&out[..e])
}
