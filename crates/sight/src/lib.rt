// Visibility (VIS): read against a layout, and a room's row.
#![tactic(auto)]

ghost use Rattle.std.specs.Prelude.{◌≡◌, ◌+◌, ◌<◌, ◌≤◌, length, get_or};
ghost use Rattle.layout.specs.Starts.{KeptEntries, told, layout_read};
ghost use Rattle.sight.specs.Rows.{sees};
ghost use Rattle.sight.specs.Sight.{grammar, sight_of, row_answer};
ghost use Rattle.sight.specs.Code.{as_read, told_sight, kept_names};

use layout::Layout;
use text::line_at;
use verdict::{Refusal, Refused};

mod lines;

// Where the reader is: the observer, how many rooms of its list are to come, and the marks of the observers so far.
#[derive(Clone, Copy)]
struct Looking {
    observer: usize,
    left: usize,
    told: u64,
}

// A room's row, and how many rooms it sees.
#[repr(C)]
#[derive(Clone, Copy)]
pub struct Row {
    pub number: u32,
    pub place: u32,
    pub row: u64,
    pub seen: u32,
}

// ---- the reader

// The lines one after the other, of a text that rules 31 and 32 accept, against the first n rooms whose starts are kept.
fn read_lines(layout: &[u8], starts: &[usize], n: usize, s: &[u8]) -> Result<[u64; 64], Refused>
    requires { (length s.now ≤ 65536) × KeptEntries layout.now starts.now n }
    ensures { told_sight result ≡ as_read (grammar (kept_names layout.now starts.now n) s.now) }
{
    let mut rows = [0u64; 64];
    let mut st = Looking {
        observer: 0,
        left: 0,
        told: 0,
    };
    let mut at = 0;
    let mut passed: usize = 0;
    // A walk by lines stays a `while`: an iterator over lines would be a struct of our own, no plainer than this.
    while at < s.len() {
        let l = line_at(s, at);
        let turned = lines::turn(layout, starts, n, &mut rows, st, l);
        passed += 1;
        match turned {
            Ok(next) => st = next,
            Err(refusal) => {
                return Err(Refused {
                    refusal,
                    place: passed as u32,
                });
            }
        }
        at += l.len() + 1;
    }
    if st.left != 0 {
        return Err(Refused {
            refusal: Refusal::TextEnds,
            place: passed as u32,
        });
    }
    Ok(rows)
}

// The rows of visibility against a layout, as that was read: its refusal first.
pub fn look(layout: &[u8], read: Result<Layout, Refused>, s: &[u8]) -> Result<[u64; 64], Refused>
    requires { told read ≡ layout_read layout.now }
    ensures { told_sight result ≡ sight_of layout.now s.now }
{
    let r = read?;
    text::sound_verdict(s)?;
    let n = r.rooms;
    let starts = r.starts;
    read_lines(layout, &starts, n, s)
}

// ---- what other crates call

// Whether mark j of a row is set.
pub fn is_seen(row: u64, j: usize) -> bool
    ensures { result ≡ sees row j }
{
    if j < 64 {
        return (row >> j) % 2 == 1;
    }
    false
}

// The rows of visibility against a layout text.
fn rows_read(layout: &[u8], vis: &[u8]) -> Result<[u64; 64], Refused>
    ensures { told_sight result ≡ sight_of layout.now vis.now }
{
    look(layout, layout::read(layout), vis)
}

// The row of room i, 0 where there is none.
fn row_of(rows: &[u64], i: usize) -> u64
    ensures { result ≡ get_or rows.now i 0 }
{
    rows.get(i).copied().unwrap_or(0)
}

// A room's row, and how many rooms it sees.
pub fn sight_row(layout: &[u8], vis: &[u8], room: u32) -> Row
    ensures { result ≡ row_answer layout.now vis.now room }
{
    match rows_read(layout, vis) {
        Ok(rows) => {
            let row = row_of(&rows, room as usize);
            let seen = u64::count_ones(row);
            Row {
                number: 0,
                place: 0,
                row,
                seen,
            }
        }
        Err(refused) => Row {
            number: refused.refusal.number(),
            place: refused.place,
            row: 0,
            seen: 0,
        },
    }
}
