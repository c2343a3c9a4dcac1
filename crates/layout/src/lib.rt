// Layouts (LYT), read.
#![tactic(auto)]

ghost use Rattle.std.specs.Prelude.{◌≡◌, true, ◌≤◌, length};
ghost use Rattle.names.specs.Name.{is_name};
ghost use Rattle.layout.specs.Grammar.{names_in, names_of, known_but};
ghost use Rattle.layout.specs.Layout.{grammar};
ghost use Rattle.layout.specs.Starts.{held, KeptEntries, told, Found, layout_read};

use text::line_at;
use verdict::{Refusal, Refused};

mod lines;

// What the reader keeps between two lines: the section, how many of its entries are to come, and how many entries of each kind there are.
#[derive(Clone, Copy)]
struct Progress {
    sect: usize,
    left: usize,
    rooms: usize,
    tracks: usize,
    obstacles: usize,
    hooks: usize,
}

// A layout that was read: how many entries of each kind there are, and where their lines start (rooms from 0 on, tracks from 64 on,
// obstacles from 128 on, hooks from 192 on).
#[derive(Clone, Copy)]
pub struct Layout {
    pub rooms: usize,
    pub tracks: usize,
    pub obstacles: usize,
    pub hooks: usize,
    pub starts: [usize; 256],
}

// ---- the reader

// The lines one after the other, of a text that rules 31 and 32 accept.
fn read_lines(s: &[u8]) -> Result<Layout, Refused>
    requires { length s.now ≤ 65536 }
    ensures { Found s.now (told result) (grammar s.now) }
{
    let mut starts = [0usize; 256];
    let mut st = Progress {
        sect: 0,
        left: 0,
        rooms: 0,
        tracks: 0,
        obstacles: 0,
        hooks: 0,
    };
    let mut at = 0;
    let mut passed: usize = 0;
    // A walk by lines stays a `while`: an iterator over lines would be a struct of our own, no plainer than this.
    while at < s.len() {
        let l = line_at(s, at);
        let fault = lines::line_fault(s, &starts, st, l);
        passed += 1;
        if let Err(refusal) = fault {
            return Err(Refused {
                refusal,
                place: passed as u32,
            });
        }
        lines::keep(&mut starts, st, at);
        st = lines::moved(st, l);
        at += l.len() + 1;
    }
    if st.sect != 6 {
        return Err(Refused {
            refusal: Refusal::TextEnds,
            place: passed as u32,
        });
    }
    Ok(Layout {
        rooms: st.rooms,
        tracks: st.tracks,
        obstacles: st.obstacles,
        hooks: st.hooks,
        starts,
    })
}

// A layout: rules 31 to 38, and where the entries are.
pub fn read(s: &[u8]) -> Result<Layout, Refused>
    ensures { told result ≡ layout_read s.now }
{
    text::sound_verdict(s)?;
    read_lines(s)
}

// ---- what other crates ask of entries

// How many names an entry of section k starts with.
#[tactic(auto, using(crate::proofs::LineLaws::names_hook, crate::proofs::LineLaws::names_other))]
pub fn names_in(k: usize) -> usize
    ensures { result ≡ names_in k }
{
    if k == 5 {
        return 2;
    }
    1
}

// One of the first n entries, another than `but`, has this name.
#[tactic(auto, unfolding(crate::specs::Grammar::names_of))]
pub fn is_known(s: &[u8], starts: &[usize], n: usize, but: usize, w: &[u8]) -> bool
    requires { KeptEntries s.now starts.now n × (is_name w.now ≡ true) }
    ensures { result ≡ known_but but w.now (names_of (held s.now starts.now n)) }
{
    lines::is_among(s, starts, n, but, 0, w)
}
