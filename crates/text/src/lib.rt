// Layout text, all that knows no grammar: rules 31 and 32, lines and words.
#![tactic(auto)]

ghost use Rattle.std.specs.Prelude.{◌≡◌, true, [], ◌+◌, ◌-◌, ◌<◌, length, drop, get_or};
ghost use Rattle.verdict.specs.Lowest.{first};
ghost use Rattle.verdict.specs.Refusals.{verdict_of};
ghost use Rattle.letters.specs.Class.{is_gap, is_end};
ghost use Rattle.text.specs.Scan.{run, words, apart, lines, line_at};
ghost use Rattle.text.specs.Sound.{bad_at, rules31to32};

use letters::{class_of, is_end, is_gap};
use verdict::{Refusal, Verdict, refuse_at, refuse_if};

// ---- rules 31 and 32

// The byte at i is refused, or a CR not before LF.
#[tactic(auto, using(crate::proofs::SoundLaws::bad_refused, crate::proofs::SoundLaws::bad_plain, crate::proofs::SoundLaws::bad_return, crate::proofs::SoundLaws::bad_last))]
fn is_bad(s: &[u8], i: usize) -> bool
    requires { i < length s.now }
    ensures { result ≡ bad_at s.now i }
{
    let k = class_of(s[i]);
    if k == 0 {
        return true;
    }
    if k != 8 {
        return false;
    }
    if i + 1 < s.len() {
        return class_of(s[i + 1]) != 7;
    }
    true
}

// The first such byte, if there is one.
fn first_bad(s: &[u8]) -> Option<usize>
    ensures { result ≡ first (length s.now) (bad_at s.now) }
{
    (0..s.len()).find(|i| is_bad(s, *i))
}

// Rules 31 and 32: the first that is broken, or none.
#[tactic(auto, using(verdict::proofs::Results::here, verdict::proofs::Results::past, verdict::proofs::Results::each_by_first), unfolding(crate::specs::Sound::rules31to32, crate::specs::Sound::rule31, crate::specs::Sound::rule32))]
pub fn sound_verdict(s: &[u8]) -> Verdict
    ensures { verdict_of result ≡ rules31to32 s.now }
{
    refuse_if(65536 < s.len(), Refusal::TextLength, 0)?;
    refuse_at(first_bad(s), Refusal::TextByte)
}

// ---- words and lines

// The bytes from `at` on, none past the end.
pub fn rest(s: &[u8], at: usize) -> &[u8]
    ensures { result.now ≡ drop at s.now }
{
    &s[at.min(s.len())..]
}

// The end of the gap that starts at `at`.
pub fn skip_gap(l: &[u8], at: usize) -> usize
    ensures { result ≡ at + run is_gap (drop at l.now) }
{
    at + rest(l, at).iter().take_while(|b| is_gap(**b)).count()
}

// The end of the word that starts at `at`.
fn skip_word(l: &[u8], at: usize) -> usize
    ensures { result ≡ at + run (apart is_gap) (drop at l.now) }
{
    at + rest(l, at).iter().take_while(|b| !is_gap(**b)).count()
}

// Word k of a line, empty where the line has fewer.
pub fn word(l: &[u8], k: usize) -> &[u8]
    ensures { result.now ≡ get_or (words l.now) k [] }
{
    let mut at = 0;
    for _ in 0..k {
        let b = skip_gap(l, at);
        at = skip_word(l, b);
    }
    let a = skip_gap(l, at);
    let e = skip_word(l, a);
    &l[a..e]
}

// How many words a line has.
pub fn word_count(l: &[u8]) -> usize
    ensures { result ≡ length (words l.now) }
{
    let mut at = skip_gap(l, 0);
    let mut n = 0;
    // A walk by words stays a `while`: an iterator over words would be a struct of our own, no plainer than this.
    while at < l.len() {
        let e = skip_word(l, at);
        at = skip_gap(l, e);
        n += 1;
    }
    n
}

// The end of the line that starts at `at`.
pub fn line_end(s: &[u8], at: usize) -> usize
    ensures { result ≡ at + run (apart is_end) (drop at s.now) }
{
    at + rest(s, at).iter().take_while(|b| !is_end(**b)).count()
}

// The line that starts at a place, empty past the end.
#[tactic(auto, using(crate::proofs::SplitLaws::piece_within, crate::proofs::SplitLaws::line_past), unfolding(crate::specs::Scan::line_at))]
pub fn line_at(s: &[u8], at: usize) -> &[u8]
    ensures { result.now ≡ line_at s.now at }
{
    if s.len() <= at {
        return &s[..0];
    }
    let e = line_end(s, at);
    &s[at..e]
}

// Line k of a text, counted from 0, empty where the text has fewer.
pub fn line(s: &[u8], k: usize) -> &[u8]
    ensures { result.now ≡ get_or (lines s.now) k [] }
{
    let mut at = 0;
    for _ in 0..k {
        if s.len() <= at {
            return &s[..0];
        }
        at = line_end(s, at) + 1;
    }
    line_at(s, at)
}
