// The caption of a room (41): a part of the visitor's layout text, otherwise of the house text; and the same as a place in one of the two.
#![tactic(auto)]

ghost use Rattle.std.specs.Prelude.{◌≡◌, ◌≤◌, length, true, IfSome, is_some};
ghost use Rattle.text.specs.Scan.{lines};
ghost use Rattle.caption.specs.Caption.{has_room, room_name, caption_of, caption_number, caption_at, enters_as, name_place, found_at};

use text::{line_at, line_end, word, word_count};

// Room i's name in a text that reads and has that room.
fn name_in(s: &[u8], i: usize) -> Option<&[u8]>
    ensures name { IfSome result (λ w. (has_room s.now i ≡ true) × (w.now ≡ room_name s.now i)) }
    ensures there { is_some result ≡ has_room s.now i }
{
    let Ok(r) = layout::read(s) else {
        return None;
    };
    if r.rooms <= i {
        return None;
    }
    Some(word(line_at(s, r.starts[i]), 0))
}

// Room i's name: a part of the visitor's text, otherwise of the house text, else 41 and the empty start of the house text.
pub fn caption<'a>(visitor: &'a [u8], house: &'a [u8], room: u32, number: &mut u32) -> &'a [u8]
    ensures part { result.now ≡ caption_of visitor.now house.now room }
    ensures told { number.new ≡ caption_number visitor.now house.now room }
{
    let i = room as usize;
    *number = 0;
    if let Some(own) = name_in(visitor, i) {
        return own;
    }
    if let Some(other) = name_in(house, i) {
        return other;
    }
    *number = 41;
    &house[..0]
}

// ---- where a caption stands

// A caption as a place: its number, whether it is a part of the house text, where it starts there, and its length.
#[repr(C)]
#[derive(Clone, Copy)]
pub struct CaptionAt {
    pub number: u32,
    pub house: u32,
    pub start: u32,
    pub length: u32,
}

// Whether a line is an entry of this name, letter case heeded.
#[tactic(auto, using(crate::proofs::PlaceLaws::enters_no, crate::proofs::PlaceLaws::enters_by))]
fn enters_as(l: &[u8], w: &[u8]) -> bool
    ensures { result ≡ enters_as w.now l.now }
{
    if word_count(l) == 4 {
        return names::same_word(word(l, 0), w);
    }
    false
}

// The place of the name in the first line that is an entry of this name.
fn name_place(s: &[u8], w: &[u8]) -> usize
    requires { length s.now ≤ 65536 }
    ensures place { result ≡ name_place w.now 0 (lines s.now) }
    ensures within { result ≤ 65537 }
{
    let mut at = 0;
    // A walk by lines stays a `while`: an iterator over lines would be a struct of our own, no plainer than this.
    while at < s.len() {
        let l = line_at(s, at);
        if enters_as(l, w) {
            return at + text::skip_gap(l, 0);
        }
        at = line_end(s, at) + 1;
    }
    at
}

// A room's name in a text that reads.
#[tactic(auto, using(crate::proofs::PlaceLaws::found_is))]
fn found_in(s: &[u8], w: &[u8], house: u32) -> CaptionAt
    requires { (length s.now ≤ 65536) × (length w.now ≤ 16) }
    ensures { result ≡ found_at house (name_place w.now 0 (lines s.now)) (length w.now) }
{
    let start = name_place(s, w);
    CaptionAt {
        number: 0,
        house,
        start: start as u32,
        length: w.len() as u32,
    }
}

// The caption as a place in one of the two texts.
pub fn caption_at(visitor: &[u8], house: &[u8], room: u32) -> CaptionAt
    ensures { result ≡ caption_at visitor.now house.now room }
{
    let i = room as usize;
    if let Some(own) = name_in(visitor, i) {
        return found_in(visitor, own, 0);
    }
    if let Some(other) = name_in(house, i) {
        return found_in(house, other, 1);
    }
    CaptionAt {
        number: 41,
        house: 1,
        start: 0,
        length: 0,
    }
}
