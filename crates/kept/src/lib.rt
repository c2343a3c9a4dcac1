// Which transition a half-edge keeps, and which are lost: the old edge entries noted in the work memory, one number for each half-edge.
#![tactic(auto)]

ghost use Rattle.std.specs.Prelude.{◌≡◌, true, ◌⊎◌, ◌+◌, ◌<◌, ◌≤◌, length};
ghost use Rattle.verdict.specs.Memory.{work_size};
ghost use Rattle.tables.specs.Header.{RightHeader};
ghost use Rattle.tables.specs.Parts.{none32, parts_of};
ghost use Rattle.pairs.specs.Halves.{halves, border, pairing};
ghost use Rattle.corners.specs.Corners.{recornered};
ghost use Rattle.corners.specs.Memory.{SameTop, Mated};
ghost use Rattle.kept.specs.Kept.{valid_entry, kept, lost};
ghost use Rattle.kept.specs.Notes.{code_of, mark_of, noted, Noted, AllNoted, SameBelow};

// The mark of a half-edge that had a valid entry of 0 or more; the code of several valid entries.
const LED_MARK: usize = 16384;

const SEVERAL: usize = 66;

// The number kept of half-edge h before any entry is noted: a border's says that it is one and no more.
fn clear_notes(bytes: &[u8], work: &mut [u8])
    requires right_header { RightHeader bytes.now × (work_size ≤ length work.old) }
    requires mated { Mated (recornered (parts_of bytes.now)) work.old }
    ensures notes { Noted (parts_of bytes.now) (recornered (parts_of bytes.now)) 0 work.new }
    ensures memory { SameTop work.new work.old × SameBelow work.new work.old }
{
    let n = pairs::halves_of(bytes);
    for h in 0..n {
        if corners::LOOSE <= wire::u16_at(work, corners::MATES_AT + 2 * h) {
            wire::put_u16(work, corners::MATES_AT + 2 * h, corners::LOOSE);
        }
    }
}

// The code of one valid entry.
#[tactic(auto, using(crate::proofs::Entries::code_of_none, crate::proofs::Entries::code_of_some))]
fn code_of(t: u32) -> usize
    requires { (t ≤ 63) ⊎ (t ≡ none32) }
    ensures { (result ≡ code_of t) × (result ≤ 65) }
{
    if t <= 63 {
        return t as usize + 2;
    }
    1
}

// The mark of a note with one valid entry more.
#[tactic(auto, using(crate::proofs::Notes::mark_led, crate::proofs::Notes::mark_kept))]
fn mark_of(x: usize, t: u32) -> usize
    ensures { (result ≡ mark_of x t) × (result ≤ 1) }
{
    if t <= 63 {
        return 1;
    }
    x / LED_MARK % 2
}

// A note with one valid entry more.
#[tactic(auto, using(crate::proofs::Notes::noted_inside, crate::proofs::Notes::noted_first, crate::proofs::Notes::noted_again))]
fn noted_more(x: usize, t: u32) -> usize
    requires { (x < 65536) × ((t ≤ 63) ⊎ (t ≡ none32)) }
    ensures { (result ≡ noted x t) × (result < 65536) }
{
    let mark = mark_of(x, t);
    let low = x % LED_MARK;
    if x < corners::LOOSE {
        return low + LED_MARK * mark;
    }
    if low == 0 {
        let code = code_of(t);
        return corners::LOOSE + code + LED_MARK * mark;
    }
    corners::LOOSE + SEVERAL + LED_MARK * mark
}

// Whether edge entry i is valid.
#[tactic(auto, using(crate::proofs::Entries::valid_read, crate::proofs::Entries::invalid_read))]
fn is_valid(bytes: &[u8], i: usize) -> bool
    requires { RightHeader bytes.now × (i < (parts_of bytes.now).edges) }
    ensures { result ≡ valid_entry (parts_of bytes.now) i }
{
    if border::edge_of(bytes, i) < pairs::halves_of(bytes) {
        return !border::wrong_transition(bytes, i);
    }
    false
}

// Edge entry i noted, if it is valid.
fn note_entry(bytes: &[u8], work: &mut [u8], i: usize)
    requires right_header { RightHeader bytes.now × (work_size ≤ length work.old) × (i < (parts_of bytes.now).edges) }
    requires notes { Noted (parts_of bytes.now) (recornered (parts_of bytes.now)) i work.old }
    ensures notes { Noted (parts_of bytes.now) (recornered (parts_of bytes.now)) (i + 1) work.new }
    ensures memory { SameTop work.new work.old × SameBelow work.new work.old }
{
    if is_valid(bytes, i) {
        let h = border::edge_of(bytes, i);
        let t = border::transition_of(bytes, i);
        let x = wire::u16_at(work, corners::MATES_AT + 2 * h);
        let y = noted_more(x, t);
        wire::put_u16(work, corners::MATES_AT + 2 * h, y);
    }
}

// All edge entries noted.
pub fn note_entries(bytes: &[u8], work: &mut [u8])
    requires right_header { RightHeader bytes.now × (work_size ≤ length work.old) }
    requires mated { Mated (recornered (parts_of bytes.now)) work.old }
    ensures notes { AllNoted (parts_of bytes.now) work.new }
    ensures memory { SameTop work.new work.old × SameBelow work.new work.old }
{
    clear_notes(bytes, work);
    let n = border::edges_of(bytes);
    for i in 0..n {
        note_entry(bytes, work, i);
    }
}

// Adjacency entry h: the partner's number, or the word for none.
pub fn pairing_of(bytes: &[u8], work: &[u8], h: usize) -> u32
    requires right_header { RightHeader bytes.now × (work_size ≤ length work.now) × (h < halves (parts_of bytes.now)) }
    requires notes { AllNoted (parts_of bytes.now) work.now }
    ensures { result ≡ pairing (recornered (parts_of bytes.now)) h }
{
    let x = wire::u16_at(work, corners::MATES_AT + 2 * h);
    if x < corners::LOOSE {
        return (x % LED_MARK) as u32;
    }
    wire::NONE
}

// The transition that border h keeps.
pub fn kept_of(bytes: &[u8], work: &[u8], h: usize) -> u32
    requires right_header { RightHeader bytes.now × (work_size ≤ length work.now) × (border (recornered (parts_of bytes.now)) h ≡ true) }
    requires notes { AllNoted (parts_of bytes.now) work.now }
    ensures { result ≡ kept (parts_of bytes.now) h }
{
    let code = wire::u16_at(work, corners::MATES_AT + 2 * h) % LED_MARK;
    if code < 2 {
        return wire::NONE;
    }
    if code == SEVERAL {
        return wire::NONE;
    }
    (code - 2) as u32
}

// Whether half-edge h had a transition of 0 or more and keeps none.
pub fn is_lost(bytes: &[u8], work: &[u8], h: usize) -> bool
    requires right_header { RightHeader bytes.now × (work_size ≤ length work.now) × (h < halves (parts_of bytes.now)) }
    requires notes { AllNoted (parts_of bytes.now) work.now }
    ensures { result ≡ lost (parts_of bytes.now) (recornered (parts_of bytes.now)) h }
{
    let x = wire::u16_at(work, corners::MATES_AT + 2 * h);
    if x / LED_MARK % 2 == 0 {
        return false;
    }
    if x < corners::LOOSE {
        return true;
    }
    x % LED_MARK == SEVERAL
}
