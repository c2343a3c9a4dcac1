// The journal: paint, link, nudge, undo and put-back by two benches, over one floor and one journal that the caller lends.
#![tactic(auto)]

ghost use Rattle.std.specs.Prelude.{◌≡◌, true, ◌+◌, ◌*◌, ◌≤◌, ◌<◌, length, Err};
ghost use Rattle.verdict.specs.Verdict.{◌then◌};
ghost use Rattle.verdict.specs.Refusals.{verdict_of};
ghost use Rattle.tables.specs.Header.{header_verdict, RightHeader};
ghost use Rattle.wire.specs.Bytes.{put};
ghost use Rattle.record.specs.Record.{size, record_bytes};
ghost use Rattle.laying.specs.Kind.{lay};
ghost use Rattle.laying.specs.Area.{area_count, area_floor};
ghost use Rattle.journal.specs.Wish.{asked, paint, link, nudge};
ghost use Rattle.journal.specs.Step.{lent, left, session_of, fit_in, rule28, rule45, rule21, full, record_of, open_verdict, edit_step, out_step, unwound};
ghost use Rattle.journal.specs.Calls.{edit, undo, put_back, step};

use laying::{rules, words};
use record::SIZE;
use verdict::{Refusal, Refused, Verdict, refuse_if};

// What a call answers: a number of documents 01 and 02, 0 where it was done, a place, and f, the records kept.
#[repr(C)]
#[derive(Clone, Copy)]
pub struct Session {
    pub number: u32,
    pub place: u32,
    pub f: u32,
}

impl Session {
    // What a caller is told who handed in f: a refusal gives it back.
    fn of(kept: Result<u32, Refused>, f: u32) -> Session
        ensures { result ≡ session_of kept f }
    {
        match kept {
            Ok(n) => Session {
                number: 0,
                place: 0,
                f: n,
            },
            Err(refused) => Session {
                number: refused.refusal.number(),
                place: refused.place,
                f,
            },
        }
    }
}

// No journal keeps more records.
const MOST_RECORDS: usize = 4096;

// R: the records that fit.
#[tactic(auto, unfolding(crate::specs::Step::fit_in))]
fn fit_in(room: usize) -> u32
    ensures { result ≡ fit_in room }
{
    let n = room / SIZE;
    if MOST_RECORDS < n {
        return MOST_RECORDS as u32;
    }
    n as u32
}

// Every call: 1 to 6, 28, then 45.
#[tactic(auto, using(verdict::proofs::Results::here, verdict::proofs::Results::past), unfolding(crate::specs::Step::rule28, crate::specs::Step::rule45))]
fn common_verdict(floor: &[u8], room: usize, f: u32, bench: u32, place: u32) -> Verdict
    ensures { verdict_of result ≡ (header_verdict floor.now then rule28 room f place then rule45 bench f) }
{
    header::header_verdict(floor)?;
    refuse_if(fit_in(room) < f, Refusal::Session, place)?;
    refuse_if(1 < bench, Refusal::Bench, f)
}

// 25
#[tactic(auto, unfolding(crate::specs::Step::full))]
fn is_full(room: usize, f: u32, held: u32) -> bool
    ensures { result ≡ full room f held }
{
    let most = fit_in(room);
    if most / 2 <= held {
        return true;
    }
    f == most
}

// The common rules, then 21.
#[tactic(auto, using(verdict::proofs::Results::here, verdict::proofs::Results::past), unfolding(crate::specs::Step::rule21))]
fn open_verdict(floor: &[u8], room: usize, f: u32, bench: u32, tag: u8, place: u32) -> Verdict
    ensures { verdict_of result ≡ (header_verdict floor.now then rule28 room f place then rule45 bench f then rule21 area_floor tag place floor.now) }
{
    common_verdict(floor, room, f, bench, place)?;
    let n = words::count_of(floor, tag);
    refuse_if(n <= place as usize, Refusal::NoSuchPlace, place)
}

// The four floor bytes and record f.
fn write(floor: &mut [u8], journal: &mut [u8], f: u32, bench: u8, tag: u8, place: u32, new: u32)
    requires { RightHeader floor.old × (place < area_count floor.old tag) × (size * (f + 1) ≤ length journal.old) }
    ensures laid { floor.new ≡ lay area_floor floor.old (record_of area_floor bench floor.old (asked tag place true new)) }
    ensures noted { journal.new ≡ put journal.old (size * f) (record_bytes (record_of area_floor bench floor.old (asked tag place true new))) }
{
    let old = words::word_at(floor, tag, place);
    let r = record::make(tag, bench, place, old, new);
    record::put_record(journal, SIZE * (f as usize), r);
    words::lay_on(floor, r);
}

// An edit that the common rules, 21 and its own rule let through: 25, then the edit. How many records are kept then.
#[tactic(auto, using(crate::proofs::Edits::full_refuses, crate::proofs::Edits::edit_does, verdict::proofs::Verdict::met))]
fn edit(
    floor: &mut [u8],
    journal: &mut [u8],
    f: u32,
    bench: u32,
    tag: u8,
    place: u32,
    new: u32,
) -> Result<u32, Refused>
    requires { (open_verdict area_floor bench tag place (lent floor.old journal.old f)).number ≡ 0 }
    ensures { left (session_of result f) floor.new journal.new
        ≡ edit_step area_floor bench (asked tag place true new) (lent floor.old journal.old f) }
{
    let held = holding::held_by(journal, f, bench);
    refuse_if(is_full(journal.len(), f, held), Refusal::JournalFull, place)?;
    write(floor, journal, f, bench as u8, tag, place, new);
    Ok(f + 1)
}

// The common rules, 21, 22, then the edit.
#[tactic(auto, using(crate::proofs::Edits::open_refuses, crate::proofs::Edits::own_refuses, crate::proofs::Edits::edit_goes), unfolding(crate::specs::Calls::step, crate::specs::Step::open_verdict, crate::specs::Step::common_verdict))]
fn painted(
    floor: &mut [u8],
    journal: &mut [u8],
    f: u32,
    bench: u32,
    face: u32,
    material: u32,
) -> Result<u32, Refused>
    ensures { left (session_of result f) floor.new journal.new
        ≡ step area_floor (edit bench (paint face material)) (lent floor.old journal.old f) }
{
    open_verdict(floor, journal.len(), f, bench, 1, face)?;
    let may = rules::is_permitted(words::word_at(floor, 1, face), material);
    refuse_if(!may, Refusal::Paint, face)?;
    edit(floor, journal, f, bench, 1, face, material)
}

// A face is given a material.
pub fn paint(
    floor: &mut [u8],
    journal: &mut [u8],
    f: u32,
    bench: u32,
    face: u32,
    material: u32,
) -> Session
    ensures { left result floor.new journal.new
        ≡ step area_floor (edit bench (paint face material)) (lent floor.old journal.old f) }
{
    Session::of(painted(floor, journal, f, bench, face, material), f)
}

// The common rules, 21, 23, then the edit.
#[tactic(auto, using(crate::proofs::Edits::open_refuses, crate::proofs::Edits::own_refuses, crate::proofs::Edits::edit_goes), unfolding(crate::specs::Calls::step, crate::specs::Step::open_verdict, crate::specs::Step::common_verdict))]
fn linked(
    floor: &mut [u8],
    journal: &mut [u8],
    f: u32,
    bench: u32,
    entry: u32,
    transition: i32,
) -> Result<u32, Refused>
    ensures { left (session_of result f) floor.new journal.new
        ≡ step area_floor (edit bench (link entry transition)) (lent floor.old journal.old f) }
{
    open_verdict(floor, journal.len(), f, bench, 2, entry)?;
    refuse_if(!rules::may_link(transition), Refusal::Link, entry)?;
    let word = rules::transition_word(transition);
    edit(floor, journal, f, bench, 2, entry, word)
}

// An edge entry is given a transition.
pub fn link(
    floor: &mut [u8],
    journal: &mut [u8],
    f: u32,
    bench: u32,
    entry: u32,
    transition: i32,
) -> Session
    ensures { left result floor.new journal.new
        ≡ step area_floor (edit bench (link entry transition)) (lent floor.old journal.old f) }
{
    Session::of(linked(floor, journal, f, bench, entry, transition), f)
}

// The common rules, 21, 24, then the edit.
#[tactic(auto, using(crate::proofs::Edits::open_refuses, crate::proofs::Edits::own_refuses, crate::proofs::Edits::edit_goes), unfolding(crate::specs::Calls::step, crate::specs::Step::open_verdict, crate::specs::Step::common_verdict))]
fn nudged(
    floor: &mut [u8],
    journal: &mut [u8],
    f: u32,
    bench: u32,
    place: u32,
    by: i32,
) -> Result<u32, Refused>
    ensures { left (session_of result f) floor.new journal.new
        ≡ step area_floor (edit bench (nudge place by)) (lent floor.old journal.old f) }
{
    open_verdict(floor, journal.len(), f, bench, 3, place)?;
    let old = words::word_at(floor, 3, place);
    let Some(bits) = grid::nudge(old, wire::widened(by)) else {
        return Err(Refused {
            refusal: Refusal::Nudge,
            place,
        });
    };
    edit(floor, journal, f, bench, 3, place, bits)
}

// A float of the use positions is moved by so many sixty-fourths.
pub fn nudge(
    floor: &mut [u8],
    journal: &mut [u8],
    f: u32,
    bench: u32,
    place: u32,
    by: i32,
) -> Session
    ensures { left result floor.new journal.new
        ≡ step area_floor (edit bench (nudge place by)) (lent floor.old journal.old f) }
{
    Session::of(nudged(floor, journal, f, bench, place, by), f)
}

// The bench's latest record is taken back and taken out: 26, 43 or 27 where it cannot be. How many records are kept then.
#[tactic(auto, using(crate::proofs::Outs::out_none))]
fn take_out(floor: &mut [u8], journal: &mut [u8], f: u32, bench: u32) -> Result<u32, Refused>
    requires { RightHeader floor.old × (size * f ≤ length journal.old) × (bench ≤ 1) }
    ensures { left (session_of result f) floor.new journal.new ≡ out_step area_floor bench (lent floor.old journal.old f) }
{
    let Some(i) = holding::latest_of(journal, f, bench) else {
        return Err(Refused {
            refusal: Refusal::NoStep,
            place: f,
        });
    };
    let blocked = holding::is_blocked(journal, f, bench, i);
    refuse_if(blocked, Refusal::Blocked, f)?;
    let r = record::flipped(record::get_record(journal, SIZE * (i as usize)));
    refuse_if(!words::turn(floor, r), Refusal::Record, f)?;
    holding::close_up(journal, i, f);
    Ok(f - 1)
}

// The common rules, then the record.
#[tactic(auto, using(crate::proofs::Steps::refused_unless, crate::proofs::Steps::accepted_unless), unfolding(crate::specs::Calls::step, crate::specs::Step::undo_step, crate::specs::Step::common_verdict))]
fn undone(floor: &mut [u8], journal: &mut [u8], f: u32, bench: u32) -> Result<u32, Refused>
    ensures { left (session_of result f) floor.new journal.new ≡ step area_floor (undo bench) (lent floor.old journal.old f) }
{
    common_verdict(floor, journal.len(), f, bench, f)?;
    take_out(floor, journal, f, bench)
}

// The bench's latest record is undone.
pub fn undo(floor: &mut [u8], journal: &mut [u8], f: u32, bench: u32) -> Session
    ensures { left result floor.new journal.new ≡ step area_floor (undo bench) (lent floor.old journal.old f) }
{
    Session::of(undone(floor, journal, f, bench), f)
}

// Undone again and again, until an undo is refused: that refusal, and how many records are kept then.
fn unwind_all(floor: &mut [u8], journal: &mut [u8], f: u32, bench: u32) -> (Refused, u32)
    requires { RightHeader floor.old × (size * f ≤ length journal.old) × (bench ≤ 1) }
    ensures { left (session_of (Err result.0) result.1) floor.new journal.new
        ≡ unwound area_floor bench (lent floor.old journal.old f) }
{
    let mut n = f;
    // No count: the answer of an undo ends it.
    loop {
        match take_out(floor, journal, n, bench) {
            Ok(kept) => n = kept,
            Err(refused) => return (refused, n),
        }
    }
}

// Every record of the bench is undone, its latest first.
#[tactic(auto, using(crate::proofs::Steps::refused_unless), unfolding(crate::specs::Calls::step, crate::specs::Step::put_back_step, crate::specs::Step::common_verdict))]
pub fn put_back(floor: &mut [u8], journal: &mut [u8], f: u32, bench: u32) -> Session
    ensures { left result floor.new journal.new ≡ step area_floor (put_back bench) (lent floor.old journal.old f) }
{
    if let Err(refused) = common_verdict(floor, journal.len(), f, bench, f) {
        return Session::of(Err(refused), f);
    }
    let (refused, kept) = unwind_all(floor, journal, f, bench);
    match refused.refusal {
        Refusal::NoStep => Session::of(Ok(kept), kept),
        _ => Session::of(Err(refused), kept),
    }
}
