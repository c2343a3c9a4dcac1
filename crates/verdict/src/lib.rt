// What every rule is said with: answers joined in order, a rewriting refused, and the work memory with its marks.
#![tactic(auto)]

ghost use Rattle.std.specs.Prelude.{◌≡◌, ◌^◌, ◌<◌, ◌≤◌, length, IfSome};
ghost use Rattle.verdict.specs.Lowest.{all_under};
ghost use Rattle.verdict.specs.Verdict.{rule};
ghost use Rattle.verdict.specs.Refusals.{number_of, verdict_of, rule_at, told_form};
ghost use Rattle.verdict.specs.Memory.{cleared_to, is_marked};

// A number of document 01, 0 for acceptance, and a place.
#[repr(C)]
#[derive(Clone, Copy)]
pub struct Answer {
    pub number: u32,
    pub place: u32,
}

// What a rewriting answers: a number, a place, and how many bytes it wrote.
#[repr(C)]
#[derive(Clone, Copy)]
pub struct Form {
    pub number: u32,
    pub place: u32,
    pub length: u32,
}

// What a call refuses, under the numbers that its answer has for it.
#[derive(Clone, Copy)]
pub enum Refusal {
    // the file's length is wrong
    Length = 1,
    // its first eight bytes are wrong
    FirstBytes = 2,
    // world_coords is not 1
    WorldCoords = 3,
    // a count is too large
    Count = 4,
    // a table lies outside the file
    TableOutside = 5,
    // a table shares a byte with an earlier one
    TablesShare = 6,
    // a float is infinite or not a number
    NotFinite = 7,
    // a face's corner is wrong
    Corner = 8,
    // a material is over 22
    Material = 9,
    // the walkable faces are not the first ones
    WalkableFirst = 10,
    // the count of nodes or the root is wrong
    NodeCount = 11,
    // a node is neither leaf nor inner
    NodeKind = 12,
    // the nodes are not one tree
    OneTree = 13,
    // a box is too small
    Box = 14,
    // a half-edge runs as a lower one
    RunsTwice = 15,
    // an adjacency entry is wrong
    Adjacency = 16,
    // an edge entry is wrong, or a border has none
    EdgeEntry = 17,
    // a transition is not -1 to 63
    Transition = 18,
    // a perimeter entry is wrong
    Perimeter = 19,
    // there is too little work memory
    WorkMemory = 20,
    // there is no such face, entry, float or room
    NoSuchPlace = 21,
    // a material may not be given there
    Paint = 22,
    // a transition may not be given
    Link = 23,
    // a float may not be moved so
    Nudge = 24,
    // there is no room for another record
    JournalFull = 25,
    // there is no record to take back
    NoStep = 26,
    // a record does not fit the floor
    Record = 27,
    // there are fewer records than that
    Session = 28,
    // the point lies too far out
    PointBeyond = 29,
    // a vertex is off the grid
    VertexOffGrid = 30,
    // a text is too long
    TextLength = 31,
    // a byte may not stand in a text
    TextByte = 32,
    // a line has another form
    TextLine = 33,
    // a name is none
    Name = 34,
    // a number is none
    TextNumber = 35,
    // a count is none
    TextCount = 36,
    // a name stands twice
    NameTwice = 37,
    // a text ends too early
    TextEnds = 38,
    // no room has that name
    UnknownRoom = 39,
    // the output is too short
    OutputShort = 40,
    // no text names the room
    NoCaption = 41,
    // an edge leads to no room
    LinkNowhere = 42,
    // the other bench has changed the same since
    Blocked = 43,
    // there is no such bench
    Bench = 45,
    // the floor has a tree
    HasTree = 49,
}

impl Refusal {
    // The number that an answer has for it.
    pub fn number(self) -> u32
        ensures { result ≡ number_of self }
    {
        self as u32
    }
}

// A refusal, and the place that it points at.
#[derive(Clone, Copy)]
pub struct Refused {
    pub refusal: Refusal,
    pub place: u32,
}

// What rules that are asked one after another say: that all are met, or the first that is broken.
pub type Verdict = Result<(), Refused>;

// The size of the work memory.
pub const WORK_SIZE: usize = 65536;

// One rule: broken at a place, or met.
#[tactic(auto, unfolding(crate::specs::Verdict::rule))]
pub fn refuse_if(broken: bool, refusal: Refusal, place: u32) -> Verdict
    ensures { verdict_of result ≡ rule (number_of refusal) broken place }
{
    if broken {
        return Err(Refused { refusal, place });
    }
    Ok(())
}

// One rule that is broken where a place was found.
pub fn refuse_at(found: Option<usize>, refusal: Refusal) -> Verdict
    requires { IfSome found (λ place. place < 2 ^ 32) }
    ensures { verdict_of result ≡ rule_at (number_of refusal) found }
{
    match found {
        Some(place) => Err(Refused {
            refusal,
            place: place as u32,
        }),
        None => Ok(()),
    }
}

// What a caller is told.
impl From<Verdict> for Answer {
    ghost from_gives = { λ v a. a ≡ verdict_of v };

    fn from(verdict: Verdict) -> Answer {
        match verdict {
            Ok(()) => Answer {
                number: 0,
                place: 0,
            },
            Err(broken) => Answer {
                number: broken.refusal.number(),
                place: broken.place,
            },
        }
    }
}

// What a caller of a rewriting is told: how many bytes it wrote, none on refusal.
impl From<Result<u32, Refused>> for Form {
    ghost from_gives = { λ r f. f ≡ told_form r };

    #[tactic(auto, unfolding(crate::specs::Output::no_form))]
    fn from(written: Result<u32, Refused>) -> Form {
        match written {
            Ok(length) => Form {
                number: 0,
                place: 0,
                length,
            },
            Err(refused) => Form {
                number: refused.refusal.number(),
                place: refused.place,
                length: 0,
            },
        }
    }
}

// Makes the first n bytes zero; what lies past them stays.
pub fn clear_to(work: &mut [u8], n: usize)
    requires { n ≤ length work.old }
    ensures { work.new ≡ cleared_to n work.old }
{
    work[..n].fill(0);
}

// Whether the first n bytes are all marked. It leaves at none of them, for so the machine looks at many at once.
pub fn all_marked(work: &[u8], n: usize) -> bool
    requires { n ≤ length work.now }
    ensures { result ≡ all_under n (is_marked work.now) }
{
    let mut full = true;
    for mark in &work[..n] {
        full &= *mark != 0;
    }
    full
}
