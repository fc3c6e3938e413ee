// The vocabulary that the definitions in specs/ and the code of every stage share.

#![tactic(auto)]

ghost use Rattle.std.specs.Prelude.{◌≡◌, ◌<◌, cond};
ghost use Rattle.rules.specs.Outcome.{fault_number};
ghost use Rattle.rules.specs.Sense.{reverse};
ghost use Rattle.rules.specs.Operation.{stage_number, stage_of, is_asked};
ghost use Rattle.rules.specs.Kinds.{number_of};
ghost use Rattle.rules.specs.Job.{ring, start_by, end_by};
ghost use Rattle.rules.specs.Read.{stored_sense};
ghost use Rattle.rules.specs.Rules.{with_table, ordinary, print_shop};

use std::ops::Mul;

// The mark for none: no vertex at a ring's ends, no fan, no twin yet. The definitions' `unset`.
pub const UNSET: u32 = u32::MAX;

// THE LIMITS of a job, in document 01's order. Clauses have the numbers themselves, as the definitions do.
pub const MOST_BYTES: usize = 65536;

pub const MOST_VERTICES: usize = 1024;

pub const MOST_EDGES: usize = 1024;

pub const MOST_FACES: usize = 256;

pub const MOST_LOOPS: usize = 1024;

pub const MOST_USES: usize = 2048;

pub const MOST_ANSWERS: usize = 2048;

// A part with so few uses, edges or loops is sewn in small tables, which are cleared sooner.
pub const FEW: usize = 64;

// 0 Same, 1 Reversed.
#[derive(Clone, Copy, PartialEq, Eq)]
pub enum Sense {
    Same,
    Reversed,
}

impl Sense {
    // The other sense.
    pub fn reverse(self) -> Sense
        ensures { result ≡ reverse self }
    {
        match self {
            Self::Same => Self::Reversed,
            Self::Reversed => Self::Same,
        }
    }
}

impl From<usize> for Sense {
    ghost use Rattle.std.specs.Prelude.{◌≡◌};
    ghost use Rattle.rules.specs.Sense.{sense_of};

    ghost from_gives = { λ n sense. sense ≡ sense_of n };

    fn from(n: usize) -> Self {
        if n == 0 {
            return Sense::Same;
        }
        Sense::Reversed
    }
}

impl From<Sense> for usize {
    ghost use Rattle.std.specs.Prelude.{◌≡◌, ◌<◌};
    ghost use Rattle.rules.specs.Sense.{sense_number};

    ghost from_gives = { λ sense n. (n ≡ sense_number sense) × (n < 2) };

    fn from(sense: Sense) -> usize {
        match sense {
            Sense::Same => 0,
            Sense::Reversed => 1,
        }
    }
}

// The product of two senses.
impl Mul for Sense {
    type Output = Sense;

    ghost use Rattle.rules.specs.Sense.{FourAnswers};

    ghost mul_gives = { FourAnswers };

    // Case by case, to be held against ISO 10303-42: an oriented edge with orientation true (Same) runs along its edge, one
    // with orientation false (Reversed) runs against it.
    fn mul(self, other: Sense) -> Sense {
        match self {
            Sense::Same => match other {
                Sense::Same => Sense::Same,
                Sense::Reversed => Sense::Reversed,
            },
            Sense::Reversed => match other {
                Sense::Same => Sense::Reversed,
                Sense::Reversed => Sense::Same,
            },
        }
    }
}

// The kinds of job records, 1 to 13; any other number is unknown.
#[derive(Clone, Copy, PartialEq, Eq)]
pub enum Kind {
    Unknown,
    Head,
    Vertex,
    EdgeRecord,
    FaceRecord,
    LoopRecord,
    VertexLoop,
    Radial,
    Surface,
    Points,
    Curves,
    Singular,
    Orientation,
    Inside,
}

impl From<usize> for Kind {
    ghost use Rattle.std.specs.Prelude.{◌≡◌};
    ghost use Rattle.rules.specs.Kinds.{kind_of};

    ghost from_gives = { λ k kind. kind ≡ kind_of k };

    // The kind of a record.
    #[tactic(auto, unfolding(crate::specs::Kinds::kind_of))]
    fn from(k: usize) -> Self {
        match k {
            1 => Kind::Head,
            2 => Kind::Vertex,
            3 => Kind::EdgeRecord,
            4 => Kind::FaceRecord,
            5 => Kind::LoopRecord,
            6 => Kind::VertexLoop,
            7 => Kind::Radial,
            8 => Kind::Surface,
            9 => Kind::Points,
            10 => Kind::Curves,
            11 => Kind::Singular,
            12 => Kind::Orientation,
            13 => Kind::Inside,
            _ => Kind::Unknown,
        }
    }
}

impl Kind {
    // The number of a kind; 0 for one that is unknown.
    #[tactic(auto, unfolding(crate::specs::Kinds::number_of))]
    pub fn number(self) -> usize
        ensures { (result ≡ number_of self) × (result < 14) }
    {
        self as usize
    }
}

// What is answered to a question of kind 8, Surface.
#[derive(Clone, Copy)]
pub enum SurfaceAnswer {
    Different,
    Agreeing,
    Opposed,
    Vanishing,
    Undecided,
}

impl From<usize> for SurfaceAnswer {
    ghost use Rattle.std.specs.Prelude.{◌≡◌};
    ghost use Rattle.rules.specs.Questions.{surface_answer};

    ghost from_gives = { λ v answer. answer ≡ surface_answer v };

    // The answer of kind 8 that has a number.
    #[tactic(auto, unfolding(crate::specs::Questions::surface_answer, crate::specs::Questions::numbered, crate::specs::Questions::surface_number))]
    fn from(v: usize) -> Self {
        match v {
            0 => SurfaceAnswer::Different,
            1 => SurfaceAnswer::Agreeing,
            2 => SurfaceAnswer::Opposed,
            3 => SurfaceAnswer::Vanishing,
            _ => SurfaceAnswer::Undecided,
        }
    }
}

// Whether a surface answer joins faces whose stored senses are equal, and faces whose stored senses are different.
#[derive(Clone, Copy)]
pub struct TableRow {
    pub equal: bool,
    pub different: bool,
}

impl TableRow {
    // The entry for stored senses that are equal, or for others.
    pub fn entry(self, equal: bool) -> bool
        ensures { result ≡ cond equal self.equal self.different }
    {
        if equal {
            return self.equal;
        }
        self.different
    }
}

// The joining table: a row for answer 1, normals agreeing, and one for answer 2, normals opposed.
#[derive(Clone, Copy)]
pub struct Table {
    pub agreeing: TableRow,
    pub opposed: TableRow,
}

// Document 01's table: an answer joins faces when (it is 1) equals (their stored senses are equal).
pub const FULL_TABLE: Table = Table {
    agreeing: TableRow {
        equal: true,
        different: false,
    },
    opposed: TableRow {
        equal: false,
        different: true,
    },
};

// Which contacts a boundary may have: those that document 01 permits, or none. A print shop wants two uses at each edge and
// one fan at each point.
#[derive(Clone, Copy, PartialEq, Eq)]
pub enum Profile {
    AnyContact,
    PrintShop,
}

// What a caller may set. It goes from the entry on as one value.
#[derive(Clone, Copy)]
pub struct Rules {
    pub table: Table,
    pub profile: Profile,
}

impl Rules {
    // Document 01's rules, with a joining table.
    pub fn with_table(table: Table) -> Rules
        ensures { result ≡ with_table table }
    {
        Rules {
            table,
            profile: Profile::AnyContact,
        }
    }

    // The rules of document 01.
    pub fn ordinary() -> Rules
        ensures { result ≡ ordinary }
    {
        Rules::with_table(FULL_TABLE)
    }

    // Document 01's rules, and 41 and 42 besides.
    pub fn print_shop() -> Rules
        ensures { result ≡ print_shop }
    {
        Rules {
            table: FULL_TABLE,
            profile: Profile::PrintShop,
        }
    }
}

// What is answered to a question of kinds 9 to 13.
#[derive(Clone, Copy)]
pub enum Verdict {
    No,
    Yes,
    Undecided,
}

impl From<usize> for Verdict {
    ghost use Rattle.std.specs.Prelude.{◌≡◌};
    ghost use Rattle.rules.specs.Questions.{verdict};

    ghost from_gives = { λ v answer. answer ≡ verdict v };

    // The answer of kinds 9 to 13 that has a number.
    #[tactic(auto, unfolding(crate::specs::Questions::verdict, crate::specs::Questions::numbered, crate::specs::Questions::verdict_number))]
    fn from(v: usize) -> Self {
        match v {
            0 => Verdict::No,
            1 => Verdict::Yes,
            _ => Verdict::Undecided,
        }
    }
}

// What has been loaded so far: the part reached (0 nothing, 1 Head, 2 vertices, 3 edges, 4 faces with their loops,
// 5 answers), then how many of each thing; `loops` counts both sorts.
#[derive(Clone, Copy, Default)]
pub struct Counts {
    pub part: usize,
    pub vertices: usize,
    pub edges: usize,
    pub faces: usize,
    pub loops: usize,
    pub uses: usize,
    pub answers: usize,
}

// An edge of the job; both vertices are `UNSET` for a ring.
#[derive(Clone, Copy)]
pub struct Edge {
    pub curve: u32,
    pub sense: Sense,
    pub start: u32,
    pub end: u32,
}

impl Edge {
    // It has no vertices.
    pub fn is_ring(self) -> bool
        ensures { result ≡ ring self }
    {
        self.start == UNSET
    }

    // The vertex where a sense of it starts.
    pub fn start_by(self, sense: Sense) -> u32
        ensures { result ≡ start_by sense self }
    {
        match sense {
            Sense::Same => self.start,
            Sense::Reversed => self.end,
        }
    }

    // The vertex where a sense of it ends.
    pub fn end_by(self, sense: Sense) -> u32
        ensures { result ≡ end_by sense self }
    {
        match sense {
            Sense::Same => self.end,
            Sense::Reversed => self.start,
        }
    }
}

// A selected face: face `source` of one of two bodies, 0 and 1.
#[derive(Clone, Copy)]
pub struct Face {
    pub surface: u32,
    pub own: Sense,
    pub selected: Sense,
    pub body: u32,
    pub source: u32,
}

impl Face {
    // Own times selected.
    #[tactic(auto, using(crate::proofs::SenseLaws::answers_product))]
    pub fn stored_sense(self) -> Sense
        ensures { result ≡ stored_sense self }
    {
        self.own * self.selected
    }
}

// An edge in a loop, with the sense in which the loop runs along it.
#[derive(Clone, Copy)]
pub struct Item {
    pub edge: u32,
    pub sense: Sense,
}

// A use of an edge by a selected face; `next` is its old successor.
#[derive(Clone, Copy)]
pub struct Use {
    pub edge: u32,
    pub face: u32,
    pub sense: Sense,
    pub next: u32,
}

// A vertex loop that is kept: its merged face and its point.
#[derive(Clone, Copy)]
pub struct KeptVertexLoop {
    pub face: u32,
    pub point: u32,
}

// An edge of the result: fans or `UNSET` as its ends, the sorted pair of merged faces beside it, whether no join
// has taken it.
#[derive(Clone, Copy)]
pub struct EdgeData {
    pub curve: u32,
    pub sense: Sense,
    pub start: u32,
    pub end: u32,
    pub faces: [u32; 2],
    pub active: bool,
}

// A stage that can be asked for by itself. Each has the number by which packed answers name it.
#[derive(Clone, Copy, PartialEq, Eq)]
pub enum Stage {
    Read = 1,
    Pair = 2,
    Merge = 3,
    VertexLoops = 4,
    Walk = 5,
    Loops = 6,
    Fans = 7,
    Edges = 8,
    Joining = 9,
    Shells = 10,
    Lumps = 11,
}

impl Stage {
    // The stage with a number, if there is one.
    #[tactic(auto, unfolding(crate::specs::Operation::stage_of, crate::specs::Operation::numbered_among, crate::specs::Operation::stage_number))]
    pub fn numbered(n: usize) -> Option<Stage>
        ensures { result ≡ stage_of n }
    {
        match n {
            1 => Some(Stage::Read),
            2 => Some(Stage::Pair),
            3 => Some(Stage::Merge),
            4 => Some(Stage::VertexLoops),
            5 => Some(Stage::Walk),
            6 => Some(Stage::Loops),
            7 => Some(Stage::Fans),
            8 => Some(Stage::Edges),
            9 => Some(Stage::Joining),
            10 => Some(Stage::Shells),
            11 => Some(Stage::Lumps),
            _ => None,
        }
    }

    // The number of a stage.
    #[tactic(auto, unfolding(crate::specs::Operation::stage_number))]
    pub fn number(self) -> usize
        ensures { result ≡ stage_number self }
    {
        self as usize
    }

    // This is the stage that is asked for. Stages are told apart by number: by cases the equation with the definition would
    // be of eleven times eleven.
    #[tactic(auto, unfolding(crate::specs::Operation::is_asked))]
    pub fn is_asked(self, stage: Option<Stage>) -> bool
        ensures { result ≡ is_asked self stage }
    {
        stage.is_some_and(|s| self.number() == s.number())
    }
}

// Why a job is refused. Each has the number by which the programs and the C interface tell it.
#[derive(Clone, Copy, PartialEq, Eq)]
pub enum Fault {
    TooLong = 1,
    CutShort = 2,
    Misplaced = 3,
    FieldNotPermitted = 4,
    LimitPassed = 5,
    LoopJoints = 6,
    AnsweredTwice = 7,
    EqualSenses = 10,
    OddUses = 11,
    SamePredecessor = 12,
    NoTwin = 13,
    Unanswered = 20,
    AnswerUndecided = 21,
    NormalsVanish = 22,
    NotRound = 23,
    PairsInBoundary = 30,
    FansInBoundary = 31,
    FansInLump = 32,
    PairsInLump = 33,
    NoOuterShell = 34,
    NoRoom = 40,
    ManyUses = 41,
    ManyFans = 42,
    SelectedTwice = 45,
    WrongTable = 48,
}

impl Fault {
    // The number by which the programs and the C interface tell it.
    #[tactic(auto, unfolding(crate::specs::Outcome::fault_number))]
    pub fn number(self) -> usize
        ensures { result ≡ fault_number self }
    {
        self as usize
    }

    // The refusal for this, with its place.
    pub fn at(self, place: usize) -> Refusal
        ensures { result ≡ record { fault = self; place = place } }
    {
        Refusal { fault: self, place }
    }
}

// A refusal, with its one place: a byte, an edge, a use, a kind, a point, a face or a size, as its fault says.
#[derive(Clone, Copy, PartialEq, Eq)]
pub struct Refusal {
    pub fault: Fault,
    pub place: usize,
}
