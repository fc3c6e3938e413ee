// What every stage reads of a job: vertices and edges at computed places of its bytes; faces, loops and answers through
// the index that loading fills.

#![tactic(auto)]

ghost use Rattle.std.specs.Prelude.{◌≡◌, ◌+◌, ◌*◌, ◌<◌, ◌≤◌, ◌^◌, get_or};
ghost use Rattle.rules.specs.Job.{edge_at, face_at};
ghost use Rattle.rules.specs.Read.{use_start};
ghost use Rattle.rules.specs.Fields.{le16, le32};
ghost use Rattle.rules.specs.Kinds.{kind_of};
ghost use Rattle.job.specs.Lists.{points_in, edge_in, edges_in, face_in, faces_in, loop_byte, item_count};
ghost use Rattle.job.specs.Raw.{points, edges, faces};

mod stored;

use fields::{get, half, word};
use rules::{Counts, Edge, Face, Kind, Sense, UNSET, Use};
pub use stored::Fields;

// The index: heads of the chains of answers, the chains, places of answers, of faces and of loops, the loops' faces. One
// array of numbers, which is cleared and lent as a whole.
pub const INDEX: usize = 7424;

pub const BUCKETS: usize = 1024;

pub const CHAIN: usize = 1024;

pub const ANSWERS: usize = 3072;

pub const FACES: usize = 5120;

pub const LOOPS: usize = 5376;

pub const OWNERS: usize = 6400;

// A job as it stands while it is read: its bytes, the index of what was read, and how many things of each sort there were.
#[derive(Clone, Copy)]
pub struct RawJob<'a> {
    pub bytes: &'a [u8],
    pub index: &'a [u32; INDEX],
    pub counts: Counts,
}

// The edge whose fields stand at a byte. It and the readers below are inlined: most callers need one or two of the fields.
#[tactic(auto, unfolding(crate::specs::Lists::edge_in))]
#[inline(always)]
fn edge_in(job: &[u8], at: usize) -> Edge
    requires { at < 2 ^ 59 }
    ensures { result ≡ edge_in job.now at }
{
    Edge {
        curve: word(job, at) as u32,
        sense: Sense::from(word(job, at + 4)),
        start: word(job, at + 8) as u32,
        end: word(job, at + 12) as u32,
    }
}

// The face whose record stands at a byte.
#[tactic(auto, unfolding(crate::specs::Lists::face_in))]
#[inline(always)]
pub fn face_in(job: &[u8], at: usize) -> Face
    requires { at < 2 ^ 59 }
    ensures { result ≡ face_in job.now at }
{
    Face {
        surface: word(job, at + 6) as u32,
        own: Sense::from(word(job, at + 10)),
        selected: Sense::from(word(job, at + 14)),
        body: word(job, at + 18) as u32,
        source: word(job, at + 22) as u32,
    }
}

// READERS BY BYTES AND COUNTS. No index is needed for vertices and edges, and for faces one of any length will do.

// The point of a vertex.
#[tactic(auto, using(crate::specs::ListLaws::points_at, crate::specs::ListLaws::points_past))]
#[inline(always)]
pub fn point(bytes: &[u8], counts: Counts, v: usize) -> u32
    requires { counts.vertices ≤ 1024 }
    ensures { result ≡ get_or (points_in bytes.now counts) v 0 }
{
    if v < counts.vertices {
        return word(bytes, 16 + 10 * v) as u32;
    }
    0
}

// An edge; past the last there is none, with no ends.
#[tactic(auto, using(crate::specs::ListLaws::edges_at, crate::specs::ListLaws::edges_past))]
#[inline(always)]
pub fn edge(bytes: &[u8], counts: Counts, e: usize) -> Edge
    requires { (counts.vertices ≤ 1024) × (counts.edges ≤ 1024) }
    ensures { result ≡ edge_at (edges_in bytes.now counts) e }
{
    if e < counts.edges {
        return edge_in(bytes, 16 + 10 * counts.vertices + 22 * e);
    }
    Edge {
        curve: 0,
        sense: Sense::Same,
        start: UNSET,
        end: UNSET,
    }
}

// The point of the vertex where a use starts.
#[inline(always)]
pub fn start_point(bytes: &[u8], counts: Counts, u: Use) -> u32
    requires { (counts.vertices ≤ 1024) × (counts.edges ≤ 1024) }
    ensures { result ≡ get_or (points_in bytes.now counts) (use_start (edges_in bytes.now counts) u) 0 }
{
    let v = edge(bytes, counts, u.edge as usize).start_by(u.sense);
    point(bytes, counts, v as usize)
}

// A selected face; past the last there is none.
#[tactic(auto, using(crate::specs::ListLaws::faces_at, crate::specs::ListLaws::faces_past))]
#[inline(always)]
pub fn face(bytes: &[u8], index: &[u32], counts: Counts, f: usize) -> Face
    requires { counts.faces ≤ 256 }
    ensures { result ≡ face_at (faces_in bytes.now index.now counts) f }
{
    if f < counts.faces {
        return face_in(bytes, get(index, FACES + f));
    }
    Face {
        surface: 0,
        own: Sense::Same,
        selected: Sense::Same,
        body: 0,
        source: 0,
    }
}

impl RawJob<'_> {
    // The number that the index has at a place.
    #[inline(always)]
    pub fn entry(&self, i: usize) -> usize
        ensures { (result ≡ get_or self.now.index.now i 0) × (result < 4294967296) }
    {
        let index = self.index;
        get(index, i)
    }

    // VERTICES, EDGES, FACES

    // The point of a vertex.
    #[inline(always)]
    pub fn point(&self, v: usize) -> u32
        requires { self.now.counts.vertices ≤ 1024 }
        ensures { result ≡ get_or (points self.now) v 0 }
    {
        point(self.bytes, self.counts, v)
    }

    // An edge; past the last there is none, with no ends.
    #[inline(always)]
    pub fn edge(&self, e: usize) -> Edge
        requires { (self.now.counts.vertices ≤ 1024) × (self.now.counts.edges ≤ 1024) }
        ensures { result ≡ edge_at (edges self.now) e }
    {
        edge(self.bytes, self.counts, e)
    }

    // The point of the vertex where a use starts.
    #[inline(always)]
    pub fn start_point(&self, u: Use) -> u32
        requires { (self.now.counts.vertices ≤ 1024) × (self.now.counts.edges ≤ 1024) }
        ensures { result ≡ get_or (points self.now) (use_start (edges self.now) u) 0 }
    {
        start_point(self.bytes, self.counts, u)
    }

    // A selected face; past the last there is none.
    #[inline(always)]
    pub fn face(&self, f: usize) -> Face
        requires { self.now.counts.faces ≤ 256 }
        ensures { result ≡ face_at (faces self.now) f }
    {
        let index = self.index;
        face(self.bytes, index, self.counts, f)
    }

    // LOOPS

    // The face of loop l, its kind, the first byte of its payload, its payload's length.
    pub fn loop_face(&self, l: usize) -> u32
        requires { l < 1024 }
        ensures { result ≡ get_or self.now.index.now (6400 + l) 0 }
    {
        self.entry(OWNERS + l) as u32
    }

    pub fn loop_kind(&self, l: usize) -> Kind
        requires { l < 1024 }
        ensures { result ≡ kind_of (le16 self.now.bytes.now (loop_byte self.now.index.now l + 4)) }
    {
        Kind::from(half(self.bytes, self.entry(LOOPS + l) + 4))
    }

    pub fn loop_start(&self, l: usize) -> usize
        requires { l < 1024 }
        ensures { (result ≡ loop_byte self.now.index.now l + 6) × (result < 4294967302) }
    {
        self.entry(LOOPS + l) + 6
    }

    pub fn loop_size(&self, l: usize) -> usize
        requires { l < 1024 }
        ensures { (result ≡ le32 self.now.bytes.now (loop_byte self.now.index.now l)) × (result < 4294967296) }
    {
        word(self.bytes, self.entry(LOOPS + l))
    }

    // How many items loop l has; a vertex loop has none.
    #[tactic(auto, using(crate::specs::ListLaws::of_loop, crate::specs::ListLaws::of_no_loop), unfolding(crate::specs::Lists::item_count))]
    pub fn item_count(&self, l: usize) -> usize
        requires { l < 1024 }
        ensures { (result ≡ item_count self.now.bytes.now self.now.index.now l) × (result < 4294967296) }
    {
        if self.loop_kind(l) == Kind::LoopRecord {
            return self.loop_size(l) / 8;
        }
        0
    }
}
