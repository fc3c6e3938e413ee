// The loaded job: its bytes, the index that loading filled, and how many things of each sort there are. Contracts see it as
// the job that the bytes hold.

#![tactic(auto)]

ghost use Rattle.std.specs.Prelude.{◌≡◌, ◌≢◌, ◌<◌, ◌≤◌, length, eqb, IfOk};
ghost use Rattle.rules.specs.Job.{edge_at, face_at, ring, point_at};
ghost use Rattle.rules.specs.Read.{content_items, uses_of, edge_of_use, use_start};
ghost use Rattle.rules.specs.Kinds.{number_of};
ghost use Rattle.rules.specs.Questions.{find, ask_radial};
ghost use Rattle.answers.specs.Question.{key_of, Shaped};
ghost use Rattle.job.specs.Lists.{job_in};
ghost use Rattle.loaded.specs.Opened.{Opened, Loads};
ghost use Rattle.loaded.specs.Told.{value_of, loop_at, vertex_of};

mod indexed;
mod traversal;

use answers::Question;
use fields::word;
pub use indexed::{IndexedJob, OrderAt, radial_at};
use job::{Fields, INDEX, RawJob};
use rules::{Counts, Edge, Face, Kind, Refusal, Use};
use std::marker::Model;
pub use traversal::Items;

// The uses of an edge in order round it.
pub type Order<'a> = Fields<'a>;

#[derive(Drop)]
pub struct Loaded<'a> {
    raw: RawJob<'a>,
}

impl<'a> Model for Loaded<'a> {
    ghost use Rattle.rules.specs.Job.{Job};
    ghost use Rattle.job.specs.Lists.{job_in};
    ghost use Rattle.loaded.specs.Opened.{Opened};

    ghost Value = { Job };

    ghost view = { λ l. job_in l.raw.bytes.now l.raw.index.now l.raw.counts };

    ghost invariant = { λ l. Opened l.raw.bytes.now l.raw.index.now l.raw.counts };
}

impl<'a> Loaded<'a> {
    // The job that the bytes hold, once loading filled the index.
    pub fn new(bytes: &'a [u8], index: &'a [u32; INDEX], counts: Counts) -> Loaded<'a>
        requires { Opened bytes.now index.now counts }
        ensures { result ≡ job_in bytes.now index.now counts }
    {
        let raw = RawJob {
            bytes,
            index,
            counts,
        };
        Loaded { raw }
    }

    // As it was read: for what asks a limit or two and no more.
    pub fn raw(&self) -> &RawJob<'a>
        ensures { (job_in result.now.bytes.now result.now.index.now result.now.counts ≡ self.now) × Opened result.now.bytes.now result.now.index.now result.now.counts }
    {
        &self.raw
    }

    // For what asks no more than that the index finds the answers.
    #[inline(always)]
    pub fn indexed(&self) -> IndexedJob<'a>
        ensures { (result ≡ self.now) × (length self.now.edges ≤ 1024) × (length self.now.faces ≤ 256) }
    {
        IndexedJob::new(self.raw)
    }

    // HOW MANY THERE ARE

    pub fn edges(&self) -> usize
        ensures { (result ≡ length self.now.edges) × (result ≤ 1024) }
    {
        self.raw.counts.edges
    }

    pub fn faces(&self) -> usize
        ensures { (result ≡ length self.now.faces) × (result ≤ 256) }
    {
        self.raw.counts.faces
    }

    pub fn loops(&self) -> usize
        ensures { (result ≡ length self.now.loops) × (result ≤ 1024) }
    {
        self.raw.counts.loops
    }

    pub fn uses(&self) -> usize
        ensures { (result ≡ length (uses_of self.now)) × (result ≤ 2048) }
    {
        self.raw.counts.uses
    }

    // THINGS BY THEIR NUMBERS

    // Head's field: the shells are known to be outer.
    #[tactic(auto, unfolding(job::specs::Lists::job_in))]
    pub fn is_proven(&self) -> bool
        ensures { result ≡ eqb self.now.proven 1 }
    {
        word(self.raw.bytes, 6) == 1
    }

    // The point of a vertex.
    #[tactic(auto, using(crate::proofs::OpenedLaws::points_are))]
    #[inline(always)]
    pub fn point(&self, v: usize) -> u32
        ensures { result ≡ point_at self.now.points v }
    {
        self.raw.point(v)
    }

    #[tactic(auto, using(crate::proofs::OpenedLaws::edges_are))]
    #[inline(always)]
    pub fn edge(&self, e: usize) -> Edge
        ensures { result ≡ edge_at self.now.edges e }
    {
        self.raw.edge(e)
    }

    #[tactic(auto, using(crate::proofs::OpenedLaws::faces_are))]
    #[inline(always)]
    pub fn face(&self, f: usize) -> Face
        ensures { result ≡ face_at self.now.faces f }
    {
        self.raw.face(f)
    }

    // The use's edge has no vertices.
    #[inline(always)]
    pub fn is_ring(&self, u: Use) -> bool
        ensures { result ≡ ring (edge_of_use self.now.edges u) }
    {
        self.edge(u.edge as usize).is_ring()
    }

    // The point of the vertex where a use starts.
    #[tactic(auto, using(crate::proofs::OpenedLaws::points_are, crate::proofs::OpenedLaws::edges_are))]
    #[inline(always)]
    pub fn start_point(&self, u: Use) -> u32
        ensures { result ≡ point_at self.now.points (use_start self.now.edges u) }
    {
        self.raw.start_point(u)
    }

    // LOOPS

    // The selected face of loop l.
    pub fn loop_face(&self, l: usize) -> u32
        requires { l < length self.now.loops }
        ensures { result ≡ (loop_at self.now.loops l).face }
    {
        self.raw.loop_face(l)
    }

    // Its items; a vertex loop has none.
    #[tactic(auto, using(crate::proofs::OpenedLaws::loop_is, crate::proofs::OpenedLaws::content_is))]
    pub fn items(&self, l: usize) -> Items<'a>
        requires { l < length self.now.loops }
        ensures { result ≡ content_items (loop_at self.now.loops l).content }
    {
        let from = self.raw.loop_start(l);
        let count = self.raw.item_count(l);
        Items::new(Fields::new(self.raw.bytes, from, 2 * count))
    }

    // The vertex of a vertex loop.
    pub fn loop_vertex(&self, l: usize) -> Option<usize>
        requires { l < length self.now.loops }
        ensures { result ≡ vertex_of (loop_at self.now.loops l).content }
    {
        if self.raw.loop_kind(l) == Kind::LoopRecord {
            return None;
        }
        Some(word(self.raw.bytes, self.raw.loop_start(l)))
    }

    // ANSWERS

    // The number on record for a question of any kind but Radial.
    pub fn answer_to(&self, q: Question) -> Option<usize>
        requires { Shaped q × (q.kind ≢ Kind.Radial) }
        ensures { result ≡ value_of (find self.now.answers (number_of q.kind) (key_of q)) }
    {
        self.indexed().answer_to(q)
    }

    // The uses of an edge in order round it, where none means undecided.
    pub fn radial(&self, e: usize) -> Result<Order<'a>, Refusal>
        requires { e < 4294967296 }
        ensures asks { result ≡ ask_radial self.now.answers e }
        ensures few { IfOk result (λ order. length order < 1073741824) }
    {
        self.indexed().radial(e)
    }
}
