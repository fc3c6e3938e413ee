// A job whose index finds its answers. Questions are put to it, and a stage that asks no more of a job than this takes it:
// it has no limits, and those that a reader needs stand in the reader's contract.

ghost use Rattle.std.specs.Prelude.{◌≡◌, ◌≢◌, ◌<◌, ◌≤◌, length, IfOk};
ghost use Rattle.rules.specs.Job.{face_at};
ghost use Rattle.rules.specs.Kinds.{number_of};
ghost use Rattle.rules.specs.Questions.{find, ask_radial};
ghost use Rattle.answers.specs.Question.{key_of, Shaped};
ghost use Rattle.answers.specs.Index.{Indexed};
ghost use Rattle.job.specs.Lists.{job_in};
ghost use Rattle.job.specs.Raw.{answers};
ghost use Rattle.rules.specs.Outcome.{◌>>=◌ as ◌and_then◌};
ghost use Rattle.loaded.specs.Told.{value_of};
ghost use Rattle.loaded.specs.Orders.{order_in};

use crate::Order;
use answers::Question;
use fields::word;
use job::{Fields, RawJob};
use rules::{Face, Fault, Kind, Refusal};
use std::marker::Model;

#[derive(Clone, Drop)]
pub struct IndexedJob<'a> {
    raw: RawJob<'a>,
}

impl<'a> Model for IndexedJob<'a> {
    ghost use Rattle.rules.specs.Job.{Job};
    ghost use Rattle.job.specs.Lists.{job_in};
    ghost use Rattle.answers.specs.Index.{Indexed};

    ghost Value = { Job };

    ghost view = { λ j. job_in j.raw.bytes.now j.raw.index.now j.raw.counts };

    ghost invariant = { λ j. Indexed j.raw.bytes.now j.raw.index.now j.raw.counts };
}

impl<'a> IndexedJob<'a> {
    // The job that the bytes hold, by an index that finds its answers.
    #[inline(always)]
    pub fn new(raw: RawJob<'a>) -> IndexedJob<'a>
        requires { Indexed raw.bytes.now raw.index.now raw.counts }
        ensures { result ≡ job_in raw.entry.bytes.now raw.entry.index.now raw.entry.counts }
    {
        IndexedJob { raw }
    }

    // How many edges and selected faces there are.
    #[tactic(auto, using(crate::proofs::IndexedLaws::edges_counted))]
    pub fn edges(&self) -> usize
        ensures { result ≡ length self.now.edges }
    {
        self.raw.counts.edges
    }

    #[tactic(auto, using(crate::proofs::IndexedLaws::faces_counted))]
    pub fn faces(&self) -> usize
        ensures { result ≡ length self.now.faces }
    {
        self.raw.counts.faces
    }

    #[tactic(auto, using(crate::proofs::IndexedLaws::faces_counted, crate::proofs::IndexedLaws::faces_are))]
    #[inline(always)]
    pub fn face(&self, f: usize) -> Face
        requires { length self.now.faces ≤ 256 }
        ensures { result ≡ face_at self.now.faces f }
    {
        self.raw.face(f)
    }

    // The number on record for a question of any kind but Radial.
    #[tactic(auto, using(crate::proofs::FoundLaws::value))]
    pub fn answer_to(&self, q: Question) -> Option<usize>
        requires { Shaped q × (q.kind ≢ Kind.Radial) }
        ensures { result ≡ value_of (find self.now.answers (number_of q.kind) (key_of q)) }
    {
        let p = answers::find(&self.raw, q)? as usize;
        Some(word(self.raw.bytes, p + 6 + 4 * q.words))
    }

    // The uses of an edge in order round it, where none means undecided.
    #[tactic(auto, using(crate::proofs::IndexedLaws::answers_are, rules::proofs::FieldLaws::length_fields))]
    pub fn radial(&self, e: usize) -> Result<Order<'a>, Refusal>
        requires { e < 4294967296 }
        ensures asks { result ≡ ask_radial self.now.answers e }
        ensures few { IfOk result (λ order. length order < 1073741824) }
    {
        let order = radial_at(&self.raw, e)?;
        Ok(Fields::new(self.raw.bytes, order.from, order.count))
    }
}

// Where the uses of an order stand in the job: the byte of the first, and how many there are.
#[derive(Clone, Copy)]
pub struct OrderAt {
    pub from: usize,
    pub count: usize,
}

// Where the order round an edge stands, for a caller that has the bytes and keeps no reference to them.
#[tactic(auto, using(crate::proofs::FoundLaws::radial), unfolding(rules::specs::Kinds::number_of))]
pub fn radial_at(raw: &RawJob<'_>, e: usize) -> Result<OrderAt, Refusal>
    requires { Indexed raw.now.bytes.now raw.now.index.now raw.now.counts × (e < 4294967296) }
    ensures asks { (result and_then λ o. Ok (order_in raw.now.bytes.now o)) ≡ ask_radial (answers raw.now) e }
    ensures few { IfOk result (λ o. (o.from < 4294967306) × (o.count < 1073741824)) }
{
    let kind = Kind::Radial;
    let Some(p) = answers::find(raw, answers::about_one(kind, e)) else {
        return Err(Fault::Unanswered.at(kind.number()));
    };
    let p = p as usize;
    let n = word(raw.bytes, p) / 4;
    if n <= 1 {
        return Err(Fault::AnswerUndecided.at(kind.number()));
    }
    Ok(OrderAt {
        from: p + 10,
        count: n - 1,
    })
}
