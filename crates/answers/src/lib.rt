// The answers of a job by their questions: the index has a chain of answers for each bucket of questions, newest first.
// An entry of a chain is the number of an answer plus one; 0 ends it.

#![tactic(auto)]

ghost use Rattle.std.specs.Prelude.{◌≡◌, ◌+◌, ◌<◌};
ghost use Rattle.rules.specs.Fields.{le16};
ghost use Rattle.rules.specs.Kinds.{kind_of};
ghost use Rattle.rules.specs.Load.{answered_before};
ghost use Rattle.job.specs.Lists.{fields_at};
ghost use Rattle.job.specs.Raw.{answers};
ghost use Rattle.answers.specs.Question.{Padded, Shaped, about_one, about_two, about_four, about_either, question_in, bucket_of, RightAnswer};
ghost use Rattle.answers.specs.Index.{place_for, entered, Chained, Indexed};

use fields::{Chain, entry, get, half, put, word};
use job::{ANSWERS, BUCKETS, CHAIN, FACES, INDEX, RawJob};
use rules::Kind;

// The kind of an answer, and the one, two or four numbers that it is asked about; the rest are 0. All questions have one
// shape, so that along a chain they are told apart by one comparison.
#[derive(Clone, Copy, PartialEq, Eq)]
pub struct Question {
    pub kind: Kind,
    pub words: usize,
    pub a: usize,
    pub b: usize,
    pub c: usize,
    pub d: usize,
}

// A question about one number, about two, about two without order.
pub fn about_one(kind: Kind, a: usize) -> Question
    ensures { result ≡ about_one kind a }
{
    Question {
        kind,
        words: 1,
        a,
        b: 0,
        c: 0,
        d: 0,
    }
}

pub fn about_two(kind: Kind, a: usize, b: usize) -> Question
    ensures { result ≡ about_two kind a b }
{
    Question {
        kind,
        words: 2,
        a,
        b,
        c: 0,
        d: 0,
    }
}

// About four, as where a curve between two faces meets a point.
pub fn about_four(kind: Kind, a: usize, b: usize, c: usize, d: usize) -> Question
    ensures { result ≡ about_four kind a b c d }
{
    Question {
        words: 4,
        c,
        d,
        ..about_two(kind, a, b)
    }
}

// Points and curves have no order of their two.
pub fn about_either(kind: Kind, a: usize, b: usize) -> Question
    ensures { result ≡ about_either kind a b }
{
    if a <= b {
        return about_two(kind, a, b);
    }
    about_two(kind, b, a)
}

// The question of the answer whose record stands at a byte.
#[tactic(auto, using(crate::specs::QuestionLaws::shaped), unfolding(crate::specs::Question::question_in, crate::specs::Question::question_by))]
#[inline(always)]
pub fn question_at(job: &[u8], at: usize) -> Question
    requires { at < 4294967296 }
    ensures { (result ≡ question_in job.now at) × Shaped result }
{
    let kind = Kind::from(half(job, at + 4));
    let p = at + 6;
    let a = word(job, p);
    let b = word(job, p + 4);
    match kind {
        Kind::Radial | Kind::Surface | Kind::Orientation => about_one(kind, a),
        Kind::Points | Kind::Curves => about_either(kind, a, b),
        Kind::Inside => about_two(kind, a, b),
        Kind::Singular => about_four(kind, a, b, word(job, p + 8), word(job, p + 12)),
        _ => Question {
            kind,
            words: 0,
            a: 0,
            b: 0,
            c: 0,
            d: 0,
        },
    }
}

// The chain in which a question's answer stands.
#[tactic(auto, unfolding(crate::specs::Question::bucket_of))]
fn bucket(q: Question) -> usize
    requires { Shaped q }
    ensures { (result ≡ bucket_of q) × (result < 1024) }
{
    (131 * q.kind.number() + q.a + 61 * q.b + 17 * q.c + 307 * q.d) % BUCKETS
}

// The first byte of the record that answers a question.
pub fn find(raw: &RawJob<'_>, q: Question) -> Option<u32>
    requires { Shaped q × Chained raw.now.index.now }
    ensures { result ≡ place_for raw.now.bytes.now raw.now.index.now q }
{
    let index = raw.index;
    let places = &index[ANSWERS..FACES];
    Chain::new(&index[CHAIN..ANSWERS], get(index, bucket(q)))
        .map(|k| entry(places, k, 0))
        .find(|p| question_at(raw.bytes, *p as usize) == q)
}

// The question of the record at a byte is answered before.
#[tactic(auto, using(crate::specs::IndexLaws::before_found, crate::specs::ChainLaws::chained))]
pub fn answered_before(raw: &RawJob<'_>, at: usize) -> bool
    requires { Indexed raw.now.bytes.now raw.now.index.now raw.now.counts × RightAnswer raw.now.bytes.now at × (at < 4294967296) }
    ensures { result ≡ answered_before (kind_of (le16 raw.now.bytes.now (at + 4))) (answers raw.now) (fields_at raw.now.bytes.now at) }
{
    find(raw, question_at(raw.bytes, at)).is_some()
}

// The answer with number k, whose record stands at a byte, is entered in front of its chain. The parts are lent, as
// `load::keep` has them: there is no struct of a job that is being read.
#[tactic(auto, unfolding(crate::specs::Index::entered))]
pub fn enter(job: &[u8], index: &mut [u32; INDEX], k: usize, at: usize)
    requires { (k < 2048) × (at < 4294967296) }
    ensures { index.new ≡ entered job.now index.old k at }
{
    let b = bucket(question_at(job, at));
    let head = get(index, b);
    put(index, ANSWERS + k, at);
    put(index, CHAIN + k, head);
    put(index, b, k + 1);
}
