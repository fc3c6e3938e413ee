// Questions put to the answers of a job: 20 where no record answers, 21 where the answer is undecided.

#![tactic(auto)]

ghost use Rattle.std.specs.Prelude.{◌≡◌, [], ◌∷◌, ◌≢◌};
ghost use Rattle.rules.specs.Kinds.{number_of};
ghost use Rattle.rules.specs.Outcome.{Ok, ◌>>=◌ as ◌and_then◌};
ghost use Rattle.rules.specs.Questions.{ask, ask_yes, ask_same, surface_answer};
ghost use Rattle.answers.specs.Question.{key_of, Shaped};

use answers::Question;
use loaded::IndexedJob;
use rules::{Fault, Kind, Refusal, SurfaceAnswer, Verdict};

// The number on record for a question. A missing answer ends the stage there, by the form that document 01 names.
#[tactic(auto, unfolding(rules::specs::Questions::on_record))]
fn ask(job: &IndexedJob<'_>, q: Question) -> Result<usize, Refusal>
    requires { Shaped q × (q.kind ≢ Kind.Radial) }
    ensures { result ≡ ask job.now.answers (number_of q.kind) (key_of q) }
{
    let Some(v) = job.answer_to(q) else {
        return Err(Fault::Unanswered.at(q.kind.number()));
    };
    Ok(v)
}

// A question that is answered yes or no.
#[tactic(auto, unfolding(rules::specs::Questions::decided))]
pub fn ask_yes(job: &IndexedJob<'_>, q: Question) -> Result<bool, Refusal>
    requires { Shaped q × (q.kind ≢ Kind.Radial) }
    ensures { result ≡ ask_yes job.now.answers (number_of q.kind) (key_of q) }
{
    match Verdict::from(ask(job, q)?) {
        Verdict::No => Ok(false),
        Verdict::Yes => Ok(true),
        Verdict::Undecided => Err(Fault::AnswerUndecided.at(q.kind.number())),
    }
}

// Points and Curves: equal numbers are the same without a record.
#[tactic(auto, using(answers::specs::QuestionLaws::shaped_either, answers::specs::QuestionLaws::either_key, answers::specs::QuestionLaws::either_kind), unfolding(rules::specs::Questions::ask_same))]
pub fn ask_same(job: &IndexedJob<'_>, kind: Kind, a: u32, b: u32) -> Result<bool, Refusal>
    requires { kind ≢ Kind.Radial }
    ensures { result ≡ ask_same job.now.answers (number_of kind) a b }
{
    if a == b {
        return Ok(true);
    }
    ask_yes(job, answers::about_either(kind, a as usize, b as usize))
}

// Surface, for the lower use of a pair.
#[tactic(auto, using(answers::specs::QuestionLaws::shaped_one), unfolding(rules::specs::Kinds::number_of))]
pub fn ask_surface(job: &IndexedJob<'_>, h: u32) -> Result<SurfaceAnswer, Refusal>
    ensures { result ≡ (ask job.now.answers 8 (h ∷ []) and_then λ v. Ok (surface_answer v)) }
{
    let v = ask(job, answers::about_one(Kind::Surface, h as usize))?;
    Ok(SurfaceAnswer::from(v))
}

// Singular.
#[tactic(auto, unfolding(rules::specs::Kinds::number_of))]
pub fn ask_singular(
    job: &IndexedJob<'_>,
    curve: u32,
    low: u32,
    high: u32,
    point: u32,
) -> Result<bool, Refusal>
    ensures { result ≡ ask_yes job.now.answers 11 (curve ∷ low ∷ high ∷ point ∷ []) }
{
    let q = answers::about_four(
        Kind::Singular,
        curve as usize,
        low as usize,
        high as usize,
        point as usize,
    );
    ask_yes(job, q)
}

// Orientation.
#[tactic(auto, using(answers::specs::QuestionLaws::shaped_one), unfolding(rules::specs::Kinds::number_of))]
pub fn ask_outer(job: &IndexedJob<'_>, low: u32) -> Result<bool, Refusal>
    ensures { result ≡ ask_yes job.now.answers 12 (low ∷ []) }
{
    ask_yes(job, answers::about_one(Kind::Orientation, low as usize))
}

// Inside.
#[tactic(auto, using(answers::specs::QuestionLaws::shaped_two), unfolding(rules::specs::Kinds::number_of))]
pub fn ask_inside(job: &IndexedJob<'_>, probe: u32, container: u32) -> Result<bool, Refusal>
    ensures { result ≡ ask_yes job.now.answers 13 (probe ∷ container ∷ []) }
{
    ask_yes(
        job,
        answers::about_two(Kind::Inside, probe as usize, container as usize),
    )
}
