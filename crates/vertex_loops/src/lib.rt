// The vertex loops kept, each by its merged face and its point.

#![tactic(auto)]

ghost use Rattle.std.specs.Prelude.{◌≡◌, ◌+◌, ◌≤◌, ◌<◌, length, Ok, IfOk};
ghost use Rattle.rules.specs.Outcome.{◌>>=◌ as ◌and_then◌};
ghost use Rattle.rules.specs.VertexLoops.{already_there, keep_unless_there, vertex_loop_step, vertex_loops};
ghost use Rattle.loaded.specs.Told.{loop_at};
ghost use Rattle.vertex_loops.specs.Kept.{held_against};

use fields::{Filled, entry};
use loaded::Loaded;
use rules::{KeptVertexLoop, Kind, Refusal};

// What a table of kept vertex loops holds before it is filled.
const NO_VERTEX_LOOP: KeptVertexLoop = KeptVertexLoop { face: 0, point: 0 };

// The point is that of a kept vertex loop, which is asked only where the merged face is the same. It and the loop below are
// inlined: this is asked of every two vertex loops, and most are of two merged faces.
#[inline(always)]
#[tactic(auto, unfolding(rules::specs::Kinds::number_of))]
fn held_against(
    job: &Loaded<'_>,
    kept: KeptVertexLoop,
    face: u32,
    point: u32,
) -> Result<bool, Refusal>
    ensures { result ≡ held_against job.now.answers face point kept }
{
    if kept.face != face {
        return Ok(false);
    }
    ask::ask_same(&job.indexed(), Kind::Points, point, kept.point)
}

// The point is already in the merged face: held against those kept there, in order, up to the first that is the same.
#[inline(always)]
#[tactic(auto, using(std::proofs::lemmas::List::drop_more), unfolding(rules::specs::VertexLoops::already_there))]
fn already_there(
    job: &Loaded<'_>,
    kept: &[KeptVertexLoop],
    face: u32,
    point: u32,
) -> Result<bool, Refusal>
    ensures { result ≡ already_there job.now.answers face point kept.now }
{
    for k in kept {
        if held_against(job, *k, face, point)? {
            return Ok(true);
        }
    }
    Ok(false)
}

// Kept unless the same point is already in the merged face.
#[tactic(auto, unfolding(rules::specs::VertexLoops::keep_unless_there))]
fn keep_unless_there<const LOOPS: usize>(
    job: &Loaded<'_>,
    kept: &mut Filled<KeptVertexLoop, LOOPS>,
    face: u32,
    point: u32,
) -> Result<(), Refusal>
    requires { length kept.old.entries < LOOPS }
    ensures keeps { (result and_then λ _. Ok kept.new.entries) ≡ keep_unless_there job.now.answers face point kept.old.entries }
    ensures one { length kept.new.entries ≤ length kept.old.entries + 1 }
{
    if already_there(job, kept.as_slice(), face, point)? {
        return Ok(());
    }
    kept.push(KeptVertexLoop { face, point });
    Ok(())
}

// Loop l of the job, where it is a vertex loop.
fn keep_loop<const LOOPS: usize>(
    job: &Loaded<'_>,
    numbers: &[u32],
    kept: &mut Filled<KeptVertexLoop, LOOPS>,
    l: usize,
) -> Result<(), Refusal>
    requires { (l < length job.now.loops) × (length kept.old.entries < LOOPS) }
    ensures keeps { (result and_then λ _. Ok kept.new.entries) ≡ vertex_loop_step job.now.answers job.now.points numbers.now (loop_at job.now.loops l) kept.old.entries }
    ensures one { length kept.new.entries ≤ length kept.old.entries + 1 }
{
    let Some(v) = job.loop_vertex(l) else {
        return Ok(());
    };
    let face = entry(numbers, job.loop_face(l) as usize, 0);
    keep_unless_there(job, kept, face, job.point(v))
}

// By ascending face and then loop, from the merged face of each selected face.
#[tactic(auto, using(std::proofs::lemmas::List::drop_more), unfolding(rules::specs::Outcome::throughout))]
pub fn vertex_loops<const LOOPS: usize>(
    job: &Loaded<'_>,
    numbers: &[u32],
) -> Result<Filled<KeptVertexLoop, LOOPS>, Refusal>
    requires { length job.now.loops ≤ LOOPS }
    ensures keeps { (result and_then λ kept. Ok kept.entries) ≡ vertex_loops job.now.answers job.now.points numbers.now job.now.loops }
    ensures few { IfOk result (λ kept. length kept.entries ≤ length job.now.loops) }
{
    let mut kept = Filled::new(NO_VERTEX_LOOP);
    // by number: a loop's parts are read where they stand in the job
    for l in 0..job.loops() {
        keep_loop(job, numbers, &mut kept, l)?;
    }
    Ok(kept)
}
