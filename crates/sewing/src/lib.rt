// Sewing: from a job's bytes to the body or to the fields of a single stage. Each stage is done and handed to the next, up
// to the one that is asked for. Most tables are made in two sizes, for small parts and for all others: small ones are
// cleared sooner.

#![tactic(auto)]

ghost use Rattle.std.specs.Prelude.{◌≡◌, ◌≤◌, ◌<◌, length, false};
ghost use Rattle.rules.specs.Operation.{is_asked};
ghost use Rattle.rules.specs.Read.{uses_of};
ghost use Rattle.rules.specs.Rules.{ordinary, print_shop};
ghost use Rattle.rules.specs.Walk.{circuits, loops_of};
ghost use Rattle.stages_out.specs.Rows.{Staged, round_rows};
ghost use Rattle.rules.specs.Sew.{sewn, sewn_with_table, Ends};
ghost use Rattle.rules.specs.Stage.{read_stage, pair_stage, merge_stage, vertex_loop_stage};
ghost use Rattle.rules.specs.Stage.{walk_stage, walk_stage_with_table, loop_stage, fan_stage, edge_stage, joining_stage, shell_stage, lump_stage};
ghost use Rattle.theorems.specs.Promises.{Promises};
ghost use Rattle.theorems.specs.JoiningTables.{PromisesWith, WalksWith};
ghost use Rattle.theorems.specs.PrintShop.{PrintPromises};
ghost use Rattle.loaded.specs.Opened.{Loads};
ghost use Rattle.progress.specs.Chain.{after_reading, after_pairing, after_merging, after_keeping, after_walks, staged, sewn_by};
ghost use Rattle.progress.specs.Known.{Paired};
ghost use Rattle.sewing.specs.Promised.{Promised};

use body::put_empty;
use edge_uses::{EdgeUses, link};
use fields::NO_SPAN;
use job::INDEX;
use joining_table::table_of;
use load::open;
use loaded::Loaded;
use merge_faces::{merge_faces, remove};
use pair::pair;
use progress::{Figures, Kept, Merged, Walks};
use read::read;
use rebuild::rebuild;
use rules::{FEW, MOST_EDGES, MOST_LOOPS, MOST_USES, Refusal, Rules, Stage, Use};
use stages_out::{write_kept, write_loops, write_pairs, write_read, write_twins, write_walk};
use uses::NO_USE;
use vertex_loops::vertex_loops;
use walk::{Rounds, Steps, loops, successors};

// The stage `loops`, of walks that are known by their successors.
fn put_loops(
    uses: &[Use],
    numbers: &[u32],
    steps: &Steps<'_>,
    out: &mut [u8],
) -> Result<usize, Refusal>
    ensures { Staged (round_rows uses.now numbers.now (loops_of (circuits steps.now.removed.now steps.now.succ.now))) out.old out.new result }
{
    let n = steps.succ.len();
    let mut table = [0u32; MOST_USES];
    let mut room = [NO_SPAN; MOST_USES];
    let ways = &mut table[..n];
    let stretches = &mut room[..n];
    let k = loops(steps, ways, stretches);
    let rounds = Rounds {
        ways,
        stretches: &stretches[..k],
    };
    write_loops(uses, numbers, &rounds, out)
}

// The loops, or what is built on the walks.
#[tactic(auto, unfolding(progress::specs::Chain::after_walks))]
fn on_walks(stage: Option<Stage>, w: &Walks<'_>, out: &mut [u8]) -> Result<usize, Refusal>
    requires { is_asked Stage.Walk stage ≡ false }
    ensures { Ends (after_walks w.now.rules stage w.now.job (length out.old) w.now.walked) out.old out.new result }
{
    // A test in each step and no table of closures: each stage is handed other tables, which a closure could not own.
    if Stage::Loops.is_asked(stage) {
        return put_loops(w.uses(), w.faces.numbers(), &w.steps(), out);
    }
    rebuild(stage, w, out)
}

// The uses removed and the walks past them, in tables for so many uses.
#[tactic(auto, unfolding(progress::specs::Chain::after_walks, rules::specs::Sew::walks_of, stages_out::specs::Rows::walk_rows))]
fn walk_in_tables<const USES: usize>(
    stage: Option<Stage>,
    k: &Kept<'_>,
    out: &mut [u8],
) -> Result<usize, Refusal>
    requires { (length k.now.walked.uses ≤ USES) × (USES ≤ 2048) }
    ensures { Ends (after_walks k.now.rules stage k.now.job (length out.old) k.now.walked) out.old out.new result }
{
    let uses = k.linked.uses();
    let n = uses.len();
    let mut flags = [false; USES];
    let mut table = [0u32; USES];
    let mut counts = [0u32; USES];
    let removed = &mut flags[..n];
    let succ = &mut table[..n];
    let passed = &mut counts[..n];
    let gone = remove(uses, k.twins, k.faces.groups(), removed);
    let total = successors(uses, k.twins, removed, succ, passed);
    if Stage::Walk.is_asked(stage) {
        return write_walk(removed, succ, passed, out);
    }
    let walks = Walks {
        rules: k.rules,
        job: k.job,
        linked: k.linked,
        twins: k.twins,
        faces: k.faces,
        kept: k.vertex_loops,
        removed,
        succ,
        figures: Figures {
            removed: gone,
            passed: total,
        },
    };
    on_walks(stage, &walks, out)
}

// The walks, once the vertex loops are kept.
#[tactic(auto, using(progress::specs::KnownLaws::loads_loops, progress::specs::KnownLaws::paired_few), unfolding(progress::specs::Chain::after_keeping, rules::specs::Sew::walks_of))]
fn on_kept(stage: Option<Stage>, k: &Kept<'_>, out: &mut [u8]) -> Result<usize, Refusal>
    ensures { Ends (after_keeping k.now.rules stage k.now.job (length out.old) k.now.walked) out.old out.new result }
{
    if Stage::VertexLoops.is_asked(stage) {
        return write_kept(k.vertex_loops, out);
    }
    if k.linked.uses().len() <= FEW {
        return walk_in_tables::<FEW>(stage, k, out);
    }
    walk_in_tables::<MOST_USES>(stage, k, out)
}

// The vertex loops kept, in a table for so many loops.
#[tactic(auto, unfolding(progress::specs::Chain::after_merging))]
fn keep_in_table<const LOOPS: usize>(
    stage: Option<Stage>,
    m: &Merged<'_>,
    out: &mut [u8],
) -> Result<usize, Refusal>
    requires { (is_asked Stage.Merge stage ≡ false) × (length m.now.job.loops ≤ LOOPS) × (LOOPS ≤ 1024) }
    ensures { Ends (after_merging m.now.rules stage m.now.job m.now.uses m.now.twins (length out.old) m.now.merged) out.old out.new result }
{
    let table = vertex_loops::<LOOPS>(m.job, m.faces.numbers())?;
    let kept = Kept {
        rules: m.rules,
        job: m.job,
        linked: m.linked,
        twins: m.twins,
        faces: m.faces,
        vertex_loops: table.as_slice(),
    };
    on_kept(stage, &kept, out)
}

// The vertex loops, once the faces are merged.
#[tactic(auto, using(stages_out::specs::Rows::pair_rows_lem, progress::specs::KnownLaws::labels_length), unfolding(progress::specs::Chain::after_merging))]
fn on_merged(stage: Option<Stage>, m: &Merged<'_>, out: &mut [u8]) -> Result<usize, Refusal>
    ensures { Ends (after_merging m.now.rules stage m.now.job m.now.uses m.now.twins (length out.old) m.now.merged) out.old out.new result }
{
    if Stage::Merge.is_asked(stage) {
        return write_pairs(m.faces, out);
    }
    if m.job.loops() <= FEW {
        return keep_in_table::<FEW>(stage, m, out);
    }
    keep_in_table::<MOST_LOOPS>(stage, m, out)
}

// The faces merged, once the uses are paired.
#[tactic(auto, using(progress::specs::KnownLaws::loads_sound, progress::specs::KnownLaws::paired_twins), unfolding(progress::specs::Chain::after_pairing, rules::specs::Merge::merge_faces))]
fn on_paired(
    rules: Rules,
    stage: Option<Stage>,
    job: &Loaded<'_>,
    linked: &EdgeUses<'_>,
    twins: &[u32],
    out: &mut [u8],
) -> Result<usize, Refusal>
    requires paired { Paired rules job.now linked.now.uses twins.now }
    requires chained { linked.now.edges ≡ length job.now.edges }
    ensures { Ends (after_pairing rules stage job.now linked.now.uses (length out.old) twins.now) out.old out.new result }
{
    if Stage::Pair.is_asked(stage) {
        return write_twins(twins, out);
    }
    let faces = merge_faces(&job.indexed(), linked.uses(), twins, rules.table)?;
    let merged = Merged {
        rules,
        job,
        linked,
        twins,
        faces: &faces,
    };
    on_merged(stage, &merged, out)
}

// The uses read, those of each edge chained, and paired, in tables for so many uses and edges.
#[tactic(auto, unfolding(progress::specs::Chain::after_reading))]
fn read_in_tables<const USES: usize, const EDGES: usize>(
    rules: Rules,
    stage: Option<Stage>,
    job: &Loaded<'_>,
    out: &mut [u8],
) -> Result<usize, Refusal>
    requires loads { Loads job.now }
    requires uses_fit { length (uses_of job.now) ≤ USES }
    requires edges_fit { length job.now.edges ≤ EDGES }
    requires size { (USES ≤ 2048) × (EDGES ≤ 1024) }
    ensures { Ends (after_reading rules stage job.now (length out.old) (uses_of job.now)) out.old out.new result }
{
    let n = job.uses();
    let mut table = [NO_USE; USES];
    let mut heads = [0u32; EDGES];
    let mut links = [0u32; USES];
    let uses = &mut table[..n];
    read(job, uses);
    let linked = link(uses, &mut heads[..job.edges()], &mut links[..n]);
    let twins: [u32; USES] = pair(&job.indexed(), &linked, rules.profile)?;
    on_paired(rules, stage, job, &linked, &twins[..n], out)
}

// The uses read and paired, once the job is loaded.
fn on_loaded(
    rules: Rules,
    stage: Option<Stage>,
    job: &Loaded<'_>,
    out: &mut [u8],
) -> Result<usize, Refusal>
    requires { Loads job.now }
    ensures { Ends (after_reading rules stage job.now (length out.old) (uses_of job.now)) out.old out.new result }
{
    let uses = job.uses();
    let edges = job.edges();
    if uses <= FEW && edges <= FEW {
        return read_in_tables::<FEW, FEW>(rules, stage, job, out);
    }
    // few uses of many edges: there are as many chains as edges, and all else goes by the uses
    if uses <= FEW {
        return read_in_tables::<FEW, MOST_EDGES>(rules, stage, job, out);
    }
    read_in_tables::<MOST_USES, MOST_EDGES>(rules, stage, job, out)
}

// The stages in order, by these rules, up to the one that is asked for.
#[tactic(auto, unfolding(progress::specs::Chain::staged))]
fn run(rules: Rules, stage: Option<Stage>, job: &[u8], out: &mut [u8]) -> Result<usize, Refusal>
    ensures { Ends (staged rules stage job.now (length out.old)) out.old out.new result }
{
    let mut index = [0u32; INDEX];
    let loaded = open(job, &mut index)?;
    on_loaded(rules, stage, &loaded, out)
}

// The stage `read`. It hands nothing on, and goes a way of its own: the frames of the chain would hold its table of uses too.
#[tactic(auto, unfolding(rules::specs::Stage::read_stage))]
pub fn read_stage(job: &[u8], out: &mut [u8]) -> Result<usize, Refusal>
    ensures { Ends (read_stage job.now (length out.old)) out.old out.new result }
{
    let mut index = [0u32; INDEX];
    let loaded = open(job, &mut index)?;
    let mut table = [NO_USE; MOST_USES];
    let uses = &mut table[..loaded.uses()];
    read(&loaded, uses);
    write_read(uses, out)
}

// The stage `pair`.
#[tactic(auto, using(progress::specs::StageLaws::stage_pair))]
pub fn pair_stage(job: &[u8], out: &mut [u8]) -> Result<usize, Refusal>
    ensures { Ends (pair_stage ordinary job.now (length out.old)) out.old out.new result }
{
    run(Rules::ordinary(), Some(Stage::Pair), job, out)
}

// The stage `merge`.
#[tactic(auto, using(progress::specs::StageLaws::stage_merge))]
pub fn merge_stage(job: &[u8], out: &mut [u8]) -> Result<usize, Refusal>
    ensures { Ends (merge_stage ordinary job.now (length out.old)) out.old out.new result }
{
    run(Rules::ordinary(), Some(Stage::Merge), job, out)
}

// The stage `vertex-loops`.
#[tactic(auto, using(progress::specs::StageLaws::stage_vertex_loops))]
pub fn vertex_loop_stage(job: &[u8], out: &mut [u8]) -> Result<usize, Refusal>
    ensures { Ends (vertex_loop_stage ordinary job.now (length out.old)) out.old out.new result }
{
    run(Rules::ordinary(), Some(Stage::VertexLoops), job, out)
}

// The stage `walk`. Its walks are those of which demand 3 speaks, so what it says of walks holds of them.
pub fn walk_stage(job: &[u8], out: &mut [u8]) -> Result<usize, Refusal>
    ensures { Ends (walk_stage ordinary job.now (length out.old)) out.old out.new result × Promised job.now }
{
    run(Rules::ordinary(), Some(Stage::Walk), job, out)
}

// The stage `walk` with a joining table that is supplied with the call. What is no table is refused before all else.
pub fn walk_stage_with_table(table: &[u8], job: &[u8], out: &mut [u8]) -> Result<usize, Refusal>
    ensures { Ends (walk_stage_with_table table.now job.now (length out.old)) out.old out.new result × WalksWith table.now job.now }
{
    let supplied = table_of(table)?;
    run(Rules::with_table(supplied), Some(Stage::Walk), job, out)
}

// The stage `loops`.
pub fn loop_stage(job: &[u8], out: &mut [u8]) -> Result<usize, Refusal>
    ensures { Ends (loop_stage ordinary job.now (length out.old)) out.old out.new result × Promised job.now }
{
    run(Rules::ordinary(), Some(Stage::Loops), job, out)
}

// The stage `fans`.
#[tactic(auto, using(progress::specs::StageLaws::stage_fans))]
pub fn fan_stage(job: &[u8], out: &mut [u8]) -> Result<usize, Refusal>
    ensures { Ends (fan_stage ordinary job.now (length out.old)) out.old out.new result }
{
    run(Rules::ordinary(), Some(Stage::Fans), job, out)
}

// The stage `edges`.
#[tactic(auto, using(progress::specs::StageLaws::stage_edges))]
pub fn edge_stage(job: &[u8], out: &mut [u8]) -> Result<usize, Refusal>
    ensures { Ends (edge_stage ordinary job.now (length out.old)) out.old out.new result }
{
    run(Rules::ordinary(), Some(Stage::Edges), job, out)
}

// The stage `joining`.
#[tactic(auto, using(progress::specs::StageLaws::stage_joining))]
pub fn joining_stage(job: &[u8], out: &mut [u8]) -> Result<usize, Refusal>
    ensures { Ends (joining_stage ordinary job.now (length out.old)) out.old out.new result }
{
    run(Rules::ordinary(), Some(Stage::Joining), job, out)
}

// The stage `shells`.
#[tactic(auto, using(progress::specs::StageLaws::stage_shells))]
pub fn shell_stage(job: &[u8], out: &mut [u8]) -> Result<usize, Refusal>
    ensures { Ends (shell_stage ordinary job.now (length out.old)) out.old out.new result }
{
    run(Rules::ordinary(), Some(Stage::Shells), job, out)
}

// The stage `lumps`.
#[tactic(auto, using(progress::specs::StageLaws::stage_lumps))]
pub fn lump_stage(job: &[u8], out: &mut [u8]) -> Result<usize, Refusal>
    ensures { Ends (lump_stage ordinary job.now (length out.old)) out.old out.new result }
{
    run(Rules::ordinary(), Some(Stage::Lumps), job, out)
}

// The body of a job, sewn by these rules; one that selects no face is Empty.
#[tactic(auto, unfolding(progress::specs::Chain::sewn_by, progress::specs::Chain::sewn_from))]
fn sew_by(rules: Rules, job: &[u8], out: &mut [u8]) -> Result<usize, Refusal>
    ensures { Ends (sewn_by rules job.now (length out.old)) out.old out.new result }
{
    let mut index = [0u32; INDEX];
    let loaded = open(job, &mut index)?;
    if loaded.faces() == 0 {
        return put_empty(out);
    }
    on_loaded(rules, None, &loaded, out)
}

// Sewing: the body's records from the output's start on, or a refusal and the output untouched. What demand 3 says holds
// of the job.
pub fn sew(job: &[u8], out: &mut [u8]) -> Result<usize, Refusal>
    ensures { Ends (sewn ordinary job.now (length out.old)) out.old out.new result × Promises ordinary job.now }
{
    sew_by(Rules::ordinary(), job, out)
}

// Sewing with a joining table that is supplied with the call. What is no table is refused before all else; what demand 3
// says holds for each table that is one.
pub fn sew_with_table(table: &[u8], job: &[u8], out: &mut [u8]) -> Result<usize, Refusal>
    ensures { Ends (sewn_with_table table.now job.now (length out.old)) out.old out.new result × PromisesWith table.now job.now }
{
    let supplied = table_of(table)?;
    sew_by(Rules::with_table(supplied), job, out)
}

// Sewing for a print shop: an edge with more than two uses is refused with 41, a point with more than one fan with 42. An
// accepted job has the ordinary body; what demand 3 says holds of it. No single stage takes this profile.
pub fn sew_for_print(job: &[u8], out: &mut [u8]) -> Result<usize, Refusal>
    ensures { Ends (sewn print_shop job.now (length out.old)) out.old out.new result × PrintPromises job.now }
{
    sew_by(Rules::print_shop(), job, out)
}
