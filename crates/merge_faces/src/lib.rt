// Merging: boundaries, merged groups of faces, removed uses, and the merged faces by number.

#![tactic(auto)]

ghost use Rattle.std.specs.Prelude.{◌≡◌, ◌+◌, ◌≤◌, ◌<◌, [], length, IfOk};
ghost use Rattle.lists.specs.Lists.{keep};
ghost use Rattle.rules.specs.Outcome.{◌>>=◌ as ◌and_then◌};
ghost use Rattle.rules.specs.Sense.{same_sense};
ghost use Rattle.rules.specs.Job.{face_at};
ghost use Rattle.rules.specs.Read.{stored_sense};
ghost use Rattle.rules.specs.Groups.{Grouping, lowest_members, group_numbers, Lowest};
ghost use Rattle.rules.specs.Merge.{boundaries as boundaries_of, joins_faces, merge_step, merged_groups, removes, removed_uses};
ghost use Rattle.groups.specs.Parents.{Ordered, Stands};
ghost use Rattle.merge_faces.specs.Merging.{MergedTo, answered_step, JoinedPairs};

mod faces;

pub use faces::{Faces, merge_faces};
use fields::{Filled, get, put};
use groups::{Groups, join, join_in};
use loaded::IndexedJob;
use rules::{Fault, Kind, MOST_FACES, Refusal, SurfaceAnswer, Table, Use};
use uses::use_face;

// BOUNDARIES

// The faces of the first n twin pairs join.
pub fn join_pairs(g: Groups, uses: &[Use], twins: &[u32], n: usize) -> Groups
    ensures { JoinedPairs uses.now twins.now n g result }
{
    let mut groups = g;
    // by number: n may be any, as a use past the last reads as none
    for h in 0..n {
        let t = get(twins, h);
        // boundaries count no joins
        let _separate = join(&mut groups, use_face(uses, h), use_face(uses, t));
    }
    groups
}

// Each face's label after the faces of every twin pair joined.
pub fn boundaries(uses: &[Use], twins: &[u32], labels: &mut [u32])
    requires { length labels.old ≤ 256 }
    ensures { labels.new ≡ boundaries_of uses.now twins.now (length labels.old) }
{
    let alone = groups::new(labels.len());
    let joined = join_pairs(alone, uses, twins, uses.len());
    groups::labels_of(joined, labels);
}

// MERGED GROUPS

// Whether a surface answer joins, as the table has it for stored senses that are equal or different; refused where normals
// vanish and where it is undecided. The place of a refusal is the question's kind.
#[tactic(auto, unfolding(rules::specs::Merge::joins_faces, rules::specs::Kinds::number_of))]
fn joins_faces(v: SurfaceAnswer, equal: bool, table: Table) -> Result<bool, Refusal>
    ensures { result ≡ joins_faces table equal v }
{
    let kind = Kind::Surface;
    match v {
        SurfaceAnswer::Different => Ok(false),
        SurfaceAnswer::Agreeing => Ok(table.agreeing.entry(equal)),
        SurfaceAnswer::Opposed => Ok(table.opposed.entry(equal)),
        SurfaceAnswer::Vanishing => Err(Fault::NormalsVanish.at(kind.number())),
        SurfaceAnswer::Undecided => Err(Fault::AnswerUndecided.at(kind.number())),
    }
}

// The stored senses of faces a and b are equal.
#[tactic(auto, using(rules::proofs::SenseLaws::same_tested))]
fn equal_senses(job: &IndexedJob<'_>, a: usize, b: usize) -> bool
    requires { length job.now.faces ≤ 256 }
    ensures { result ≡ same_sense (stored_sense (face_at job.now.faces a)) (stored_sense (face_at job.now.faces b)) }
{
    let sense = job.face(a).stored_sense();
    let other = job.face(b).stored_sense();
    sense == other
}

// The groups after the surface answer v about faces a and b. Gives whether it joined separate groups.
#[tactic(auto, unfolding(rules::specs::Groups::join_groups))]
fn join_by(
    job: &IndexedJob<'_>,
    labels: &mut [u32],
    a: usize,
    b: usize,
    v: SurfaceAnswer,
    table: Table,
) -> Result<bool, Refusal>
    requires { (length job.now.faces ≤ 256) × Ordered labels.old }
    ensures { (g : Grouping) → Stands labels.old g.groups → MergedTo result labels.new g.joins (answered_step table job.now.faces a b v g) }
{
    let joins = joins_faces(v, equal_senses(job, a, b), table)?;
    Ok(joins && join_in(labels, a, b))
}

// The surface question of use h, unless it is the higher of its pair or both are on one selected face. Gives whether its
// answer joined separate groups.
#[tactic(auto, unfolding(rules::specs::Merge::merge_step, rules::specs::Merge::surface_step, rules::specs::Questions::on_record))]
fn merge_use(
    job: &IndexedJob<'_>,
    uses: &[Use],
    twins: &[u32],
    labels: &mut [u32],
    h: usize,
    table: Table,
) -> Result<bool, Refusal>
    requires { (length job.now.faces ≤ 256) × (h < 4294967296) × Ordered labels.old }
    ensures { (g : Grouping) → Stands labels.old g.groups
        → MergedTo result labels.new g.joins (merge_step table job.now.answers job.now.faces uses.now twins.now h g) }
{
    let t = get(twins, h);
    if t <= h {
        return Ok(false);
    }
    let a = use_face(uses, h);
    let b = use_face(uses, t);
    if a == b {
        return Ok(false);
    }
    let v = ask::ask_surface(job, h as u32)?;
    join_by(job, labels, a, b, v, table)
}

// The surface questions of the uses in order. Each face's label in the end, and how many joins of separate groups there were.
// A caller that has labels of its own uses this, and `merge_faces` all others.
#[tactic(auto, using(crate::specs::MergingLaws::merging_start, crate::specs::MergingLaws::stands_lowest))]
pub fn merge_groups(
    job: &IndexedJob<'_>,
    uses: &[Use],
    twins: &[u32],
    labels: &mut [u32],
    table: Table,
) -> Result<usize, Refusal>
    requires { (length labels.old ≡ length job.now.faces) × (length labels.old ≤ 256) × (length uses.now ≤ 2048) }
    ensures equals { (result and_then λ joins. Ok (record { groups = labels.new; joins = joins }))
        ≡ merged_groups table job.now.answers job.now.faces uses.now twins.now }
    ensures lowest { IfOk result (λ _. Lowest labels.new) }
{
    groups::alone(labels);
    let mut joins = 0;
    // by number: a use's question and its twin are found by its number, and its face only after them
    for h in 0..uses.len() {
        joins += usize::from(merge_use(job, uses, twins, labels, h, table)?);
    }
    groups::settle(labels);
    Ok(joins)
}

// REMOVED USES

// Use h is removed: its face and its twin's have one group.
fn is_removed(uses: &[Use], twins: &[u32], groups: &[u32], h: usize) -> bool
    ensures { result ≡ removes uses.now twins.now groups.now h }
{
    let t = get(twins, h);
    let a = get(groups, use_face(uses, h));
    let b = get(groups, use_face(uses, t));
    a == b
}

// Each use: whether it is removed. Gives how many are.
#[tactic(auto, using(crate::specs::Removing::flags_are, crate::specs::Removing::set_flags))]
pub fn remove(uses: &[Use], twins: &[u32], groups: &[u32], removed: &mut [bool]) -> usize
    requires { length removed.old ≡ length uses.now }
    ensures { (removed.new ≡ removed_uses uses.now twins.now groups.now) × (result ≡ length (keep (λ gone. gone) removed.new)) }
{
    for (h, flag) in removed.iter_mut().enumerate() {
        *flag = is_removed(uses, twins, groups, h);
    }
    removed.iter().filter(|gone| **gone).count()
}

// MERGED FACES BY NUMBER

// The lowest member of each merged face, and each selected face's merged face.
#[tactic(auto, using(crate::specs::Numbering::own_more, crate::specs::Numbering::other_more, crate::specs::Numbering::all_numbered), unfolding(lists::specs::Lists::from, lists::specs::Lists::keep))]
pub fn number(groups: &[u32], members: &mut Filled<u32, MOST_FACES>, numbers: &mut [u32])
    requires { Lowest groups.now × (members.old.entries ≡ []) × (length numbers.old ≡ length groups.now) × (length groups.now ≤ 256) }
    ensures { (members.new.entries ≡ lowest_members groups.now) × (numbers.new ≡ group_numbers groups.now) }
{
    for (f, group) in groups.iter().enumerate() {
        let g = *group as usize;
        if g == f {
            put(numbers, f, members.len());
            members.push(f as u32);
        } else {
            let k = get(numbers, g);
            put(numbers, f, k);
        }
    }
}
