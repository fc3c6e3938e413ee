// The selected faces, merged: by table what the stages after merging read of them.

ghost use Rattle.std.specs.Prelude.{◌≡◌, ◌≤◌, length, IfOk};
ghost use Rattle.rules.specs.Outcome.{◌>>=◌ as ◌and_then◌};
ghost use Rattle.rules.specs.Merge.{merged_groups};
ghost use Rattle.merge_faces.specs.FaceTables.{TablesOf};

use fields::Filled;
use loaded::IndexedJob;
use rules::{MOST_FACES, Refusal, Table, Use};
use std::marker::Model;

// The first `count` entries of three tables are those of the selected faces; `members` has those of the merged faces.
#[derive(Clone, Copy)]
pub struct Faces {
    count: usize,
    joins: usize,
    boundaries: [u32; MOST_FACES],
    groups: [u32; MOST_FACES],
    numbers: [u32; MOST_FACES],
    members: Filled<u32, MOST_FACES>,
}

impl Model for Faces {
    ghost use Rattle.std.specs.Prelude.{◌≡◌, ◌≤◌, ◌++◌, length, take, drop};
    ghost use Rattle.std.proofs.Common.{arith, take-append-drop, length-take-le};
    ghost use Rattle.merge_faces.specs.FaceTables.{FaceTables};

    ghost Value = { FaceTables };

    ghost view = { λ f. record {
      boundaries = take f.count f.boundaries;
      groups = take f.count f.groups;
      numbers = take f.count f.numbers;
      members = f.members.entries;
      joins = f.joins;
      rest = record {
        boundaries = drop f.count f.boundaries;
        groups = drop f.count f.groups;
        numbers = drop f.count f.numbers;
        members = f.members.rest;
      };
    } };

    ghost invariant = { λ f. (f.count ≤ 256) × (length f.boundaries ≡ 256) };

    ghost inverse = { λ v. record {
      count = length v.boundaries;
      joins = v.joins;
      boundaries = v.boundaries ++ v.rest.boundaries;
      groups = v.groups ++ v.rest.groups;
      numbers = v.numbers ++ v.rest.numbers;
      members = record { entries = v.members; rest = v.rest.members };
    } };

    ghost inverse_ok = { λ f h i. record {
      count = length-take-le f.count f.boundaries (omega (arith, h.0, h.1)) i;
      joins = f.joins;
      boundaries = take-append-drop f.count f.boundaries i;
      groups = take-append-drop f.count f.groups i;
      numbers = take-append-drop f.count f.numbers i;
      members = f.members;
    } };
}

impl Faces {
    // Each selected face's boundary, by its lowest face.
    pub fn boundaries(&self) -> &[u32]
        ensures { (result.now ≡ self.now.boundaries) × (length result.now ≤ 256) }
    {
        &self.boundaries[..self.count]
    }

    // Each selected face's merged group, by its lowest face.
    pub fn groups(&self) -> &[u32]
        ensures { (result.now ≡ self.now.groups) × (length result.now ≤ 256) }
    {
        &self.groups[..self.count]
    }

    // The number of each selected face's merged face.
    pub fn numbers(&self) -> &[u32]
        ensures { (result.now ≡ self.now.numbers) × (length result.now ≤ 256) }
    {
        &self.numbers[..self.count]
    }

    // The lowest face of each merged face.
    pub fn members(&self) -> &[u32]
        ensures { (result.now ≡ self.now.members) × (length result.now ≤ 256) }
    {
        self.members.as_slice()
    }

    // How many joins of separate groups made the merged faces.
    pub fn joins(&self) -> usize
        ensures { result ≡ self.now.joins }
    {
        self.joins
    }
}

// The faces merged by the answers to the surface questions, as the table has it, with the boundaries, numbers and lowest
// members that belong to their groups.
pub fn merge_faces(
    job: &IndexedJob<'_>,
    uses: &[Use],
    twins: &[u32],
    table: Table,
) -> Result<Faces, Refusal>
    requires { (length job.now.faces ≤ 256) × (length uses.now ≤ 2048) }
    ensures merges { (result and_then λ m. Ok (record { groups = m.groups; joins = m.joins }))
        ≡ merged_groups table job.now.answers job.now.faces uses.now twins.now }
    ensures tables { IfOk result (TablesOf uses.now twins.now (length job.now.faces)) }
{
    let count = job.faces();
    let mut groups = [0u32; MOST_FACES];
    let joins = crate::merge_groups(job, uses, twins, &mut groups[..count], table)?;
    let mut boundaries = [0u32; MOST_FACES];
    let mut numbers = [0u32; MOST_FACES];
    let mut members = Filled::new(0);
    crate::boundaries(uses, twins, &mut boundaries[..count]);
    crate::number(&groups[..count], &mut members, &mut numbers[..count]);
    Ok(Faces {
        count,
        joins,
        boundaries,
        groups,
        numbers,
        members,
    })
}
