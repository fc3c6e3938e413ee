// What the single stages through the loops write: four-byte fields from the output's start on, or nothing and the refusal
// `NoRoom` with the bytes needed where the output is too short.

#![tactic(auto)]

ghost use Rattle.std.specs.Prelude.{◌≡◌, List, ℕ, ◌+◌, ◌<◌, ◌≤◌, ◌^◌, length};
ghost use mathlib.Core.List.{flat_map};
ghost use Rattle.rules.specs.Fields.{field_bytes};
ghost use Rattle.rules.specs.Shells.{shell_faces};
ghost use Rattle.rules.specs.Stage.{use_fields, kept_fields};
ghost use Rattle.rules.specs.Sew.{fitting, Ends};
ghost use Rattle.fields.specs.Wrote.{Wrote};
ghost use Rattle.stages_out.specs.Rows.{WritesTwice, Staged, walk_rows, pair_rows, round_row, round_rows};

use fields::{get, is_set, put_fields, put_table, put_word};
use merge_faces::Faces;
use rules::{Fault, KeptVertexLoop, Refusal, Use};
use uses::use_face;
use walk::{Rounds, successor};

// The fields of one use; gives the place after them.
fn put_use(out: &mut [u8], at: usize, u: Use) -> usize
    requires { at < 2 ^ 58 }
    ensures { Wrote out.old at (field_bytes (use_fields u)) out.new result }
{
    let (edge, face) = (u.edge as usize, u.face as usize);
    let (sense, next) = (usize::from(u.sense), u.next as usize);
    put_fields(out, at, &[edge, face, sense, next])
}

// The fields of each use; gives the place after them.
fn put_uses(uses: &[Use], out: &mut [u8]) -> usize
    requires { length uses.now ≤ 2048 }
    ensures { Wrote out.old 0 (field_bytes (flat_map use_fields uses.now)) out.new result }
{
    let mut p = 0;
    for u in uses {
        p = put_use(out, p, *u);
    }
    p
}

// What a writer writes from the output's start on, or nothing and the refusal `NoRoom` with the bytes needed where the output is
// too short. The bytes needed are the place after the same bytes written to an output of no bytes, which stores none of them.
pub fn write_fitting<F: FnMut(&mut [u8]) -> usize>(
    out: &mut [u8],
    mut put: F,
) -> Result<usize, Refusal>
    requires { F.IsAlwaysCallable put }
    ensures { (bytes : List ℕ) → WritesTwice F.step put bytes → Ends (fitting (length out.old) bytes) out.old out.new result }
{
    let needed = put(&mut []);
    if out.len() < needed {
        return Err(Fault::NoRoom.at(needed));
    }
    Ok(put(out))
}

// The stage `read`: edge, selected face, sense and old successor of each use.
pub fn write_read(uses: &[Use], out: &mut [u8]) -> Result<usize, Refusal>
    requires { length uses.now ≤ 2048 }
    ensures { Staged (flat_map use_fields uses.now) out.old out.new result }
{
    write_fitting(out, |out| put_uses(uses, out))
}

// The stage `pair`: the twin of each use.
pub fn write_twins(twins: &[u32], out: &mut [u8]) -> Result<usize, Refusal>
    requires { length twins.now ≤ 2048 }
    ensures { Staged twins.now out.old out.new result }
{
    write_fitting(out, |out| put_table(out, 0, twins))
}

// The fields of each kept use; gives the place after them.
fn put_walks(removed: &[bool], succ: &[u32], passed: &[u32], out: &mut [u8]) -> usize
    requires { length removed.now ≤ 2048 }
    ensures { Wrote out.old 0 (field_bytes (walk_rows removed.now succ.now passed.now)) out.new result }
{
    let mut p = 0;
    // by number: nothing says that the other tables are as long as the first
    for h in 0..removed.len() {
        if !is_set(removed, h) {
            p = put_fields(out, p, &[h, successor(succ, h), get(passed, h)]);
        }
    }
    p
}

// The stage `walk`: use, successor and passed count of each kept use.
pub fn write_walk(
    removed: &[bool],
    succ: &[u32],
    passed: &[u32],
    out: &mut [u8],
) -> Result<usize, Refusal>
    requires { length removed.now ≤ 2048 }
    ensures { Staged (walk_rows removed.now succ.now passed.now) out.old out.new result }
{
    write_fitting(out, |out| put_walks(removed, succ, passed, out))
}

// The boundary and the merged group of each selected face; gives the place after them. The second by number, and not over
// `zip`, since nothing says that it is as long as the first.
fn put_pairs(faces: &Faces, out: &mut [u8]) -> usize
    ensures { Wrote out.old 0 (field_bytes (pair_rows faces.now.boundaries faces.now.groups)) out.new result }
{
    let groups = faces.groups();
    let mut p = 0;
    for (f, b) in faces.boundaries().iter().enumerate() {
        p = put_fields(out, p, &[*b as usize, get(groups, f)]);
    }
    p
}

// The stage `merge`: lowest face of the boundary and of the merged group of each selected face.
pub fn write_pairs(faces: &Faces, out: &mut [u8]) -> Result<usize, Refusal>
    ensures { Staged (pair_rows faces.now.boundaries faces.now.groups) out.old out.new result }
{
    write_fitting(out, |out| put_pairs(faces, out))
}

// The merged face and the point of each kept vertex loop; gives the place after them.
fn put_kept(kept: &[KeptVertexLoop], out: &mut [u8]) -> usize
    requires { length kept.now ≤ 2048 }
    ensures { Wrote out.old 0 (field_bytes (flat_map kept_fields kept.now)) out.new result }
{
    let mut p = 0;
    for k in kept {
        p = put_fields(out, p, &[k.face as usize, k.point as usize]);
    }
    p
}

// The stage `vertex-loops`: merged face and point of each kept vertex loop.
pub fn write_kept(kept: &[KeptVertexLoop], out: &mut [u8]) -> Result<usize, Refusal>
    requires { length kept.now ≤ 2048 }
    ensures { Staged (flat_map kept_fields kept.now) out.old out.new result }
{
    write_fitting(out, |out| put_kept(kept, out))
}

// The fields of one loop at a place; gives the place after them.
fn put_loop(uses: &[Use], numbers: &[u32], part: &[u32], out: &mut [u8], at: usize) -> usize
    requires { (at < 2 ^ 58) × (length part.now < 2 ^ 50) }
    ensures { Wrote out.old at (field_bytes (round_row uses.now numbers.now part.now)) out.new result }
{
    let first = get(part, 0);
    let number = get(numbers, use_face(uses, first));
    let p = put_fields(out, at, &[number, part.len()]);
    put_table(out, p, part)
}

// The fields of each loop; gives the place after them.
fn put_loops(uses: &[Use], numbers: &[u32], rounds: &Rounds<'_>, out: &mut [u8]) -> usize
    ensures { Wrote out.old 0 (field_bytes (round_rows uses.now numbers.now rounds.now)) out.new result }
{
    let ways = rounds.ways;
    let mut p = 0;
    for s in rounds.stretches {
        p = put_loop(uses, numbers, &ways[s.range()], out, p);
    }
    p
}

// The stage `loops`: merged face, number of uses and the uses of each loop.
pub fn write_loops(
    uses: &[Use],
    numbers: &[u32],
    rounds: &Rounds<'_>,
    out: &mut [u8],
) -> Result<usize, Refusal>
    ensures { Staged (round_rows uses.now numbers.now rounds.now) out.old out.new result }
{
    write_fitting(out, |out| put_loops(uses, numbers, rounds, out))
}

// MERGED FACES OF A BOUNDARY, for the shells

// Those of the boundary with label b at a place; gives the place after them. `members` has the lowest selected face of each
// merged face, of as many as a job can have.
pub fn put_shell_faces(
    boundaries: &[u32],
    members: &[u32],
    b: usize,
    out: &mut [u8],
    at: usize,
) -> usize
    requires { (length members.now ≤ 256) × (at < 2 ^ 58) }
    ensures { Wrote out.old at (field_bytes (shell_faces boundaries.now members.now b)) out.new result × (result ≤ at + 1024) }
{
    let mut p = at;
    for (f, m) in members.iter().enumerate() {
        if get(boundaries, *m as usize) == b {
            p = put_word(out, p, f);
        }
    }
    p
}

// How many they are.
pub fn count_shell_faces(boundaries: &[u32], members: &[u32], b: usize) -> usize
    requires { length members.now ≤ 256 }
    ensures { (result ≡ length (shell_faces boundaries.now members.now b)) × (result ≤ 256) }
{
    members
        .iter()
        .filter(|m| get(boundaries, **m as usize) == b)
        .count()
}
