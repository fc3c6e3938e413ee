// What a body is written from.

ghost use Rattle.std.specs.Prelude.{◌≤◌};
ghost use Rattle.body.specs.Sizes.{Sized};

use edges::Joining;
use rules::{Counts, KeptVertexLoop};
use shells::Shells;

// How many uses, removed uses, uses passed over, joins, rings and face joins there were.
#[derive(Clone, Copy)]
pub struct Totals {
    pub uses: usize,
    pub removed: usize,
    pub passed: usize,
    pub joins: usize,
    pub rings: usize,
    pub merges: usize,
}

// A job's bytes, an index of any length and how many things of each sort there are; and the tables of the stages before the
// body: the merged group of each selected face, the lowest selected face of each merged face, and what was made of them. The
// merged faces are those of the groups, and there are no more faces and vertex loops than a job can have. The shells may be
// of other merged faces.
#[derive(Clone, Copy)]
pub struct Solid<'a> {
    pub totals: Totals,
    pub bytes: &'a [u8],
    pub index: &'a [u32],
    pub counts: Counts,
    pub groups: &'a [u32],
    pub members: &'a [u32],
    pub starts: &'a [u32],
    pub joining: &'a Joining<'a>,
    pub kept: &'a [KeptVertexLoop],
    pub shells: &'a Shells<'a>,
    ghost few_faces: { counts.faces ≤ 256 },
    ghost sized: { Sized groups.now members.now kept.now },
}
