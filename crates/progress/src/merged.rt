// A job between merging and the walks.

ghost use Rattle.std.specs.Prelude.{◌≡◌, length};

use edge_uses::EdgeUses;
use loaded::Loaded;
use merge_faces::Faces;
use rules::{KeptVertexLoop, Rules};
use std::marker::Model;

// A job once its faces are merged by these rules: its uses on the chains of their edges, one for each edge of the job, the
// twin of each use, and the merged faces. Contracts see the merging of the definitions, with the uses that it removes.
#[derive(Drop)]
pub struct Merged<'a> {
    pub rules: Rules,
    pub job: &'a Loaded<'a>,
    pub linked: &'a EdgeUses<'a>,
    pub twins: &'a [u32],
    pub faces: &'a Faces,
    ghost chained: { linked.now.edges ≡ length job.now.edges },
}

impl<'a> Model for Merged<'a> {
    ghost use Rattle.progress.specs.Known.{Merging, Grouped, merged_by};

    ghost Value = { Merging };

    ghost view = { λ m. record { rules = m.rules; job = m.job.now; uses = m.linked.now.uses; twins = m.twins.now; merged = merged_by m.linked.now.uses m.twins.now m.faces.now } };

    ghost invariant = { λ m. Grouped m.rules m.job.now m.linked.now.uses m.twins.now m.faces.now };
}

// And once its vertex loops are kept. Contracts see the walks that these make.
#[derive(Drop)]
pub struct Kept<'a> {
    pub rules: Rules,
    pub job: &'a Loaded<'a>,
    pub linked: &'a EdgeUses<'a>,
    pub twins: &'a [u32],
    pub faces: &'a Faces,
    pub vertex_loops: &'a [KeptVertexLoop],
    ghost chained: { linked.now.edges ≡ length job.now.edges },
}

impl<'a> Model for Kept<'a> {
    ghost use Rattle.rules.specs.Sew.{walks_of};
    ghost use Rattle.progress.specs.Known.{Walking, Kept as KeptBy, merged_by};

    ghost Value = { Walking };

    ghost view = { λ k. record { rules = k.rules; job = k.job.now; walked = walks_of k.linked.now.uses k.twins.now (merged_by k.linked.now.uses k.twins.now k.faces.now) k.vertex_loops.now } };

    ghost invariant = { λ k. KeptBy k.rules k.job.now k.linked.now.uses k.twins.now k.faces.now k.vertex_loops.now };
}
