// The walks of a job.

ghost use Rattle.std.specs.Prelude.{◌≡◌, ◌≤◌, length};

use edge_uses::EdgeUses;
use fans::KeptUses;
use loaded::Loaded;
use merge_faces::Faces;
use rules::{KeptVertexLoop, Rules, Use};
use std::marker::Model;
use walk::Steps;

// How many uses are removed, and how many were passed over in total.
#[derive(Clone, Copy)]
pub struct Figures {
    pub removed: usize,
    pub passed: usize,
}

// A job through its walks, by these rules: the uses on the chains of their edges and the twin of each, the merged faces, the
// vertex loops kept, which uses are removed, the successor of each use, and the figures. Contracts see the walks of the
// definitions.
#[derive(Drop)]
pub struct Walks<'a> {
    pub rules: Rules,
    pub job: &'a Loaded<'a>,
    pub linked: &'a EdgeUses<'a>,
    pub twins: &'a [u32],
    pub faces: &'a Faces,
    pub kept: &'a [KeptVertexLoop],
    pub removed: &'a [bool],
    pub succ: &'a [u32],
    pub figures: Figures,
    ghost chained: { linked.now.edges ≡ length job.now.edges },
}

impl<'a> Model for Walks<'a> {
    ghost use Rattle.progress.specs.Known.{Walking, Settled, walked_in};

    ghost Value = { Walking };

    ghost view = { λ w. record { rules = w.rules; job = w.job.now; walked = walked_in w.linked.now.uses w.twins.now w.faces.now w.removed.now w.kept.now } };

    ghost invariant = { λ w. Settled w.rules w.job.now w.linked.now.uses w.twins.now w.faces.now w.kept.now w.removed.now w.succ.now w.figures.removed w.figures.passed };
}

impl<'a> Walks<'a> {
    // The uses.
    pub fn uses(&self) -> &'a [Use]
        ensures { (result.now ≡ self.now.walked.uses) × (length result.now ≤ 2048) }
    {
        self.linked.uses()
    }

    // Which uses are removed, and the successor of each.
    pub fn steps(&self) -> Steps<'a>
        ensures { (result.removed.now ≡ self.now.walked.merge.removed) × (result.succ.now ≡ self.now.walked.successors) × (length result.succ.now ≡ length self.now.walked.uses) }
    {
        Steps {
            removed: self.removed,
            succ: self.succ,
        }
    }

    // The uses, and which of them are removed.
    pub fn kept_uses(&self) -> KeptUses<'a>
        ensures { (result.job.now ≡ self.now.job) × (result.uses.now ≡ self.now.walked.uses) × (result.removed.now ≡ self.now.walked.merge.removed) }
    {
        KeptUses {
            job: self.job,
            uses: self.uses(),
            removed: self.removed,
        }
    }
}
