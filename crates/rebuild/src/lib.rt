// The second half of sewing, from the walks to the body. Each function fills one stage's tables, ends where that stage was
// asked for or something is refused, and else hands on what is known then: the fans, the edges and loops, the shells.
// Tables are made in two sizes, for small parts and for all others: clearing tables of the limits' size costs more than all
// else of a small part.

#![tactic(auto)]

ghost use Rattle.std.specs.Prelude.{◌≡◌, ◌≤◌, length};
ghost use Rattle.rules.specs.Contact.{edges_clear};
ghost use Rattle.rules.specs.Sew.{fans_of, Ends};
ghost use Rattle.contact.specs.Clear.{LowLabels};
ghost use Rattle.progress.specs.Chain.{after_loops, after_fans};

mod drawn;
mod fanned;

use contact::LabelledPairs;
use fanned::{Fans, on_fanned};
use fans::{fan_names, start_points};
use fields::Filled;
use progress::Walks;
use rules::{FEW, Fault, MOST_USES, Refusal, Stage};

// CONTACT TESTS

// 30 by boundary, 33 by lump: no two pairs at an edge with more than two uses have the same label.
fn clear_edges(fault: Fault, w: &Walks<'_>, labels: &[u32]) -> Result<(), Refusal>
    requires { LowLabels labels.now }
    ensures { result ≡ edges_clear fault w.now.walked.uses w.now.walked.twins labels.now (length w.now.job.edges) }
{
    let pairs = LabelledPairs {
        linked: w.linked,
        twins: w.twins,
        labels,
    };
    contact::edges_clear(fault, &pairs)
}

// FANS

// The fans in tables for so many uses, then what is built on them.
#[tactic(auto, unfolding(rules::specs::Sew::fans_of, rules::specs::Sew::walks_of))]
fn fans_in_tables<const USES: usize>(
    stage: Option<Stage>,
    w: &Walks<'_>,
    out: &mut [u8],
) -> Result<usize, Refusal>
    requires { (length w.now.walked.uses ≤ USES) × (USES ≤ 2048) }
    ensures { Ends (after_fans w.now.rules stage w.now.job (length out.old) (fans_of w.now.job w.now.walked)) out.old out.new result }
{
    let kept = w.kept_uses();
    let n = kept.uses.len();
    let mut fan_table = [0u32; USES];
    let mut start_table = [0u32; USES];
    let fans = &mut fan_table[..n];
    let starts = &mut start_table[..n];
    fans::fans(&kept, w.twins, w.succ, fans);
    let names: Filled<u32, USES> = fan_names(&kept, fans);
    start_points(kept.job, kept.uses, starts);
    let fanned = Fans {
        walks: w,
        fans,
        names: names.as_slice(),
        starts,
    };
    on_fanned::<USES>(stage, &fanned, out)
}

// The stages from 30 on: the fans, and what follows them.
#[tactic(auto, unfolding(progress::specs::Chain::after_loops, rules::specs::Sew::walks_of))]
pub fn rebuild(stage: Option<Stage>, w: &Walks<'_>, out: &mut [u8]) -> Result<usize, Refusal>
    ensures { Ends (after_loops w.now.rules stage w.now.job (length out.old) w.now.walked) out.old out.new result }
{
    clear_edges(Fault::PairsInBoundary, w, w.faces.boundaries())?;
    if w.uses().len() <= FEW {
        return fans_in_tables::<FEW>(stage, w, out);
    }
    fans_in_tables::<MOST_USES>(stage, w, out)
}
