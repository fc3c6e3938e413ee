// Fans: the kept uses with ends round each corner, each fan named by its lowest use; and the points where uses start.

#![tactic(auto)]

ghost use Rattle.std.specs.Prelude.{◌≡◌, List, ℕ, ◌+◌, ◌≤◌, ◌<◌, length, take};
ghost use Rattle.rules.specs.Fans.{kept_with_ends, fans as fans_of, names_fan, fan_names, start_points};

use fields::{Filled, get, is_set};
use groups::join_in;
use loaded::Loaded;
use rules::Use;
use uses::use_at;

// The uses of a job, and which of them are removed.
#[derive(Clone, Copy)]
pub struct KeptUses<'a> {
    pub job: &'a Loaded<'a>,
    pub uses: &'a [Use],
    pub removed: &'a [bool],
    ghost few: { length uses.now ≤ 2048 },
}

// Use h is kept and has ends.
pub fn kept_with_ends(kept: &KeptUses<'_>, h: usize) -> bool
    ensures { result ≡ kept_with_ends kept.now.job.now.edges kept.now.uses.now kept.now.removed.now h }
{
    !is_set(kept.removed, h) && !kept.job.is_ring(use_at(kept.uses, h))
}

// FANS

// Each use's fan: new successor and twin of each kept use with ends join.
pub fn fans(kept: &KeptUses<'_>, twins: &[u32], succ: &[u32], labels: &mut [u32])
    requires { (length succ.now ≡ length kept.now.uses.now) × (length labels.old ≡ length kept.now.uses.now) }
    ensures { labels.new ≡ fans_of kept.now.job.now.edges kept.now.uses.now twins.now kept.now.removed.now succ.now }
{
    // a copy of its own: what is stored in the table cannot be a part of it, so that it is not read anew for each use
    let own = *kept;
    groups::alone(labels);
    for (h, next) in succ.iter().enumerate() {
        if kept_with_ends(&own, h) {
            let t = get(twins, h);
            join_in(labels, *next as usize, t);
        }
    }
    groups::settle(labels);
}

// NAMES OF FANS

// Use h names a fan.
fn names_fan(kept: &KeptUses<'_>, fans: &[u32], h: usize) -> bool
    ensures { result ≡ names_fan kept.now.job.now.edges kept.now.uses.now kept.now.removed.now fans.now h }
{
    get(fans, h) == h && kept_with_ends(kept, h)
}

// The fans by name, ascending.
pub fn fan_names<const USES: usize>(kept: &KeptUses<'_>, fans: &[u32]) -> Filled<u32, USES>
    requires { length kept.now.uses.now ≤ USES }
    ensures { result.entries ≡ fan_names kept.now.job.now.edges kept.now.uses.now kept.now.removed.now fans.now }
{
    // a copy of its own, as above
    let own = *kept;
    let mut names = Filled::new(0);
    // by number: a use is looked up in tables of which none need be as long as the others
    for h in 0..own.uses.len() {
        if names_fan(&own, fans, h) {
            names.push(h as u32);
        }
    }
    names
}

// POINTS

// The point where each use starts.
pub fn start_points(job: &Loaded<'_>, uses: &[Use], starts: &mut [u32])
    requires { length starts.old ≡ length uses.now }
    ensures { starts.new ≡ start_points job.now.points job.now.edges uses.now }
{
    for (h, start) in starts.iter_mut().enumerate() {
        *start = job.start_point(use_at(uses, h));
    }
}
