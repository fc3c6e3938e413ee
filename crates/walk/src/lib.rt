// Walks: the successor and the passed count of each use, and the loops.

#![tactic(auto)]

ghost use Rattle.std.specs.Prelude.{◌≡◌, ◌+◌, ◌*◌, ◌<◌, ◌≤◌, false, length, take};
ghost use Rattle.lists.specs.Lists.{sum_of};
ghost use Rattle.rules.specs.Walk.{pass as pass_of, successors as successors_of, passed_counts, successor as successor_at, circuit, circuit_uses, circuits, loops_of};
ghost use Rattle.walk.specs.Walks.{Met, Succeeds, Closes, Round, loops_in, Following, Walking, unvisited};

mod steps;

use fields::{Span, entry, get, is_set, put, put_entry};
use rules::{MOST_USES, UNSET, Use};
pub use steps::{Rounds, Steps};
use uses::use_next;

// The use that passing over meets, or the unset mark, and how many uses it passed over.
// No `Option`: the mark goes into the tables as it is, so the new form is no plainer.
#[derive(Clone, Copy)]
pub struct Passed {
    pub at: usize,
    pub passed: usize,
}

// From a use on: while it is removed, on to the old successor of its twin, looking at most as often as there are uses.
fn pass(uses: &[Use], twins: &[u32], removed: &[bool], from: usize) -> Passed
    requires { from < 4294967296 }
    ensures { Met (length uses.now) (pass_of uses.now twins.now removed.now (length uses.now) from 0) result.at result.passed }
{
    let mut h = from;
    // by number: k is how many uses were passed over, of at most so many
    for k in 0..uses.len() {
        if !is_set(removed, h) {
            return Passed { at: h, passed: k };
        }
        let t = get(twins, h);
        h = use_next(uses, t);
    }
    Passed {
        at: UNSET as usize,
        passed: 0,
    }
}

// The successor and the passed count of a use; a removed use has none.
#[tactic(auto, unfolding(rules::specs::Walk::successor_of, rules::specs::Walk::passed_of))]
fn passing(uses: &[Use], twins: &[u32], removed: &[bool], h: usize) -> Passed
    ensures { Succeeds uses.now twins.now removed.now h result.at result.passed }
{
    if is_set(removed, h) {
        return Passed {
            at: UNSET as usize,
            passed: 0,
        };
    }
    let from = use_next(uses, h);
    pass(uses, twins, removed, from)
}

// The successors and the passed counts of all uses. Gives the passed counts' sum.
pub fn successors(
    uses: &[Use],
    twins: &[u32],
    removed: &[bool],
    succ: &mut [u32],
    passed: &mut [u32],
) -> usize
    requires { (length uses.now ≤ 2048) × (length succ.old ≡ length uses.now) × (length passed.old ≡ length uses.now) }
    ensures { (succ.new ≡ successors_of uses.now twins.now removed.now) × (passed.new ≡ passed_counts uses.now twins.now removed.now) × (result ≡ sum_of (λ k. k) passed.new) }
{
    let mut total = 0;
    // by number: a `for` over a zip of the two tables that a turn fills has no table in its invariant (tried)
    for h in 0..uses.len() {
        let p = passing(uses, twins, removed, h);
        put(succ, h, p.at);
        put(passed, h, p.passed);
        total += p.passed;
    }
    total
}

// The successor of a use, from the table; the unset mark past its end.
pub fn successor(succ: &[u32], h: usize) -> usize
    ensures { (result ≡ successor_at succ.now h) × (result < 4294967296) }
{
    entry(succ, h, UNSET) as usize
}

// One loop: the uses from `start` on until the successor is the start, written to `ways` from `at` on and marked as visited.
// Gives the place after the last.
fn walk_loop(succ: &[u32], start: usize, visited: &mut [bool], ways: &mut [u32], at: usize) -> usize
    requires { Closes (circuit succ.now (length succ.now) start start) × (start < 4294967296) × (at ≤ 2048) × (length succ.now ≤ 2048) }
    ensures { Round (circuit_uses (circuit succ.now (length succ.now) start start)) visited.old ways.old at visited.new ways.new result }
{
    let end = at + succ.len();
    let mut h = start;
    // by number: p is where the next use goes, and one more is what is given
    for p in at..end {
        put(ways, p, h);
        put_entry(visited, h, true);
        h = successor(succ, h);
        if h == start {
            return p + 1;
        }
    }
    end
}

// How many loops there are so far, and where the next one's uses go.
#[derive(Clone, Copy)]
struct Reached {
    count: usize,
    at: usize,
}

// The loop that starts at use h, if that is kept and in none so far. The tables are lent side by side: `ways` and `stretches`
// are the caller's, and a turn writes each at a place of its own while it looks at `visited`.
fn walk_from(
    steps: &Steps<'_>,
    visited: &mut [bool],
    ways: &mut [u32],
    stretches: &mut [Span],
    h: usize,
    so: Reached,
) -> Reached
    requires { (h < length steps.now.succ.now) × Walking steps.now.removed.now steps.now.succ.now h visited.old ways.old stretches.old so.count so.at }
    ensures { Walking steps.now.removed.now steps.now.succ.now (h + 1) visited.new ways.new stretches.new result.count result.at }
{
    if is_set(steps.removed, h) || is_set(visited, h) {
        return so;
    }
    let end = walk_loop(steps.succ, h, visited, ways, so.at);
    put_entry(
        stretches,
        so.count,
        Span {
            start: so.at as u32,
            end: end as u32,
        },
    );
    Reached {
        count: so.count + 1,
        at: end,
    }
}

// The loops, which start at ascending kept uses that are in none so far; `visited` is unset at first.
fn walk_all(
    steps: &Steps<'_>,
    visited: &mut [bool],
    ways: &mut [u32],
    stretches: &mut [Span],
) -> usize
    requires unset { visited.old ≡ unvisited (length steps.now.succ.now) }
    requires room { (length ways.old ≡ length steps.now.succ.now) × (length stretches.old ≡ length steps.now.succ.now) }
    ensures { (loops_in ways.new (take result stretches.new) ≡ loops_of (circuits steps.now.removed.now steps.now.succ.now))
        × (result ≤ length steps.now.succ.now) × Following ways.new (take result stretches.new) }
{
    // a copy of its own: what is stored in the tables cannot be a part of it, so that it is not read anew for each use
    let own = *steps;
    let mut so = Reached { count: 0, at: 0 };
    // by number: a turn reads and writes the tables at other uses than h
    for h in 0..own.succ.len() {
        so = walk_from(&own, visited, ways, stretches, h, so);
    }
    so.count
}

// The loops, their uses one after the other in `ways`; loop k in stretch k. Gives how many there are.
pub fn loops(steps: &Steps<'_>, ways: &mut [u32], stretches: &mut [Span]) -> usize
    requires { (length ways.old ≡ length steps.now.succ.now) × (length stretches.old ≡ length steps.now.succ.now) }
    ensures { (loops_in ways.new (take result stretches.new) ≡ loops_of (circuits steps.now.removed.now steps.now.succ.now))
        × (result ≤ length steps.now.succ.now) × Following ways.new (take result stretches.new) }
{
    let n = steps.succ.len();
    let mut visited = [false; MOST_USES];
    walk_all(steps, &mut visited[..n], ways, stretches)
}
