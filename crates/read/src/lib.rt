// Reading: the uses by face, loop and traversal, after any reversal by the selected sense.

#![tactic(auto)]

ghost use Rattle.std.specs.Prelude.{◌≡◌, ◌+◌, ◌<◌, ◌≤◌, length};
ghost use Rattle.rules.specs.Read.{traversed, loop_uses, uses_of};
ghost use Rattle.read.specs.Places.{place_of};

use fields::place_after;
use loaded::{Items, Loaded};
use rules::{MOST_USES, Sense, Use};

// The item, of n, at place i of a loop as its face is selected.
fn place(selected: Sense, n: usize, i: usize) -> usize
    requires { i < n }
    ensures { (result ≡ place_of selected n i) × (result < n) }
{
    match selected {
        Sense::Same => i,
        Sense::Reversed => n - 1 - i,
    }
}

// The uses of a loop with some items, numbered from `first`.
fn read_loop(uses: &mut [Use], first: usize, items: &Items<'_>, face: u32, selected: Sense)
    requires { (length uses.old ≡ length items.now) × (first + length items.now ≤ 2048) }
    ensures { uses.new ≡ loop_uses face first first (traversed selected items.now) }
{
    let n = items.len();
    for (i, u) in uses.iter_mut().enumerate() {
        let item = items.at(place(selected, n, i));
        *u = Use {
            edge: item.edge,
            face,
            sense: item.sense * selected,
            next: place_after(first, first + n, first + i) as u32,
        };
    }
}

// The uses of all loops.
pub fn read(job: &Loaded<'_>, uses: &mut [Use])
    requires { length uses.old ≡ length (uses_of job.now) }
    ensures { uses.new ≡ uses_of job.now }
{
    // So each use's number fits the 32 bits in which another leads to it.
    prove!(job.uses() <= MOST_USES);
    let mut h = 0;
    // by number: a loop's parts are read where they stand in the job
    for l in 0..job.loops() {
        let items = job.items(l);
        let face = job.loop_face(l);
        let selected = job.face(face as usize).selected;
        let end = h + items.len();
        read_loop(&mut uses[h..end], h, &items, face, selected);
        h = end;
    }
}
