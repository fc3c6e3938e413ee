// Groups of numbers by a table of parents: following parents ends at the lowest member. A number past the end is in the
// group of 0.

#![tactic(auto)]

ghost use Rattle.std.specs.Prelude.{◌≡◌, List, map, ℕ, ◌-◌, ◌≤◌, length};
ghost use Rattle.lists.specs.Lists.{below};
ghost use Rattle.rules.specs.Groups.{alone as alone_of, label_of};
ghost use Rattle.groups.specs.Parents.{Ordered, Stands, Rooted, JoinedIn, SeparateIn, padded};

use fields::{get, put};
use rules::MOST_FACES;
use std::marker::Model;

// Each number is alone.
pub fn alone(parents: &mut [u32])
    requires { length parents.old ≤ 4294967296 }
    ensures { (parents.new ≡ alone_of (length parents.old)) × Stands parents.new (alone_of (length parents.old)) }
{
    for (i, parent) in parents.iter_mut().enumerate() {
        *parent = i as u32;
    }
}

// The label of a number, with each path on the way halved.
pub fn root_in(parents: &mut [u32], start: usize) -> usize
    requires { Ordered parents.old }
    ensures { Rooted parents.old parents.new start result }
{
    let mut i = start;
    let mut up = get(parents, i);
    while up != i {
        let far = get(parents, up);
        put(parents, i, far);
        i = far;
        up = get(parents, i);
    }
    up
}

// The groups of a and b become one. Answers whether they were separate.
pub fn join_in(parents: &mut [u32], a: usize, b: usize) -> bool
    requires { Ordered parents.old }
    ensures { JoinedIn parents.old parents.new a b × SeparateIn parents.old a b result }
{
    let ra = root_in(parents, a);
    let rb = root_in(parents, b);
    if ra < rb {
        put(parents, rb, ra);
        return true;
    }
    if rb < ra {
        put(parents, ra, rb);
        return true;
    }
    false
}

// Each number's parent becomes its label. By place: it writes entries while it reads others.
pub fn settle(parents: &mut [u32])
    ensures { (ls : List ℕ) → Stands parents.old ls → parents.new ≡ ls }
{
    for i in 0..parents.len() {
        let up = get(parents, i);
        let label = get(parents, up);
        put(parents, i, label);
    }
}

// GROUPS LENT WITH THEIR PARENTS INSIDE

// Groups of at most 256 numbers. No parent lies above its number.
#[derive(Clone, Copy)]
pub struct Groups {
    parents: [u32; MOST_FACES],
}

impl Model for Groups {
    ghost use Rattle.std.specs.Prelude.{List, ℕ};
    ghost use Rattle.groups.specs.Parents.{Ordered};

    ghost Value = { List ℕ };

    ghost view = { λ g. g.parents };

    ghost invariant = { λ g. Ordered g.parents };

    ghost inverse = { λ parents. record { parents = parents } };
}

// Each of n numbers alone; past them every number is in the group of 0.
pub fn new(n: usize) -> Groups
    requires { n ≤ 256 }
    ensures { Stands result (padded (256 - n) (alone_of n)) }
{
    let mut parents = [0u32; MOST_FACES];
    alone(&mut parents[..n]);
    Groups { parents }
}

// The label of a number.
pub fn root(g: &mut Groups, i: usize) -> usize
    ensures { Rooted g.old g.new i result }
{
    root_in(&mut g.parents, i)
}

// The groups of a and b become one. Answers whether they were separate.
pub fn join(g: &mut Groups, a: usize, b: usize) -> bool
    ensures { JoinedIn g.old g.new a b × SeparateIn g.old a b result }
{
    join_in(&mut g.parents, a, b)
}

// Each number's label.
pub fn labels_of(mut g: Groups, labels: &mut [u32])
    ensures { (ls : List ℕ) → Stands g ls → labels.new ≡ map (label_of ls) (below (length labels.old)) }
{
    for (i, label) in labels.iter_mut().enumerate() {
        *label = root(&mut g, i) as u32;
    }
}
