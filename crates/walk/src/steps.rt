// What the loops are made of, and the loops.

ghost use Rattle.std.specs.Prelude.{◌≤◌, length};
ghost use Rattle.theorems.specs.Circuits.{Permuted};

use fields::Span;
use std::marker::Model;

// Which uses are removed, and the successor of each. Going on from successor to successor never leaves the kept uses, and
// comes back.
#[derive(Clone, Copy)]
pub struct Steps<'a> {
    pub removed: &'a [bool],
    pub succ: &'a [u32],
    ghost permuted: { Permuted (length succ.now) removed.now succ.now },
    ghost few: { length succ.now ≤ 2048 },
}

// Loops, their uses one after the other in `ways`; loop k in stretch k, and none is empty. Contracts see the uses of each.
#[derive(Drop)]
pub struct Rounds<'a> {
    pub ways: &'a [u32],
    pub stretches: &'a [Span],
}

impl<'a> Model for Rounds<'a> {
    ghost use Rattle.std.specs.Prelude.{ℕ, List, ◌≤◌, length};
    ghost use Rattle.walk.specs.Walks.{Following, loops_in};

    ghost Value = { List (List ℕ) };

    ghost view = { λ r. loops_in r.ways.now r.stretches.now };

    ghost invariant = { λ r. Following r.ways.now r.stretches.now × (length r.stretches.now ≤ 2048) × (length r.ways.now ≤ 2048) };
}
