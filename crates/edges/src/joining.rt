// The edges and the loops of the result, before joining and after it, at one place.

ghost use Rattle.std.specs.Prelude.{◌≡◌, ◌<◌, ◌≤◌, map, length};
ghost use Rattle.edges.specs.Table.{item_in, faces_of, face_loop_at};

use fields::{Span, span_at};
use rules::EdgeData;
use std::marker::Model;

// The edges, the items of all loops, the stretch of items and the merged face of each loop, and how many joins and rings
// made them so. Contracts see the edges and loops of the definitions.
#[derive(Drop)]
pub struct Joining<'a> {
    pub edges: &'a [EdgeData],
    pub items: &'a [u32],
    pub stretches: &'a [Span],
    pub faces: &'a [u32],
    pub joins: usize,
    pub rings: usize,
}

impl<'a> Model for Joining<'a> {
    ghost use Rattle.rules.specs.Join.{Joining as RulesJoining};
    ghost use Rattle.edges.specs.Table.{face_loops_in, Tabled};

    ghost Value = { RulesJoining };

    ghost view = { λ j. record { edges = j.edges.now; loops = face_loops_in j.items.now j.stretches.now j.faces.now; joins = j.joins; rings = j.rings } };

    ghost invariant = { λ j. Tabled j.edges.now j.items.now j.stretches.now j.faces.now };
}

impl<'a> Joining<'a> {
    // The merged face of each loop.
    #[tactic(auto, using(crate::specs::LoopLaws::faces_are))]
    #[inline(always)]
    pub fn loop_faces(&self) -> &'a [u32]
        ensures { (result.now ≡ faces_of self.now.loops) × (length result.now ≤ 2048) }
    {
        self.faces
    }

    // The items of loop k.
    #[tactic(auto, using(crate::specs::LoopLaws::loops_length, crate::specs::LoopLaws::loop_is))]
    #[inline(always)]
    pub fn loop_items(&self, k: usize) -> &'a [u32]
        requires { k < length self.now.loops }
        ensures { (map item_in result.now ≡ (face_loop_at self.now.loops k).items) × (length result.now ≤ 2048) }
    {
        &self.items[span_at(self.stretches, k).range()]
    }
}
