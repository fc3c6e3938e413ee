// The uses of each edge as a chain in two tables: the edge's entry in `firsts` is its last use plus one, a use's entry in
// `nexts` is the use of its edge before it plus one; 0 ends a chain.

#![tactic(auto)]

ghost use Rattle.std.specs.Prelude.{◌≡◌, ◌<◌, ◌≤◌, length, replicate, reverse as backwards};
ghost use Rattle.rules.specs.Pair.{uses_of_edge};
ghost use Rattle.edge_uses.specs.Links.{Linked};

use fields::{Chain, get, put};
use rules::Use;
use std::marker::Model;
use uses::use_edge;

// The uses, and those of each edge on its chain, at one place, so that no step is given the chains of other uses.
#[derive(Drop)]
pub struct EdgeUses<'a> {
    uses: &'a [Use],
    firsts: &'a [u32],
    nexts: &'a [u32],
}

impl<'a> Model for EdgeUses<'a> {
    ghost use Rattle.std.specs.Prelude.{◌≤◌, length};
    ghost use Rattle.edge_uses.specs.Links.{ByEdge, Linked};

    ghost Value = { ByEdge };

    ghost view = { λ t. record { uses = t.uses.now; edges = length t.firsts.now } };

    ghost invariant = { λ t. Linked t.uses.now t.firsts.now t.nexts.now × (length t.uses.now ≤ 2048) };
}

// The uses on their chains, in tables where each chain is empty at first.
pub fn link<'a>(uses: &'a [Use], firsts: &'a mut [u32], nexts: &'a mut [u32]) -> EdgeUses<'a>
    requires { (firsts.old ≡ replicate (length firsts.old) 0) × (length nexts.old ≡ length uses.now) × (length nexts.old ≤ 2048) }
    ensures { (result.uses ≡ uses.now) × (result.edges ≡ length firsts.old) }
{
    for (h, next) in nexts.iter_mut().enumerate() {
        let e = use_edge(uses, h);
        *next = get(firsts, e) as u32;
        put(firsts, e, h + 1);
    }
    EdgeUses::new(uses, firsts, nexts)
}

impl<'a> EdgeUses<'a> {
    // The uses on chains that stand in two tables.
    pub fn new(uses: &'a [Use], firsts: &'a [u32], nexts: &'a [u32]) -> EdgeUses<'a>
        requires { Linked uses.now firsts.now nexts.now × (length uses.now ≤ 2048) }
        ensures { (result.uses ≡ uses.now) × (result.edges ≡ length firsts.now) }
    {
        EdgeUses {
            uses,
            firsts,
            nexts,
        }
    }

    pub fn uses(&self) -> &'a [Use]
        ensures { result.now ≡ self.now.uses }
    {
        self.uses
    }

    // How many edges there are.
    pub fn edges(&self) -> usize
        ensures { result ≡ self.now.edges }
    {
        self.firsts.len()
    }

    // The uses of an edge, the last first. Each use's number fits a table of twins.
    pub fn of(&self, e: usize) -> Chain<'a>
        requires { e < self.now.edges }
        ensures { (result ≡ backwards (uses_of_edge self.now.uses e)) × (length self.now.uses ≤ 2048) }
    {
        Chain::new(self.nexts, get(self.firsts, e))
    }

    // How many uses an edge has; none past the edges.
    #[tactic(auto, using(crate::specs::LinkLaws::counts))]
    pub fn count(&self, e: usize) -> usize
        ensures edge { e < self.now.edges → result ≡ length (uses_of_edge self.now.uses e) }
        ensures past { self.now.edges ≤ e → result ≡ 0 }
    {
        if self.edges() <= e {
            return 0;
        }
        self.of(e).count()
    }
}
