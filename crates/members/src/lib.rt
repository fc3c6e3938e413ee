// The members of each group in a chain, by which a group is gone through without the others.

#![tactic(auto)]

ghost use Rattle.std.specs.Prelude.{◌≡◌, ◌≤◌, length};
ghost use Rattle.rules.specs.Groups.{Lowest, members_of};
ghost use Rattle.members.specs.Group.{Chained, Leading};

use fields::{get, put};
use rules::MOST_FACES;
use std::marker::Model;

// Groups by lowest member, and for each number the next of its group; for the last of a group how many numbers there are.
#[derive(Drop)]
pub struct Members<'a> {
    groups: &'a [u32],
    next: &'a [u32],
}

impl<'a> Model for Members<'a> {
    ghost use Rattle.std.specs.Prelude.{List, ℕ};
    ghost use Rattle.members.specs.Group.{Chained};

    ghost Value = { List ℕ };

    ghost view = { λ t. t.groups.now };

    ghost invariant = { λ t. Chained t.groups.now t.next.now };
}

// The numbers of one group from a member of it on.
#[derive(Drop)]
pub struct MembersOf<'a> {
    groups: &'a [u32],
    next: &'a [u32],
    at: usize,
}

impl<'a> Model for MembersOf<'a> {
    ghost use Rattle.std.specs.Prelude.{List, ℕ, ◌≡◌, ◌<◌, length};
    ghost use Rattle.members.specs.Chain.{rest_of, Leads};

    ghost Value = { List ℕ };

    ghost view = { λ t. rest_of t.groups.now t.at };

    ghost invariant = { λ t. (length t.next.now ≡ length t.groups.now) × ((k : ℕ) → k < length t.groups.now → Leads t.groups.now t.next.now k) };
}

impl<'a> Members<'a> {
    // The groups, chained in a table with an entry for each number. `first` has the first number that is chained with each
    // label, or how many numbers there are, which stands for none of them.
    #[tactic(auto, using(crate::specs::Chain::chaining_start, crate::specs::Group::chained_all))]
    pub fn new(groups: &'a [u32], next: &'a mut [u32]) -> Members<'a>
        requires { (length groups.now ≤ 256) × (length next.old ≡ length groups.now) × Lowest groups.now }
        ensures { result ≡ groups.now }
    {
        let mut first = [groups.len() as u32; MOST_FACES];
        for (i, group) in groups.iter().enumerate().rev() {
            let label = *group as usize;
            let later = get(&first, label);
            put(next, i, later);
            put(&mut first, label, i);
        }
        Members::chained(groups, next)
    }

    // The groups, and a table in which they are chained.
    pub fn chained(groups: &'a [u32], next: &'a [u32]) -> Members<'a>
        requires { Chained groups.now next.now }
        ensures { result ≡ groups.now }
    {
        Members { groups, next }
    }

    // The members of the group with label m, ascending: from the lowest, which is the label, along the chain.
    pub fn of(&self, m: usize) -> MembersOf<'a>
        requires { Leading self.now m }
        ensures { (result ≡ members_of self.now m) × (length (members_of self.now m) ≤ 256) }
    {
        MembersOf {
            groups: self.groups,
            next: self.next,
            at: m,
        }
    }

    // How many they are.
    pub fn count(&self, m: usize) -> usize
        requires { Leading self.now m }
        ensures { (result ≡ length (members_of self.now m)) × (result ≤ 256) }
    {
        self.of(m).count()
    }
}

impl<'a> Iterator for MembersOf<'a> {
    ghost use Rattle.std.specs.Iterator.{YieldsFirst, item_count};

    type Item = usize;

    ghost next_gives = { YieldsFirst (λ numbers. numbers) };

    ghost remaining = { item_count (λ numbers. numbers) };

    #[inline(always)]
    #[tactic(auto, using(crate::specs::Chain::members_end))]
    fn next(&mut self) -> Option<usize> {
        let i = self.at;
        self.at = *self.next.get(i)? as usize;
        Some(i)
    }
}
