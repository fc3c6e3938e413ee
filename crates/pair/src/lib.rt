// Pairing: the twin of every use, edges ascending.

#![tactic(auto)]

ghost use Rattle.std.specs.Prelude.{◌≡◌, ◌%◌, ◌<◌, ◌≤◌, eqb, length, take, replicate, position, IfOk};
ghost use Rattle.lists.specs.Lists.{has, all};
ghost use Rattle.rules.specs.Job.{unset};
ghost use Rattle.rules.specs.Outcome.{◌>>=◌ as ◌and_then◌, need};
ghost use Rattle.rules.specs.declared.Fault.TheVariants.{OddUses};
ghost use Rattle.rules.specs.Pair.{uses_of_edge, twinned, pair_two, take_predecessor, take_predecessors, last_of, pair_round, pair_even, pair_edge, pair as pair_all};

use edge_uses::EdgeUses;
use fields::put_entry;
use loaded::{IndexedJob, Order};
use rules::{Fault, Profile, Refusal, Sense, UNSET, Use};
use uses::use_at;

// a and b become twins.
fn twin(twins: &mut [u32], a: u32, b: u32)
    ensures { twins.new ≡ twinned twins.old a b }
{
    put_entry(twins, a as usize, b);
    put_entry(twins, b as usize, a);
}

// Two uses of an edge become twins; their senses must differ.
#[tactic(auto, unfolding(rules::specs::Pair::pair_two, rules::specs::Outcome::need))]
fn pair_two(uses: &[Use], twins: &mut [u32], e: usize, a: u32, b: u32) -> Result<(), Refusal>
    ensures { (result and_then λ _. Ok twins.new) ≡ pair_two uses.now e a b twins.old }
{
    if use_at(uses, a as usize).sense == use_at(uses, b as usize).sense {
        return Err(Fault::EqualSenses.at(e));
    }
    twin(twins, a, b);
    Ok(())
}

// An order has a use.
fn has(order: &Order<'_>, h: usize) -> bool
    ensures { result ≡ has h order.now }
{
    order.iter().any(|x| h == x as usize)
}

// An order has each use of an edge.
fn has_all(order: &Order<'_>, linked: &EdgeUses<'_>, e: usize) -> bool
    requires { e < linked.now.edges }
    ensures { result ≡ all (λ h. has h order.now) (uses_of_edge linked.now.uses e) }
{
    linked.of(e).all(|h| has(order, h))
}

// A Same use takes its predecessor p, which must not be Same too.
#[tactic(auto, unfolding(rules::specs::Pair::take_predecessor, rules::specs::Outcome::need))]
fn take_predecessor(
    uses: &[Use],
    twins: &mut [u32],
    e: usize,
    p: u32,
    h: u32,
) -> Result<(), Refusal>
    ensures { (result and_then λ _. Ok twins.new) ≡ take_predecessor uses.now e p h twins.old }
{
    if use_at(uses, h as usize).sense == Sense::Reversed {
        return Ok(());
    }
    if use_at(uses, p as usize).sense == Sense::Same {
        return Err(Fault::SamePredecessor.at(e));
    }
    twin(twins, h, p);
    Ok(())
}

// Round an edge, in the order of its uses.
#[tactic(auto, using(crate::specs::Last::last_at), unfolding(rules::specs::Pair::take_predecessors))]
fn take_predecessors(
    order: &Order<'_>,
    uses: &[Use],
    twins: &mut [u32],
    e: usize,
) -> Result<(), Refusal>
    requires { 0 < length order.now }
    ensures { (result and_then λ _. Ok twins.new) ≡ take_predecessors uses.now e (last_of 0 order.now) order.now twins.old }
{
    let mut p = order.at(order.len() - 1);
    for h in order.iter() {
        take_predecessor(uses, twins, e, p, h)?;
        p = h;
    }
    Ok(())
}

// What is paired: the uses on the chains of their edges, one for each edge of the job, and the job, which has the orders
// round its edges, each asked for by a number of 32 bits; and whether an edge may have more than two uses.
#[derive(Drop)]
struct Pairing<'a> {
    job: &'a IndexedJob<'a>,
    linked: &'a EdgeUses<'a>,
    profile: Profile,
    ghost chained: { linked.now.edges ≡ length job.now.edges },
    ghost few: { length job.now.edges ≤ 1024 },
}

// Four or more uses, `n`, in the order round the edge, which must have each of them once.
#[tactic(auto, unfolding(rules::specs::Pair::pair_round, rules::specs::Pair::each_once, rules::specs::Outcome::need))]
fn pair_round(pairing: &Pairing<'_>, twins: &mut [u32], e: usize, n: usize) -> Result<(), Refusal>
    requires edge { e < pairing.now.linked.now.edges }
    requires uses { n ≡ length (uses_of_edge pairing.now.linked.now.uses e) }
    requires some { 0 < n }
    ensures { let us = pairing.now.linked.now.uses in
        (result and_then λ _. Ok twins.new) ≡ pair_round pairing.now.job.now.answers us e (uses_of_edge us e) twins.old }
{
    let order = pairing.job.radial(e)?;
    if order.len() != n || !has_all(&order, pairing.linked, e) {
        return Err(Fault::NotRound.at(e));
    }
    take_predecessors(&order, pairing.linked.uses(), twins, e)
}

// Neither no use nor two: an odd number is refused, and any other for a print shop.
#[tactic(auto, unfolding(rules::specs::Outcome::need))]
fn pair_more(pairing: &Pairing<'_>, twins: &mut [u32], e: usize) -> Result<(), Refusal>
    requires { (e < pairing.now.linked.now.edges) × (0 < length (uses_of_edge pairing.now.linked.now.uses e)) }
    ensures { let hs = uses_of_edge pairing.now.linked.now.uses e in
        (result and_then λ _. Ok twins.new) ≡ need (eqb (length hs % 2) 0) OddUses e
        (pair_even pairing.now.profile pairing.now.job.now.answers pairing.now.linked.now.uses e hs twins.old) }
{
    let n = pairing.linked.count(e);
    if n % 2 == 1 {
        return Err(Fault::OddUses.at(e));
    }
    match pairing.profile {
        Profile::AnyContact => pair_round(pairing, twins, e, n),
        Profile::PrintShop => Err(Fault::ManyUses.at(e)),
    }
}

// One edge, by its uses, of which the chain has the last first.
#[tactic(auto, using(crate::specs::EdgeLaws::by_count))]
fn pair_edge(pairing: &Pairing<'_>, twins: &mut [u32], e: usize) -> Result<(), Refusal>
    requires { e < pairing.now.linked.now.edges }
    ensures { (result and_then λ _. Ok twins.new) ≡ pair_edge pairing.now.profile pairing.now.job.now.answers pairing.now.linked.now.uses e twins.old }
{
    let mut on = pairing.linked.of(e);
    match (on.next(), on.next(), on.next()) {
        (None, _, _) => Ok(()),
        (Some(b), Some(a), None) => pair_two(pairing.linked.uses(), twins, e, a as u32, b as u32),
        _ => pair_more(pairing, twins, e),
    }
}

// The lowest use without twin.
fn lone(twins: &[u32]) -> Option<usize>
    ensures { result ≡ position (eqb unset) twins.now }
{
    twins.iter().position(|t| *t == UNSET)
}

// All edges, in a table that has no twin yet. The lowest use that is left without one is refused.
#[tactic(auto, using(lists::specs::Runs::left_at, lists::specs::Runs::left_none, crate::specs::Complete::complete_is), unfolding(rules::specs::Outcome::throughout, rules::specs::Pair::pair))]
fn pair_edges(pairing: &Pairing<'_>, twins: &mut [u32]) -> Result<(), Refusal>
    requires { twins.old ≡ replicate (length pairing.now.linked.now.uses) unset }
    ensures { (result and_then λ _. Ok twins.new) ≡ pair_all pairing.now.profile pairing.now.job.now.answers pairing.now.linked.now.uses (length pairing.now.job.now.edges) }
{
    // by number: an edge is its number, and has no record to go along
    for e in 0..pairing.job.edges() {
        pair_edge(pairing, twins, e)?;
    }
    if let Some(h) = lone(twins) {
        return Err(Fault::NoTwin.at(h));
    }
    Ok(())
}

// The twins of a job's uses, at the start of a table of N entries, all unset at first. A part of few uses takes a small
// table, which is cleared and handed on sooner.
pub fn pair<const N: usize>(
    job: &IndexedJob<'_>,
    linked: &EdgeUses<'_>,
    profile: Profile,
) -> Result<[u32; N], Refusal>
    requires { (length linked.now.uses ≤ N) × (linked.now.edges ≡ length job.now.edges) × (length job.now.edges ≤ 1024) }
    ensures { ((result and_then λ twins. Ok (take (length linked.now.uses) twins)) ≡ pair_all profile job.now.answers linked.now.uses (length job.now.edges))
        × IfOk result (λ twins. length twins ≡ N) }
{
    let mut twins = [UNSET; N];
    let pairing = Pairing {
        job,
        linked,
        profile,
    };
    pair_edges(&pairing, &mut twins[..linked.uses().len()])?;
    Ok(twins)
}
