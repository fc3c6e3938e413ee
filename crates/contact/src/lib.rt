// Contact tests, for any labelling of the selected faces: by boundary, whose faults are `PairsInBoundary` and
// `FansInBoundary`; by lump, whose faults are `PairsInLump` and `FansInLump`; and of fans with no labels at all, whose fault
// is `ManyFans`.

#![tactic(auto)]

ghost use Rattle.std.specs.Prelude.{◌≡◌, ◌+◌, ◌%◌, ◌≤◌, ◌<◌, length, get_or};
ghost use Rattle.lists.specs.Lists.{repeats, some};
ghost use Rattle.rules.specs.Pair.{uses_of_edge};
ghost use Rattle.rules.specs.Contact.{is_lower_use, pair_labels, edge_touches, edges_clear, points_clear};
ghost use Rattle.fields.specs.Chains.{chain, next_in, Falling};
ghost use Rattle.contact.specs.Clear.{LowLabels};
ghost use Rattle.contact.specs.Stamps.{Stale, meets, stamped_by};
ghost use Rattle.contact.specs.Buckets.{stands_with, Bucketed, is_lower, lowered};

use edge_uses::EdgeUses;
use fields::{Chain, get, put};
use rules::{FEW, Fault, MOST_FACES, MOST_USES, Refusal, Use};
use uses::use_face;

// EDGES

// Pairs of uses by edge: the uses on the chains of their edges, of which a job has so many at most, the twin of each use, and
// a label for each face, for which the table of stamps has a place.
#[derive(Drop)]
pub struct LabelledPairs<'a> {
    pub linked: &'a EdgeUses<'a>,
    pub twins: &'a [u32],
    pub labels: &'a [u32],
    ghost low: { LowLabels labels.now },
    ghost few: { linked.now.edges ≤ 1024 },
}

// Use h is the lower of its pair.
fn is_lower_use(twins: &[u32], h: usize) -> bool
    ensures { result ≡ is_lower_use twins.now h }
{
    h < get(twins, h)
}

// Use h is the lower of its pair, and its label was met before at edge e. `stamps` has e + 1 at each label met.
#[tactic(auto, unfolding(crate::specs::Stamps::meets, crate::specs::Stamps::stamped_by))]
fn meet(pairs: &LabelledPairs<'_>, stamps: &mut [u32], e: usize, h: usize) -> bool
    requires { e < pairs.now.linked.now.edges }
    ensures { (result ≡ meets pairs.now.linked.now.uses pairs.now.twins.now pairs.now.labels.now stamps.old e h)
        × (stamps.new ≡ stamped_by pairs.now.linked.now.uses pairs.now.twins.now pairs.now.labels.now stamps.old e h) }
{
    if !is_lower_use(pairs.twins, h) {
        return false;
    }
    let l = get(pairs.labels, use_face(pairs.linked.uses(), h));
    let stamp = get(stamps, l);
    put(stamps, l, e + 1);
    stamp == e + 1
}

// Two pairs of edge e have one label.
fn pairs_meet(pairs: &LabelledPairs<'_>, stamps: &mut [u32; MOST_FACES], e: usize) -> bool
    requires { (e < pairs.now.linked.now.edges) × Stale stamps.old e }
    ensures { (result ≡ repeats (pair_labels pairs.now.linked.now.uses pairs.now.twins.now pairs.now.labels.now (uses_of_edge pairs.now.linked.now.uses e)))
        × Stale stamps.new (e + 1) }
{
    // no `any`: the stamps would have to be written from its closure
    for h in pairs.linked.of(e) {
        if meet(pairs, stamps, e, h) {
            return true;
        }
    }
    false
}

// Edge e has more than two uses, and two of its pairs have one label.
#[tactic(auto, using(crate::specs::StampLaws::stale_on), unfolding(rules::specs::Contact::edge_touches))]
fn edge_touches(pairs: &LabelledPairs<'_>, stamps: &mut [u32; MOST_FACES], e: usize) -> bool
    requires { (e < pairs.now.linked.now.edges) × Stale stamps.old e }
    ensures { (result ≡ edge_touches pairs.now.linked.now.uses pairs.now.twins.now pairs.now.labels.now e) × Stale stamps.new (e + 1) }
{
    let n = pairs.linked.count(e);
    if n <= 2 {
        return false;
    }
    pairs_meet(pairs, stamps, e)
}

// Pairs: the lowest edge with more than two uses of which two pairs have one label.
#[tactic(auto, using(crate::specs::ClearLaws::none_done))]
pub fn edges_clear(fault: Fault, pairs: &LabelledPairs<'_>) -> Result<(), Refusal>
    ensures { result ≡ edges_clear fault pairs.now.linked.now.uses pairs.now.twins.now pairs.now.labels.now pairs.now.linked.now.edges }
{
    let mut stamps = [0u32; MOST_FACES];
    // by number: of an edge only its number is looked at, and a `find` would have to write the stamps from its closure
    for e in 0..pairs.linked.edges() {
        if edge_touches(pairs, &mut stamps, e) {
            return Err(fault.at(e));
        }
    }
    Ok(())
}

// POINTS

// Fans, each named by one of its uses, with the uses, the point where each use starts, and a label for each face.
#[derive(Clone, Copy)]
pub struct LabelledFans<'a> {
    pub uses: &'a [Use],
    pub starts: &'a [u32],
    pub labels: &'a [u32],
    pub names: &'a [u32],
}

// Fan g stands at point p and has label l.
#[tactic(auto, unfolding(crate::specs::Buckets::stands_with))]
fn stands_with(fans: &LabelledFans<'_>, p: usize, l: usize, g: usize) -> bool
    ensures { result ≡ stands_with fans.now.uses.now fans.now.starts.now fans.now.labels.now p l g }
{
    p == get(fans.starts, g) && l == get(fans.labels, use_face(fans.uses, g))
}

// Fans on chains by their points: the head of each chain, and the entry after each fan. An entry is a fan's place in `names`
// plus one, and 0 ends a chain. There is a chain, and along each the places fall.
#[derive(Drop)]
struct Buckets<const HEADS: usize, const FANS: usize> {
    heads: [u32; HEADS],
    nexts: [u32; FANS],
    ghost chains: { 0 < HEADS },
    ghost falling: { Falling (next_in nexts) },
}

// One of the fans on the chain of point p stands there and has label l.
fn one_stands<const HEADS: usize, const FANS: usize>(
    fans: &LabelledFans<'_>,
    buckets: &Buckets<HEADS, FANS>,
    p: usize,
    l: usize,
) -> bool
    ensures { result ≡ some (λ k. stands_with fans.now.uses.now fans.now.starts.now fans.now.labels.now p l (get_or fans.now.names.now k 0))
        (chain (next_in buckets.now.nexts) (get_or buckets.now.heads (p % HEADS) 0)) }
{
    let entry = get(&buckets.heads, p % HEADS);
    Chain::new(&buckets.nexts, entry).any(|k| stands_with(fans, p, l, get(fans.names, k)))
}

// Point p is lower than the lowest point so far.
fn is_lower(p: usize, lowest: Option<usize>) -> bool
    ensures { result ≡ is_lower p lowest }
{
    lowest.is_none_or(|q| p < q)
}

// The lowest point so far, or the point of the fan at place k where that is lower and the fan touches an earlier one.
fn lower<const HEADS: usize, const FANS: usize>(
    fans: &LabelledFans<'_>,
    buckets: &Buckets<HEADS, FANS>,
    k: usize,
    lowest: Option<usize>,
) -> Option<usize>
    requires { (k < length fans.now.names.now) × Bucketed HEADS fans.now.starts.now fans.now.names.now buckets.now.heads buckets.now.nexts k }
    ensures { result ≡ lowered fans.now.uses.now fans.now.starts.now fans.now.labels.now fans.now.names.now k lowest }
{
    let f = get(fans.names, k);
    let p = get(fans.starts, f);
    if !is_lower(p, lowest) {
        return lowest;
    }
    let l = get(fans.labels, use_face(fans.uses, f));
    if one_stands(fans, buckets, p, l) {
        return Some(p);
    }
    lowest
}

// The fan at place k on the chain of its point.
fn enter<const HEADS: usize, const FANS: usize>(
    fans: &LabelledFans<'_>,
    buckets: &mut Buckets<HEADS, FANS>,
    k: usize,
)
    requires { (k < FANS) × (k < 2048) × Bucketed HEADS fans.now.starts.now fans.now.names.now buckets.old.heads buckets.old.nexts k }
    ensures { Bucketed HEADS fans.now.starts.now fans.now.names.now buckets.new.heads buckets.new.nexts (k + 1) }
{
    let p = get(fans.starts, get(fans.names, k));
    let b = p % HEADS;
    let entry = get(&buckets.heads, b);
    put(&mut buckets.nexts, k, entry);
    put(&mut buckets.heads, b, k + 1);
}

// Fans: the lowest point at which two fans have one label, by `HEADS` chains of up to `FANS` fans.
#[tactic(auto, using(crate::specs::ContactLaws::lowest_more, crate::specs::ContactLaws::lowest_found, crate::specs::ContactLaws::lowest_nowhere))]
fn points_in<const HEADS: usize, const FANS: usize>(
    fault: Fault,
    fans: &LabelledFans<'_>,
) -> Result<(), Refusal>
    requires { (0 < HEADS) × (HEADS ≤ FANS) × (length fans.now.names.now ≤ FANS) × (FANS ≤ 2048) }
    ensures { result ≡ points_clear fault fans.now.uses.now fans.now.starts.now fans.now.labels.now fans.now.names.now }
{
    // a copy of its own: what is stored in the chains cannot be a part of it, so that it is not read anew for each fan
    let own = *fans;
    let mut buckets = Buckets {
        heads: [0u32; HEADS],
        nexts: [0u32; FANS],
    };
    let mut lowest = None;
    // by number: the chains have places in `names`, and a turn looks at earlier ones
    for k in 0..own.names.len() {
        lowest = lower(&own, &buckets, k, lowest);
        enter(&own, &mut buckets, k);
    }
    if let Some(place) = lowest {
        return Err(fault.at(place));
    }
    Ok(())
}

// In the tables that the fans need: clearing those for 2,048 fans costs more than all else of a small part. These fans
// stand at up to 1,024 points, on 512 chains, so that two points share one: a head for every point would make sewing's
// stack deeper.
pub fn points_clear(fault: Fault, fans: &LabelledFans<'_>) -> Result<(), Refusal>
    requires { length fans.now.names.now ≤ 2048 }
    ensures { result ≡ points_clear fault fans.now.uses.now fans.now.starts.now fans.now.labels.now fans.now.names.now }
{
    if fans.names.len() <= FEW {
        return points_in::<FEW, FEW>(fault, fans);
    }
    points_in::<512, MOST_USES>(fault, fans)
}
