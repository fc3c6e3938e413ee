// The edges of the result as a table of records, and the items of its loops as numbers: twice the edge, and one more where
// Reversed, which is an item's place in the table of the items' slots.

#![tactic(auto)]

ghost use Rattle.std.specs.Prelude.{◌≡◌, ℕ, ◌<◌, ◌≤◌, min, max, [], ◌∷◌, map, length, get_or};
ghost use Rattle.rules.specs.Join.{edge_data_at};
ghost use Rattle.lists.specs.Lists.{below};
ghost use Rattle.rules.specs.Edges.{lower_kept, face_pair, fan_or_none, own_start, own_end, edge_data};
ghost use Rattle.edges.specs.Table.{item_in, item_number, item_code, loop_at, loop_face};
ghost use Rattle.edges.specs.Made.{OneEdge, Made};

mod joining;

use fields::{Span, entry, get, is_set, put, put_entry, span_at};
pub use joining::Joining;
use loaded::Loaded;
use rules::{Edge, EdgeData, Item, Sense, UNSET, Use};
use uses::{use_at, use_face};

// THE TABLE

// What stands for an edge past the last: none, with no ends.
pub const NO_EDGE: EdgeData = EdgeData {
    curve: 0,
    sense: Sense::Same,
    start: UNSET,
    end: UNSET,
    faces: [0, 0],
    active: false,
};

// Edge e.
pub fn edge_at(rows: &[EdgeData], e: usize) -> EdgeData
    ensures { result ≡ edge_data_at rows.now e }
{
    entry(rows, e, NO_EDGE)
}

// THE EDGE OF A KEPT PAIR

// Use h is kept and the lower of its pair.
fn is_lower(twins: &[u32], removed: &[bool], h: usize) -> bool
    ensures { result ≡ lower_kept twins.now removed.now h }
{
    !is_set(removed, h) && h < get(twins, h)
}

// Two numbers as a pair, the lower first.
fn ascending(a: u32, b: u32) -> [u32; 2]
    ensures { result ≡ min a b ∷ max a b ∷ [] }
{
    [a.min(b), a.max(b)]
}

// The merged faces beside use h.
fn faces_beside(uses: &[Use], twins: &[u32], numbers: &[u32], h: usize) -> [u32; 2]
    ensures { result ≡ face_pair uses.now twins.now numbers.now h }
{
    let a = entry(numbers, use_face(uses, h), 0);
    let b = entry(numbers, use_face(uses, get(twins, h)), 0);
    ascending(a, b)
}

// The fan of use h of an edge; none where the edge is a ring.
fn fan_or_none(edge: Edge, fans: &[u32], h: usize) -> u32
    ensures { result ≡ fan_or_none edge fans.now h }
{
    if edge.is_ring() {
        return UNSET;
    }
    entry(fans, h, 0)
}

// Of two ends given along a use, the edge's own start and its own end.
fn own_ends(sense: Sense, here: u32, there: u32) -> (u32, u32)
    ensures { (result.0 ≡ own_start sense here there) × (result.1 ≡ own_end sense here there) }
{
    match sense {
        Sense::Same => (here, there),
        Sense::Reversed => (there, here),
    }
}

// What the edges are made of: the job and its uses; the twin, the successor and the fan of each, and which are removed;
// and the merged face of each selected face.
#[derive(Drop)]
pub struct Sides<'a> {
    pub job: &'a Loaded<'a>,
    pub uses: &'a [Use],
    pub twins: &'a [u32],
    pub removed: &'a [bool],
    pub numbers: &'a [u32],
    pub succ: &'a [u32],
    pub fans: &'a [u32],
}

// The edge of the kept pair with lower use h.
#[tactic(auto, unfolding(rules::specs::Edges::edge_data))]
fn edge_of(s: &Sides<'_>, h: usize) -> EdgeData
    requires { h < length s.now.succ.now }
    ensures { result ≡ edge_data s.now.job.now.edges s.now.uses.now s.now.twins.now s.now.numbers.now s.now.succ.now s.now.fans.now h }
{
    let u = use_at(s.uses, h);
    let job = s.job;
    let edge = job.edge(u.edge as usize);
    let here = fan_or_none(edge, s.fans, h);
    let there = fan_or_none(edge, s.fans, get(s.succ, h));
    let faces = faces_beside(s.uses, s.twins, s.numbers, h);
    let (start, end) = own_ends(u.sense, here, there);
    EdgeData {
        curve: edge.curve,
        sense: edge.sense,
        start,
        end,
        faces,
        active: true,
    }
}

// Where use h is kept and the lower of its pair, the edge of the pair is stored as number `count`, for both uses. Gives
// the number of edges then.
fn add_edge(s: &Sides<'_>, rows: &mut [EdgeData], owns: &mut [u32], h: usize, count: usize) -> usize
    requires { (h < length s.now.succ.now) × (count < 2048) }
    ensures { OneEdge s.now.twins.now s.now.removed.now (edge_data s.now.job.now.edges s.now.uses.now s.now.twins.now s.now.numbers.now s.now.succ.now s.now.fans.now h) h
        count rows.old owns.old rows.new owns.new result }
{
    if is_lower(s.twins, s.removed, h) {
        let x = edge_of(s, h);
        put_entry(rows, count, x);
        put(owns, h, count);
        put(owns, get(s.twins, h), count);
        return count + 1;
    }
    count
}

// The edges, one for each kept pair by ascending lower use, and for each kept use the number of its pair's edge. Gives
// how many edges there are.
pub fn edges(s: &Sides<'_>, rows: &mut [EdgeData], owns: &mut [u32]) -> usize
    requires { (length s.now.twins.now ≤ 2048) × (length s.now.succ.now ≡ length s.now.twins.now) × (length owns.old ≡ length s.now.twins.now) × (length s.now.twins.now ≤ length rows.old) }
    ensures { Made s.now.job.now.edges s.now.uses.now s.now.twins.now s.now.removed.now s.now.numbers.now s.now.succ.now s.now.fans.now owns.old rows.new owns.new result }
{
    let mut count: usize = 0;
    // by number: a use is looked up in all the tables of `Sides`, by itself or by its twin's number
    for h in 0..s.twins.len() {
        count = add_edge(s, rows, owns, h, count);
    }
    count
}

// ITEMS AS NUMBERS

// The number of the item of edge e in a sense.
#[inline(always)]
pub fn item_number(e: usize, sense: Sense) -> usize
    requires { e < 2147483648 }
    ensures { (result ≡ item_number e sense) × (result < 4294967296) }
{
    2 * e + usize::from(sense)
}

// The item with number x.
#[inline(always)]
pub fn item_in(x: u32) -> Item
    ensures { result ≡ item_in x }
{
    Item {
        edge: x / 2,
        sense: Sense::from((x % 2) as usize),
    }
}

// THE LOOPS

// Use h as an item.
#[tactic(auto, unfolding(crate::specs::Table::item_code))]
fn item_of(uses: &[Use], owns: &[u32], h: usize) -> usize
    requires { (k : ℕ) → get_or owns.now k 0 ≤ 2048 }
    ensures { (result ≡ item_code uses.now owns.now h) × (result < 4294967296) }
{
    item_number(get(owns, h), use_at(uses, h).sense)
}

// The uses of the loops become items in their places.
pub fn items(uses: &[Use], owns: &[u32], ways: &mut [u32])
    requires { (k : ℕ) → get_or owns.now k 0 ≤ 2048 }
    ensures { ways.new ≡ map (item_code uses.now owns.now) ways.old }
{
    for way in ways.iter_mut() {
        *way = item_of(uses, owns, *way as usize) as u32;
    }
}

// The first use of a loop; of an empty one, 0.
fn first_use(ways: &[u32], stretch: Span) -> usize
    ensures { result ≡ get_or (loop_at ways.now stretch) 0 0 }
{
    if stretch.start < stretch.end {
        return get(ways, stretch.start as usize);
    }
    0
}

// The merged face of each loop, by its first use. By its number, and not beside its stretch: a loop with none has the
// face of use 0.
pub fn loop_faces(
    uses: &[Use],
    numbers: &[u32],
    ways: &[u32],
    stretches: &[Span],
    faces: &mut [u32],
)
    ensures { faces.new ≡ map (loop_face uses.now numbers.now ways.now stretches.now) (below (length faces.old)) }
{
    for (k, face) in faces.iter_mut().enumerate() {
        let h = first_use(ways, span_at(stretches, k));
        *face = entry(numbers, use_face(uses, h), 0);
    }
}
