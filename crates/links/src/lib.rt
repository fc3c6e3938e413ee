// Loops as linked slots: each slot holds an item and leads to the next slot of its loop, so that a join rewrites two slots
// however long the loops are. A loop's slots never leave its own stretch of the item list and of the links, and a join is
// lent that stretch.

#![tactic(auto)]

ghost use Rattle.std.specs.Prelude.{◌≡◌, ◌+◌, ◌-◌, ◌≤◌, ◌<◌, ◌++◌, [], drop, length, get_or};
ghost use Rattle.edges.specs.Table.{Laid};
ghost use Rattle.fields.specs.Spans.{span_at};
ghost use Rattle.links.specs.Tables.{links_of, IsLoop, own_end, follow, codes_at, Turned, fused_at, Fusable};
ghost use Rattle.links.specs.JoinLinks.{in_code, Joinable, Joined};
ghost use Rattle.links.specs.Lay.{laid_out, laid_by};
ghost use Rattle.links.specs.Link.{Linkable, Linking, LinkedLoops};

use edges::{edge_at, item_number};
use fields::{NO_SPAN, Span, get, place_after, put, put_entry, span_at};
use rules::{EdgeData, Sense};
use std::marker::Model;

// The item list while edges are joined and the slot after each slot; where each loop starts, the loop of each slot, the slot
// of each item, and the stretch of each loop in the list that the loops were laid out in. There may be fewer loops than slots.
#[derive(Drop)]
pub struct Links<const SLOTS: usize, const CODES: usize> {
    list: [u32; SLOTS],
    nexts: [u32; SLOTS],
    heads: [u32; SLOTS],
    owners: [u32; SLOTS],
    spots: [u32; CODES],
    stretches: [Span; SLOTS],
    loops: usize,
}

impl<const SLOTS: usize, const CODES: usize> Model for Links<SLOTS, CODES> {
    ghost use Rattle.std.specs.Prelude.{◌≤◌, take};
    ghost use Rattle.links.specs.Tables.{LinkTables};

    ghost Value = { LinkTables };

    ghost view = { λ t. record {
      codes = t.list;
      nexts = t.nexts;
      heads = t.heads;
      owners = t.owners;
      spots = t.spots;
      stretches = take t.loops t.stretches;
    } };

    ghost invariant = { λ t. t.loops ≤ SLOTS };
}

// LINKING

// The first stretches of a table become those of a list.
fn copy_front(own: &mut [Span], stretches: &[Span])
    requires { length stretches.now ≤ length own.old }
    ensures { own.new ≡ stretches.now ++ drop (length stretches.now) own.old }
{
    own[..stretches.len()].copy_from_slice(stretches);
}

// A JOIN

// Where loop k's own stretch of a list of that size ends: where the next loop starts, or at the list's end.
#[tactic(auto, unfolding(crate::specs::Tables::own_end))]
fn own_end(stretches: &[Span], size: usize, k: usize) -> usize
    requires { k < 4294967296 }
    ensures { result ≡ own_end stretches.now size k }
{
    stretches
        .get(k + 1)
        .map_or(size, |next| next.start as usize)
}

// One loop, of which its own stretch of the item list and of the links, from `start` on, and its head are lent: the item in slot p and the
// next one turn to the front, and the item x takes their place.
fn turn_and_replace(
    part: &mut [u32],
    nexts: &mut [u32],
    head: &mut u32,
    start: usize,
    p: usize,
    x: usize,
)
    requires { (start ≤ p) × (start ≤ get_or nexts.old (p - start) 0) × (p < 4294967296) × (x < 4294967296) }
    ensures { Turned part.old nexts.old start p x part.new nexts.new head.new }
{
    let q = get(nexts, p - start);
    let after = get(nexts, q - start);
    put(part, p - start, x);
    put(nexts, p - start, after);
    *head = p as u32;
}

// The item of edge a that ends at corner v.
#[tactic(auto, unfolding(crate::specs::JoinLinks::in_code))]
fn in_code(rows: &[EdgeData], v: usize, a: usize) -> usize
    requires { a < 2147483648 }
    ensures { result ≡ in_code rows.now v a }
{
    let sense = if edge_at(rows, a).start as usize == v {
        Sense::Reversed
    } else {
        Sense::Same
    };
    item_number(a, sense)
}

// The slot of the item y takes the item x for its own and the next slot's: only its loop's own stretch is rewritten.
fn fuse(
    list: &mut [u32],
    nexts: &mut [u32],
    heads: &mut [u32],
    owners: &[u32],
    spots: &mut [u32],
    stretches: &mut [Span],
    y: usize,
    x: usize,
)
    requires { Fusable (links_of list.old nexts.old heads.old owners.now spots.old stretches.old) y × (x < 4294967296) }
    ensures { links_of list.new nexts.new heads.new owners.now spots.new stretches.new ≡ fused_at (links_of list.old nexts.old heads.old owners.now spots.old stretches.old) y x }
{
    let p = get(spots, y);
    let k = get(owners, p);
    let stretch = span_at(stretches, k);
    let start = stretch.start as usize;
    let bound = own_end(stretches, list.len(), k);
    turn_and_replace(
        &mut list[start..bound],
        &mut nexts[start..bound],
        &mut heads[k],
        start,
        p,
        x,
    );
    put(spots, x, p);
    put_entry(
        stretches,
        k,
        Span {
            end: stretch.end - 1,
            ..stretch
        },
    );
}

// The join of edges a and b at corner v: where an item of either ends there, it and the next become the new edge's. The
// tables are lent, of any length that fits the others. Always inlined: joins follow one another, and so many tables cost
// time to hand on at each.
#[inline(always)]
pub fn join_places(
    rows: &[EdgeData],
    list: &mut [u32],
    nexts: &mut [u32],
    heads: &mut [u32],
    owners: &[u32],
    spots: &mut [u32],
    stretches: &mut [Span],
    v: usize,
    a: usize,
    b: usize,
    new: usize,
)
    requires { Joinable rows.now v a b new (links_of list.old nexts.old heads.old owners.now spots.old stretches.old) }
    ensures { Joined rows.now v a b (links_of list.old nexts.old heads.old owners.now spots.old stretches.old) (links_of list.new nexts.new heads.new owners.now spots.new stretches.new) }
{
    let x = in_code(rows, v, a);
    let y = in_code(rows, v, b);
    let same = item_number(new, Sense::Same);
    let reversed = item_number(new, Sense::Reversed);
    fuse(list, nexts, heads, owners, spots, stretches, x, same);
    fuse(list, nexts, heads, owners, spots, stretches, y, reversed);
}

// LAYING OUT

// A loop's own stretch of the item list is rewritten: its items from the head on.
fn lay_loop(list: &[u32], nexts: &[u32], head: usize, part: &mut [u32])
    ensures { part.new ≡ codes_at list.now (follow nexts.now head (length part.old)) }
{
    let mut p = head;
    for x in part.iter_mut() {
        *x = get(list, p) as u32;
        p = get(nexts, p);
    }
}

// Every loop is laid out in its stretch, turned so that its head comes first. The tables are lent, of any length.
pub fn lay_loops(list: &[u32], nexts: &[u32], heads: &[u32], stretches: &[Span], items: &mut [u32])
    requires { Laid stretches.now items.old }
    ensures { items.new ≡ laid_out list.now nexts.now heads.now stretches.now items.old }
{
    for (k, stretch) in stretches.iter().enumerate() {
        let part = &mut items[stretch.range()];
        lay_loop(list, nexts, get(heads, k), part);
    }
}

impl<const SLOTS: usize, const CODES: usize> Links<SLOTS, CODES> {
    // Tables without a loop. They are made where they stay, since they are large, and linked there.
    #[inline(always)]
    pub fn new() -> Links<SLOTS, CODES>
        ensures { result.stretches ≡ [] }
    {
        Links {
            list: [0; SLOTS],
            nexts: [0; SLOTS],
            heads: [0; SLOTS],
            owners: [0; SLOTS],
            spots: [0; CODES],
            stretches: [NO_SPAN; SLOTS],
            loops: 0,
        }
    }

    // Every loop linked, and starting where it was laid out.
    pub fn link(&mut self, items: &[u32], stretches: &[Span])
        requires { Linkable items.now stretches.now SLOTS CODES × (length stretches.now < 4294967296) }
        ensures { LinkedLoops items.now self.new × (self.new.stretches ≡ stretches.now) × (length self.new.spots ≡ CODES) }
    {
        copy_front(&mut self.stretches, stretches);
        self.loops = stretches.len();
        for (k, stretch) in stretches.iter().enumerate() {
            self.link_loop(items, k, stretch);
        }
    }

    // The stretches of the loops, each as long as the loop is now.
    pub fn stretches(&self) -> &[Span]
        ensures { result.now ≡ self.now.stretches }
    {
        &self.stretches[..self.loops]
    }

    // The slots of loop k are linked, and it starts where it was laid out.
    fn link_loop(&mut self, items: &[u32], k: usize, stretch: &Span)
        requires { Linking items.now self.old.stretches SLOTS CODES self.old k 0 × IsLoop self.old.stretches k × (k < 4294967296)
            × (stretch.now ≡ span_at self.old.stretches k) }
        ensures { Linking items.now self.old.stretches SLOTS CODES self.new (k + 1) 0 }
    {
        let start = stretch.start as usize;
        let end = stretch.end as usize;
        // by number: a slot is a place of four tables, and the one after it is a number too
        for s in start..end {
            let x = get(items, s);
            let q = place_after(start, end, s);
            put(&mut self.list, s, x);
            put(&mut self.nexts, s, q);
            put(&mut self.owners, s, k);
            put(&mut self.spots, x, s);
        }
        put(&mut self.heads, k, start);
    }

    // A JOIN

    // The join of edges a and b at corner v: where an item of either ends there, it and the next become the new edge's.
    pub fn join_places(&mut self, rows: &[EdgeData], v: usize, a: usize, b: usize, new: usize)
        requires { Joinable rows.now v a b new self.old }
        ensures { Joined rows.now v a b self.old self.new }
    {
        join_places(
            rows,
            &mut self.list,
            &mut self.nexts,
            &mut self.heads,
            &self.owners,
            &mut self.spots,
            &mut self.stretches[..self.loops],
            v,
            a,
            b,
            new,
        );
    }

    // LAYING OUT

    // Every loop is laid out in its stretch, turned so that its head comes first.
    pub fn lay_loops(&self, items: &mut [u32])
        requires { Laid self.now.stretches items.old }
        ensures { items.new ≡ laid_by self.now items.old }
    {
        lay_loops(
            &self.list,
            &self.nexts,
            &self.heads,
            &self.stretches[..self.loops],
            items,
        );
    }
}
