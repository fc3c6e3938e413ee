// Joining: corners with exactly two active edge ends are taken away, one change at a time.

#![tactic(auto)]

ghost use Rattle.std.specs.Prelude.{◌≡◌, ℕ, ◌+◌, ◌*◌, ◌<◌, ◌≤◌, ◌^◌, List, true, cond, length, get_or, set, take, eqb, Ok, IfOk, EachIndex};
ghost use Rattle.lists.specs.Lists.{◌∈◌, Nodup};
ghost use Rattle.rules.specs.Sense.{reverse};
ghost use Rattle.rules.specs.Outcome.{◌>>=◌ as ◌and_then◌};
ghost use Rattle.rules.specs.Join.{edge_data_at, singular, not_singular, may_join, joined_edge, retired as retired_edge, ring_of, maximal_edges};
ghost use Rattle.edges.specs.Table.{Laid};
ghost use Rattle.links.specs.JoinLinks.{Joinable};
ghost use Rattle.links.specs.Lay.{laid_by};
ghost use Rattle.theorems.specs.Ends.{ends_one};
ghost use Rattle.maximal_edges.specs.Once.{nodup_prop};
ghost use Rattle.maximal_edges.specs.Joined.{state_in, Fitting, Ran, no_corner, corner_at, one_more, count_end, given_way, give_way, Blank, Tabled, Counted};
ghost use Rattle.maximal_edges.specs.Joined.{may_change, change_at, try_corner, StillBut, next_after, after_ring, after_join, Ranked, Swept, JoinedAt};
ghost use Rattle.maximal_edges.specs.Hung.{SoundIn, Hung};

use edges::edge_at;
use fields::{Span, entry, get, put, put_entry};
use links::Links;
use loaded::IndexedJob;
use rules::{EdgeData, FEW, Kind, MOST_USES, Refusal, Sense, UNSET};

// A change at a corner: an edge becomes a ring, or two edges become one.
#[derive(Clone, Copy)]
enum Change {
    Ring {
        corner: usize,
        edge: usize,
    },
    Join {
        corner: usize,
        low: usize,
        high: usize,
    },
}

// How many edges there are, and how many joins and rings made them so.
#[derive(Clone, Copy)]
pub struct Joins {
    pub edges: usize,
    pub joins: usize,
    pub rings: usize,
}

// What does not change in a run: the job, the point of each fan, and the fans, ascending. None stands twice, and each has
// its place in the tables of the run.
#[derive(Clone, Copy)]
struct Run<'a, const SLOTS: usize> {
    job: &'a IndexedJob<'a>,
    points: &'a [u32],
    names: &'a [u32],
    ghost nodup: { Nodup names.now } by { nodup_prop names.now },
    ghost inside: { (v : ℕ) → v ∈ names.now → v < SLOTS },
}

// What is known of a fan: how many active edge ends there are; and where there are exactly two, the lower and the higher
// edge that they are of.
#[derive(Clone, Copy)]
struct Corner {
    ends: u32,
    low: u32,
    high: u32,
}

// A fan at which no end was counted.
const NO_CORNER: Corner = Corner {
    ends: 0,
    low: 0,
    high: 0,
};

// CORNERS

// The active ends of edge e at corner v: 0, 1 or 2.
#[tactic(auto, unfolding(theorems::specs::Ends::ends_one))]
fn ends_of(rows: &[EdgeData], e: usize, v: usize) -> usize
    ensures { (result ≡ ends_one v (edge_data_at rows.now e)) × (result ≤ 2) }
{
    let edge = edge_at(rows, e);
    if edge.active {
        return usize::from(edge.start as usize == v) + usize::from(edge.end as usize == v);
    }
    0
}

// What is known of fan v.
fn corner_at(corners: &[Corner], v: usize) -> Corner
    ensures { result ≡ corner_at corners.now v }
{
    entry(corners, v, NO_CORNER)
}

// One end more at a corner, of edge e, the highest so far.
fn one_more(e: u32, c: Corner) -> Corner
    requires { c.ends < 4294967295 }
    ensures { result ≡ one_more e c }
{
    let low = if c.ends == 0 { e } else { c.low };
    Corner {
        ends: c.ends + 1,
        low,
        high: e,
    }
}

// The same at fan v.
fn count_end(corners: &mut [Corner], v: usize, e: u32)
    requires { (corner_at corners.old v).ends < 4294967295 }
    ensures { corners.new ≡ count_end v e corners.old }
{
    let c = corner_at(corners, v);
    put_entry(corners, v, one_more(e, c));
}

// The active edge ends at each fan; none is counted at first.
#[tactic(auto, using(crate::specs::CountLaws::counted_active, crate::specs::CountLaws::counted_idle, crate::specs::CountLaws::counted_all), unfolding(rules::specs::Join::ends_from))]
fn count_ends(rows: &[EdgeData], corners: &mut [Corner])
    requires { (length rows.now ≤ 2048) × Blank corners.old }
    ensures { Tabled rows.now corners.new }
{
    for (e, edge) in rows.iter().enumerate() {
        if edge.active {
            count_end(corners, edge.start as usize, e as u32);
            count_end(corners, edge.end as usize, e as u32);
        }
    }
}

// QUESTIONS AT A CORNER

// Kind 11 for an edge, at a point.
fn singular(job: &IndexedJob<'_>, e: EdgeData, point: u32) -> Result<bool, Refusal>
    ensures { result ≡ singular job.now.answers e point }
{
    ask::ask_singular(job, e.curve, e.faces[0], e.faces[1], point)
}

// An edge is not singular at a point.
fn not_singular(job: &IndexedJob<'_>, e: EdgeData, point: u32) -> Result<bool, Refusal>
    ensures { result ≡ not_singular job.now.answers e point }
{
    let yes = singular(job, e, point)?;
    Ok(!yes)
}

// Two edges need equal face pairs, then same curve, then not singular for the first.
#[tactic(auto, using(lists::specs::SameLists::pointwise_same), unfolding(rules::specs::Join::may_join, rules::specs::Kinds::number_of))]
fn may_join(job: &IndexedJob<'_>, a: EdgeData, b: EdgeData, point: u32) -> Result<bool, Refusal>
    ensures { result ≡ may_join job.now.answers a b point }
{
    if a.faces != b.faces {
        return Ok(false);
    }
    let same_curve = ask::ask_same(job, Kind::Curves, a.curve, b.curve)?;
    if !same_curve {
        return Ok(false);
    }
    not_singular(job, a, point)
}

// The ring of edge a at corner v, or the join of edges a and b.
fn change_at(v: usize, a: usize, b: usize) -> Change
    ensures { result ≡ change_at v a b }
{
    if a == b {
        return Change::Ring { corner: v, edge: a };
    }
    Change::Join {
        corner: v,
        low: a,
        high: b,
    }
}

// One edge with both ends at a corner, or two edges.
fn may_change(
    job: &IndexedJob<'_>,
    rows: &[EdgeData],
    a: usize,
    b: usize,
    point: u32,
) -> Result<bool, Refusal>
    ensures { result ≡ may_change job.now.answers rows.now a b point }
{
    if a == b {
        return not_singular(job, edge_at(rows, a), point);
    }
    may_join(job, edge_at(rows, a), edge_at(rows, b), point)
}

// Corner v with the active ends of edges a and b.
fn try_corner<const SLOTS: usize>(
    run: &Run<'_, SLOTS>,
    rows: &[EdgeData],
    v: usize,
    a: usize,
    b: usize,
) -> Result<Option<Change>, Refusal>
    ensures { result ≡ try_corner run.now.job.now.answers run.now.points.now rows.now v a b }
{
    let yes = may_change(run.job, rows, a, b, entry(run.points, v, 0))?;
    Ok(yes.then_some(change_at(v, a, b)))
}

// SWEEPS

// Where a sweep begins: the corners before `top` are still, but for the ones at `low` and `high`.
#[derive(Clone, Copy, Default)]
struct Resume {
    low: usize,
    high: usize,
    top: usize,
}

// Where a sweep goes on after position i: at `high` and at `top`, while they are to come, then one by one.
fn next_after(from: Resume, i: usize) -> usize
    requires { i + 1 < 2 ^ 64 }
    ensures { result ≡ next_after from i }
{
    if i < from.high {
        return from.high;
    }
    if i < from.top {
        return from.top;
    }
    i + 1
}

// After a ring at fan v every corner before the next one is still.
fn after_ring(from: Resume, ranks: &[u32], v: usize) -> Resume
    ensures { result ≡ after_ring from (get_or ranks.now v 0) }
{
    let top = next_after(from, get(ranks, v));
    Resume {
        low: top,
        high: top,
        top,
    }
}

// After a join at fan v so is every one but the far ends of the joined edges, which the new edge e has.
fn after_join(from: Resume, ranks: &[u32], v: usize, e: EdgeData) -> Resume
    ensures { result ≡ after_join from (get_or ranks.now v 0) (get_or ranks.now e.start 0) (get_or ranks.now e.end 0) }
{
    let top = next_after(from, get(ranks, v));
    let p = get(ranks, e.start as usize);
    let q = get(ranks, e.end as usize);
    Resume {
        low: top.min(p.min(q)),
        high: top.min(p.max(q)),
        top,
    }
}

// One sweep over the corners, which stops at its first change; it passes over those that are known to be still. The edges
// of a corner are its lower one, then its higher one, until two ends are seen: one edge may have both.
fn sweep<const SLOTS: usize>(
    run: &Run<'_, SLOTS>,
    rows: &[EdgeData],
    corners: &[Corner; SLOTS],
    from: Resume,
) -> Result<Option<Change>, Refusal>
    requires tabled { Tabled rows.now corners.now }
    requires known { StillBut run.now.job.now.answers run.now.points.now run.now.names.now rows.now from }
    ensures { Swept run.now.job.now.answers run.now.points.now run.now.names.now rows.now from result }
{
    let mut change = None;
    let mut i = from.low;
    // No counting loop: `next_after` jumps over corners that are known to be still.
    'corners: while i < run.names.len() {
        let v = get(run.names, i);
        i = next_after(from, i);
        let corner = corner_at(corners, v);
        if corner.ends == 2 {
            let a = corner.low as usize;
            let mut seen: usize = 0;
            'edges: for e in [a, corner.high as usize] {
                seen += ends_of(rows, e, v);
                if seen != 2 {
                    continue 'edges;
                }
                change = try_corner(run, rows, v, a, e)?;
                if change.is_none() {
                    continue 'corners;
                }
                break 'corners;
            }
        }
    }
    Ok(change)
}

// Each fan's position among the names.
fn rank<const SLOTS: usize>(run: &Run<'_, SLOTS>, ranks: &mut [u32; SLOTS])
    requires { SLOTS ≤ 2048 }
    ensures { Ranked run.now.names.now ranks.new }
{
    for (i, v) in run.names.iter().enumerate() {
        put(ranks, *v as usize, i);
    }
}

// THE TWO CHANGES

// The end of an edge that is not at corner v.
fn far_end(start: u32, end: u32, v: usize) -> u32
    ensures { result ≡ cond (eqb start v) end start }
{
    if start as usize == v {
        return end;
    }
    start
}

// The sense of an edge if it ended at corner v, else the reverse.
fn joined_sense(sense: Sense, end: u32, v: usize) -> Sense
    ensures { result ≡ cond (eqb end v) sense (reverse sense) }
{
    if end as usize == v {
        return sense;
    }
    sense.reverse()
}

// The edge that two edges meeting at corner v become.
#[tactic(auto, unfolding(rules::specs::Join::joined_edge))]
fn joined_edge(v: usize, a: EdgeData, b: EdgeData) -> EdgeData
    ensures { result ≡ joined_edge v a b }
{
    EdgeData {
        sense: joined_sense(a.sense, a.end, v),
        start: far_end(a.start, a.end, v),
        end: far_end(b.start, b.end, v),
        active: true,
        ..a
    }
}

// An edge taken by a join.
fn retired(e: EdgeData) -> EdgeData
    ensures { result ≡ retired_edge e }
{
    EdgeData { active: false, ..e }
}

// An edge turned into a ring.
fn ring_of(e: EdgeData) -> EdgeData
    ensures { result ≡ ring_of e }
{
    EdgeData {
        start: UNSET,
        end: UNSET,
        ..e
    }
}

// Edge a, of n edges, with both ends at corner v becomes a ring.
#[tactic(auto, using(crate::specs::ChangeLaws::stores))]
fn ring_at(rows: &mut [EdgeData], n: usize, corners: &mut [Corner], v: usize, a: usize)
    requires { (n ≤ length rows.old) × (a < n) }
    ensures { (take n rows.new ≡ set (take n rows.old) a (ring_of (edge_data_at (take n rows.old) a))) × (corners.new ≡ set corners.old v no_corner) }
{
    let x = edge_at(&rows[..n], a);
    put_entry(rows, a, ring_of(x));
    put_entry(corners, v, NO_CORNER);
}

// Of the two edges at a corner, edge a gives way to edge n, which is the higher one then.
fn given_way(a: usize, n: u32, c: Corner) -> Corner
    ensures { result ≡ given_way a n c }
{
    let low = if c.low as usize == a { c.high } else { c.low };
    Corner { low, high: n, ..c }
}

// The same at fan v.
fn give_way(corners: &mut [Corner], v: usize, a: usize, n: u32)
    ensures { corners.new ≡ give_way v a n corners.old }
{
    let c = corner_at(corners, v);
    put_entry(corners, v, given_way(a, n, c));
}

// The join of edges a and b, of n edges, at corner v; the new edge is numbered last.
fn join_at<const SLOTS: usize, const CODES: usize>(
    rows: &mut [EdgeData],
    n: usize,
    links: &mut Links<SLOTS, CODES>,
    corners: &mut [Corner],
    v: usize,
    a: usize,
    b: usize,
) -> EdgeData
    requires room { n < length rows.old }
    requires few { n < 2048 }
    requires lower { a < b }
    requires inside { b < n }
    requires joinable { Joinable (take n rows.old) v a b n links.old }
    ensures { JoinedAt n v a b rows.old links.old corners.old rows.new links.new corners.new result }
{
    let part = &rows[..n];
    let x = edge_at(part, a);
    let y = edge_at(part, b);
    links.join_places(part, v, a, b, n);
    put_entry(rows, a, retired(x));
    put_entry(rows, b, retired(y));
    let e = joined_edge(v, x, y);
    put_entry(rows, n, e);
    put_entry(corners, v, NO_CORNER);
    give_way(corners, e.start as usize, a, n as u32);
    give_way(corners, e.end as usize, b, n as u32);
    e
}

// After a change the sweep begins afresh, up to a sweep without change. What was tried in vain before is tried again only at
// the far ends of a join: nowhere else can something have changed.
fn join_all<const SLOTS: usize, const CODES: usize>(
    run: &Run<'_, SLOTS>,
    corners: &mut [Corner; SLOTS],
    rows: &mut [EdgeData],
    count: usize,
    links: &mut Links<SLOTS, CODES>,
    items: &mut [u32],
    stretches: &mut [Span],
) -> Result<Joins, Refusal>
    requires room { 2 * count ≤ length rows.old }
    requires count_few { count ≤ 1024 }
    requires laid { Laid stretches.old items.old }
    requires tabled { Tabled (take count rows.old) corners.old }
    requires hung { Hung (take count rows.old) links.old }
    requires linked { laid_by links.old items.old ≡ items.old }
    requires own { links.old.stretches ≡ stretches.old }
    ensures { Ran run.now.job.now.answers run.now.points.now run.now.names.now rows.old count items.old stretches.old rows.new items.new stretches.new result }
{
    let mut ranks = [0u32; SLOTS];
    rank(run, &mut ranks);
    let mut made = Joins {
        edges: count,
        joins: 0,
        rings: 0,
    };
    let mut from = Resume::default();
    while let Some(change) = sweep(run, &rows[..made.edges], corners, from)? {
        match change {
            Change::Ring { corner, edge } => {
                ring_at(rows, made.edges, corners, corner, edge);
                from = after_ring(from, &ranks, corner);
                made.rings += 1;
            }
            Change::Join { corner, low, high } => {
                let e = join_at(rows, made.edges, links, corners, corner, low, high);
                from = after_join(from, &ranks, corner, e);
                made.edges += 1;
                made.joins += 1;
            }
        }
    }
    links.lay_loops(items);
    stretches.copy_from_slice(links.stretches());
    Ok(made)
}

// The same, with tables for as many fans, items and loops as there are slots, and for the numbers of so many items.
fn join_in<const SLOTS: usize, const CODES: usize>(
    run: &Run<'_, SLOTS>,
    rows: &mut [EdgeData],
    count: usize,
    items: &mut [u32],
    stretches: &mut [Span],
) -> Result<Joins, Refusal>
    requires room { 2 * count ≤ length rows.old }
    requires count_few { count ≤ 1024 }
    requires laid { Laid stretches.old items.old }
    requires sound { SoundIn rows.old count items.old stretches.old SLOTS }
    requires small { SLOTS ≤ 2048 }
    requires twice { CODES ≡ 2 * SLOTS }
    ensures { Ran run.now.job.now.answers run.now.points.now run.now.names.now rows.old count items.old stretches.old rows.new items.new stretches.new result }
{
    let mut corners = [NO_CORNER; SLOTS];
    count_ends(&rows[..count], &mut corners);
    let mut links = Links::<SLOTS, CODES>::new();
    links.link(items, stretches);
    join_all(run, &mut corners, rows, count, &mut links, items, stretches)
}

// Fans, edges, items and loops fit the small tables.
fn is_small(names: &[u32], count: usize, items: usize, stretches: usize) -> bool
    ensures { result ≡ true → EachIndex names.now (λ k. get_or names.now k 0 < 64) × (2 * count ≤ 64) × (items ≤ 64) × (stretches ≤ 64) }
{
    count <= FEW / 2
        && items <= FEW
        && stretches <= FEW
        && names.iter().all(|v| (*v as usize) < FEW)
}

// The edges joined: corners with exactly two active edge ends are taken away until no sweep changes anything.
// The tables are lent one by one: of a struct that lends them (tried: some 66 lines more) each contract must say that each
// table is the same and as long as before, which slices do by themselves.
pub fn maximal_edges(
    job: &IndexedJob<'_>,
    starts: &[u32],
    names: &[u32],
    rows: &mut [EdgeData],
    count: usize,
    items: &mut [u32],
    stretches: &mut [Span],
) -> Result<Joins, Refusal>
    requires room { 2 * count ≤ length rows.old }
    requires count_few { count ≤ 1024 }
    requires laid { Laid stretches.old items.old }
    requires nodup { Nodup names.now }
    requires fans { (v : ℕ) → v ∈ names.now → v < 2048 }
    requires sound { SoundIn rows.old count items.old stretches.old 2048 }
    ensures run { (faces : List ℕ) → length faces ≤ length stretches.old
        → (result and_then λ k. Ok (state_in rows.new k.edges items.new stretches.new faces k.joins k.rings))
        ≡ maximal_edges job.now.answers starts.now names.now (length names.now) (state_in rows.old count items.old stretches.old faces 0 0) }
    ensures fitting { IfOk result (λ k. Fitting names.now rows.new items.new stretches.new k) }
{
    if is_small(names, count, items.len(), stretches.len()) {
        let run = Run::<FEW> {
            job,
            points: starts,
            names,
        };
        return join_in::<FEW, 128>(&run, rows, count, items, stretches);
    }
    let run = Run::<MOST_USES> {
        job,
        points: starts,
        names,
    };
    join_in::<MOST_USES, 4096>(&run, rows, count, items, stretches)
}
