// The tests of one record, by its kind: refusals 3, 5, 4 and 6; and the counts after a record.

#![tactic(auto)]

ghost use Rattle.std.specs.Prelude.{◌≡◌, true, ◌&&◌, ◌||◌, not, ◌+◌, ◌*◌, ◌-◌, ◌%◌, ◌/◌, ◌<◌, ◌^◌, drop, length, eqb, ltb, leb};
ghost use Rattle.lists.specs.Lists.{all, neighbours};
ghost use Rattle.rules.specs.Fields.{field};
ghost use Rattle.rules.specs.Job.{items_of, of_ring};
ghost use Rattle.rules.specs.Kinds.{is_answer, in_turn, is_sense, is_body, exists, ends_permitted, items_permitted, fields_permitted, right_length, right_position, limit_passed, part_of};
ghost use Rattle.rules.specs.Load.{joint, jointed as jointed_of, right_joints, counted};
ghost use Rattle.theorems.specs.Sound.{Limited};
ghost use Rattle.job.specs.Raw.{points, edges};
ghost use Rattle.records.specs.Joints.{ends_of};

use job::{Fields, RawJob};
use rules::{
    Counts, Item, Kind, MOST_ANSWERS, MOST_EDGES, MOST_FACES, MOST_LOOPS, MOST_USES, MOST_VERTICES,
    UNSET,
};

// LENGTH AND POSITION

// A payload of one or more parts of so many bytes.
fn parts(size: usize, each: usize) -> bool
    requires { 0 < each }
    ensures { result ≡ (ltb 0 size && eqb (size % each) 0) }
{
    0 < size && size % each == 0
}

// 3: the payload's length is right for its kind.
#[tactic(auto, unfolding(rules::specs::Kinds::right_length))]
pub fn right_length(kind: Kind, size: usize) -> bool
    ensures { result ≡ right_length kind size }
{
    match kind {
        Kind::Unknown => false,
        Kind::Head => size == 4,
        Kind::Vertex => size == 4,
        Kind::EdgeRecord => size == 16,
        Kind::FaceRecord => size == 20,
        Kind::LoopRecord => parts(size, 8),
        Kind::VertexLoop => size == 4,
        Kind::Radial => parts(size, 4),
        Kind::Surface => size == 8,
        Kind::Points => size == 12,
        Kind::Curves => size == 12,
        Kind::Singular => size == 20,
        Kind::Orientation => size == 8,
        Kind::Inside => size == 12,
    }
}

// The parts of a job in their order: numbers, as in the definitions, since they are compared.
const HEAD: usize = 1;

const VERTICES: usize = 2;

const EDGES: usize = 3;

const FACES: usize = 4;

const ANSWERS: usize = 5;

// The part in which a kind stands.
#[tactic(auto, unfolding(rules::specs::Kinds::part_of))]
fn part_of(kind: Kind) -> usize
    ensures { result ≡ part_of kind }
{
    match kind {
        Kind::Unknown => 0,
        Kind::Head => HEAD,
        Kind::Vertex => VERTICES,
        Kind::EdgeRecord => EDGES,
        Kind::FaceRecord | Kind::LoopRecord | Kind::VertexLoop => FACES,
        // the answers
        _ => ANSWERS,
    }
}

// After Head, and not after a later part.
fn in_turn(reached: usize, part: usize) -> bool
    ensures { result ≡ in_turn reached part }
{
    0 < reached && reached <= part
}

// Kinds 7 to 13 are answers.
#[tactic(auto, unfolding(rules::specs::Kinds::number_of))]
pub fn is_answer(kind: Kind) -> bool
    ensures { result ≡ is_answer kind }
{
    matches!(
        kind,
        Kind::Radial
            | Kind::Surface
            | Kind::Points
            | Kind::Curves
            | Kind::Singular
            | Kind::Orientation
            | Kind::Inside
    )
}

// 3: the record stands in its part. Through `part_of` loading took 4 to 6 % more instructions (tried).
#[tactic(auto, unfolding(rules::specs::Kinds::right_position))]
pub fn right_position(kind: Kind, reached: usize) -> bool
    ensures { result ≡ right_position kind reached }
{
    match kind {
        Kind::Unknown => false,
        Kind::Head => reached == 0,
        Kind::Vertex => in_turn(reached, VERTICES),
        Kind::EdgeRecord => in_turn(reached, EDGES),
        Kind::FaceRecord => in_turn(reached, FACES),
        Kind::LoopRecord | Kind::VertexLoop => reached == FACES,
        // the answers
        _ => in_turn(reached, ANSWERS),
    }
}

// LIMITS AND COUNTS

// One loop more, of so many fields, passes a limit.
fn loops_passed(c: Counts, n: usize) -> bool
    requires { Limited c × (n < 2 ^ 60) }
    ensures { result ≡ (leb 1024 c.loops || ltb 2048 (c.uses + n / 2)) }
{
    MOST_LOOPS <= c.loops || MOST_USES < c.uses + n / 2
}

// 5: a limit is passed by one more record of n fields.
#[tactic(auto, unfolding(rules::specs::Kinds::limit_passed))]
pub fn limit_passed(kind: Kind, c: Counts, n: usize) -> bool
    requires { Limited c × (n < 2 ^ 60) }
    ensures { result ≡ limit_passed kind c n }
{
    match kind {
        Kind::Unknown => false,
        Kind::Head => false,
        Kind::Vertex => MOST_VERTICES <= c.vertices,
        Kind::EdgeRecord => MOST_EDGES <= c.edges,
        Kind::FaceRecord => MOST_FACES <= c.faces,
        Kind::LoopRecord => loops_passed(c, n),
        Kind::VertexLoop => MOST_LOOPS <= c.loops,
        // the answers
        _ => MOST_ANSWERS <= c.answers,
    }
}

// The counts after a record of n fields.
#[tactic(auto, unfolding(rules::specs::Load::counted, rules::specs::Kinds::number_of, rules::specs::Kinds::part_of))]
pub fn count_record(kind: Kind, n: usize, c: Counts) -> Counts
    requires { Limited c × (n < 2 ^ 60) }
    ensures { result ≡ counted kind n c }
{
    let mut after = c;
    after.part = part_of(kind);
    match kind {
        Kind::Unknown | Kind::Head => {}
        Kind::Vertex => after.vertices += 1,
        Kind::EdgeRecord => after.edges += 1,
        Kind::FaceRecord => after.faces += 1,
        Kind::LoopRecord => {
            after.loops += 1;
            after.uses += n / 2;
        }
        Kind::VertexLoop => after.loops += 1,
        // the answers
        _ => after.answers += 1,
    }
    after
}

// PERMITTED FIELDS

// A number exists among so many.
fn exists(count: usize, x: u32) -> bool
    ensures { result ≡ exists count x }
{
    (x as usize) < count
}

// Two vertices that exist, or the mark in both.
#[tactic(auto, unfolding(rules::specs::Kinds::ends_permitted))]
fn ends_permitted(vertices: usize, start: u32, end: u32) -> bool
    ensures { result ≡ ends_permitted vertices start end }
{
    if start == UNSET {
        return end == UNSET;
    }
    exists(vertices, start) && exists(vertices, end)
}

fn edge_permitted(payload: &Fields<'_>, vertices: usize) -> bool
    requires { length payload.now ≡ 4 }
    ensures { result ≡ (is_sense (field payload.now 1) && ends_permitted vertices (field payload.now 2) (field payload.now 3)) }
{
    payload.at(1) <= 1 && ends_permitted(vertices, payload.at(2), payload.at(3))
}

fn face_permitted(payload: &Fields<'_>) -> bool
    requires { length payload.now ≡ 5 }
    ensures { result ≡ (is_sense (field payload.now 1) && (is_sense (field payload.now 2) && is_body (field payload.now 3))) }
{
    payload.at(1) <= 1 && payload.at(2) <= 1 && payload.at(3) <= 1
}

// Each item names an edge and has a sense.
fn items_permitted(payload: &Fields<'_>, edges: usize) -> bool
    requires { length payload.now % 2 ≡ 0 }
    ensures { result ≡ items_permitted edges payload.now }
{
    (0..payload.len() / 2).all(|i| exists(edges, payload.at(2 * i)) && payload.at(2 * i + 1) <= 1)
}

// Each number after the first lies below a count.
fn others_exist(payload: &Fields<'_>, count: usize) -> bool
    ensures { result ≡ all (exists count) (drop 1 payload.now) }
{
    let mut others = payload.iter();
    others.next();
    others.all(|x| exists(count, x))
}

// An edge that exists, and uses that do.
fn radial_permitted(payload: &Fields<'_>, edges: usize, uses: usize) -> bool
    requires { 0 < length payload.now }
    ensures { result ≡ (exists edges (field payload.now 0) && all (exists uses) (drop 1 payload.now)) }
{
    exists(edges, payload.at(0)) && others_exist(payload, uses)
}

// A number that exists, and a value.
fn valued_permitted(payload: &Fields<'_>, count: usize, most: u32) -> bool
    requires { length payload.now ≡ 2 }
    ensures { result ≡ (exists count (field payload.now 0) && leb (field payload.now 1) most) }
{
    exists(count, payload.at(0)) && payload.at(1) <= most
}

// Two numbers that differ, and a value.
fn different_permitted(payload: &Fields<'_>) -> bool
    requires { length payload.now ≡ 3 }
    ensures { result ≡ (not (eqb (field payload.now 0) (field payload.now 1)) && leb (field payload.now 2) 2) }
{
    payload.at(0) != payload.at(1) && payload.at(2) <= 2
}

// Two faces, ascending, that exist, and a value.
fn singular_permitted(payload: &Fields<'_>, faces: usize) -> bool
    requires { length payload.now ≡ 5 }
    ensures { result ≡ (ltb (field payload.now 1) (field payload.now 2) && (exists faces (field payload.now 2) && leb (field payload.now 4) 2)) }
{
    let b = payload.at(2);
    payload.at(1) < b && exists(faces, b) && payload.at(4) <= 2
}

// Two faces that exist, and a value.
fn inside_permitted(payload: &Fields<'_>, faces: usize) -> bool
    requires { length payload.now ≡ 3 }
    ensures { result ≡ (exists faces (field payload.now 0) && (exists faces (field payload.now 1) && leb (field payload.now 2) 2)) }
{
    exists(faces, payload.at(0)) && exists(faces, payload.at(1)) && payload.at(2) <= 2
}

// 4: the fields of a record of the right length are permitted.
#[tactic(auto, using(crate::specs::Payloads::whole), unfolding(rules::specs::Kinds::fields_permitted, rules::specs::Kinds::right_length))]
pub fn fields_permitted(kind: Kind, c: Counts, payload: &Fields<'_>) -> bool
    requires { right_length kind (4 * length payload.now) ≡ true }
    ensures { result ≡ fields_permitted kind c payload.now }
{
    match kind {
        Kind::Unknown => false,
        Kind::Head => payload.at(0) <= 1,
        Kind::Vertex => true,
        Kind::EdgeRecord => edge_permitted(payload, c.vertices),
        Kind::FaceRecord => face_permitted(payload),
        Kind::LoopRecord => items_permitted(payload, c.edges),
        Kind::VertexLoop => exists(c.vertices, payload.at(0)),
        Kind::Radial => radial_permitted(payload, c.edges, c.uses),
        Kind::Surface => valued_permitted(payload, c.uses, 4),
        Kind::Points | Kind::Curves => different_permitted(payload),
        Kind::Singular => singular_permitted(payload, c.faces),
        Kind::Orientation => valued_permitted(payload, c.faces, 2),
        Kind::Inside => inside_permitted(payload, c.faces),
    }
}

// JOINTS

// The edge of an item has no vertices.
fn is_ring(raw: &RawJob<'_>, item: Item) -> bool
    requires { Limited raw.now.counts }
    ensures { result ≡ of_ring (edges raw.now) item }
{
    raw.edge(item.edge as usize).is_ring()
}

// The points where an item starts and ends.
#[derive(Clone, Copy)]
struct Ends {
    start: u32,
    end: u32,
}

// Those of an item, unless its edge is a ring; its edge, vertices and points are read once. Inlined: as a call loading took 8 to
// 10 % more instructions.
#[inline(always)]
fn item_ends(raw: &RawJob<'_>, item: Item) -> Option<Ends>
    requires { Limited raw.now.counts }
    ensures { result ≡ ends_of (points raw.now) (edges raw.now) item }
{
    let edge = raw.edge(item.edge as usize);
    if edge.is_ring() {
        return None;
    }
    Some(Ends {
        start: raw.point(edge.start_by(item.sense) as usize),
        end: raw.point(edge.end_by(item.sense) as usize),
    })
}

// Each of the items with its successor is a joint, the last with the first: none is of a ring, and each starts at the
// point where the one before ends.
#[tactic(auto, using(crate::specs::Joints::along), unfolding(rules::specs::Load::joint))]
fn joined(raw: &RawJob<'_>, payload: &Fields<'_>) -> bool
    requires { Limited raw.now.counts }
    ensures { result ≡ all (joint (points raw.now) (edges raw.now)) (neighbours (items_of payload.now)) }
{
    let n = payload.len() / 2;
    if n == 0 {
        return true;
    }
    let Some(first) = item_ends(raw, payload.item(0)) else {
        return false;
    };
    let mut end = first.end;
    // by number: an item is read where it stands in the bytes, once, and looked at with the one before
    for i in 1..n {
        let Some(next) = item_ends(raw, payload.item(i)) else {
            return false;
        };
        if next.start != end {
            return false;
        }
        end = next.end;
    }
    end == first.start
}

// A ring's use alone, or joints.
#[tactic(auto, using(crate::specs::Joints::jointed_is))]
fn jointed(raw: &RawJob<'_>, payload: &Fields<'_>) -> bool
    requires { Limited raw.now.counts }
    ensures { result ≡ jointed_of (points raw.now) (edges raw.now) (items_of payload.now) }
{
    payload.len() / 2 == 1 && is_ring(raw, payload.item(0)) || joined(raw, payload)
}

// 6: a loop's joints hold. They are looked at in a copy, so that what is read need not be stored for any other record.
#[tactic(auto, using(crate::specs::Joints::loop_joints, crate::specs::Joints::no_loop))]
pub fn right_joints(raw: &RawJob<'_>, kind: Kind, payload: &Fields<'_>) -> bool
    requires { Limited raw.now.counts }
    ensures { result ≡ right_joints kind (points raw.now) (edges raw.now) payload.now }
{
    match kind {
        Kind::LoopRecord => {
            let copy = *raw;
            jointed(&copy, payload)
        }
        _ => true,
    }
}
