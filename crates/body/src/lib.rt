// The body's records into the output. They are written twice by the same functions: first into no room, which gives
// how many bytes there are, since a refusal must leave the output as it was; then into the output.

#![tactic(auto)]

ghost use Rattle.std.specs.Prelude.{◌≡◌, ℕ, ◌+◌, ◌*◌, ◌<◌, ◌≤◌, ◌^◌, ◌++◌, true, length};
ghost use mathlib.Core.List.{List, [], ◌∷◌, map, flat_map};
ghost use Rattle.rules.specs.Fields.{bytes16, bytes32, field_bytes};
ghost use Rattle.rules.specs.Frame.{framed, framed_all};
ghost use Rattle.rules.specs.Join.{active_edges};
ghost use Rattle.rules.specs.Job.{face_at};
ghost use Rattle.rules.specs.Shells.{shell_faces, voids_of, lump_of, lumps};
ghost use Rattle.rules.specs.Groups.{members_of};
ghost use Rattle.rules.specs.Body.{rec, still_active, meet, met_fans, points_in, member_at, member_fields, members_record, item_fields, loop_record};
ghost use Rattle.rules.specs.Body.{vertex_loop_record, edge_record, face_records, lump_records, totals_record, body_records, empty_body};
ghost use Rattle.rules.specs.Sew.{fitting, Ends};
ghost use Rattle.fields.specs.Wrote.{Wrote};
ghost use Rattle.members.specs.Group.{Leading};
ghost use Rattle.shells.specs.Table.{nested_row, nested_of};
ghost use Rattle.body.specs.Numbers.{Numbering, number_in, vertex_in, placed, items_by, loops_by};
ghost use Rattle.body.specs.Vertices.{EndOk, EdgeOk, EndsOk, Meeting};
ghost use Rattle.body.specs.Solids.{record_number, totals_in, head_record, faces_of, merged_faces, body_in};

mod numbers;
mod solid;

use edges::{Joining, item_in};
use fields::{get, put, put_entry, put_fields, put_word};
use job::face;
use members::Members;
use numbers::Numbers;
use rules::{EdgeData, KeptVertexLoop, MOST_FACES, Refusal, UNSET};
use shells::{ShellRow, Shells};
pub use solid::{Solid, Totals};
use stages_out::{count_shell_faces, put_shell_faces, write_fitting};

// The kinds of a body's records.
#[derive(Clone, Copy)]
enum BodyRecord {
    Body = 21,
    Vertex = 22,
    Edge = 23,
    Face = 24,
    Loop = 25,
    VertexLoop = 26,
    Lump = 27,
    Shell = 28,
    Members = 29,
}

impl BodyRecord {
    fn number(self) -> usize
        ensures { result ≡ record_number self }
    {
        self as usize
    }
}

// RECORDS

// A record's header at a place: payload length of so many fields, and kind; gives the place of its payload.
#[tactic(auto, using(fields::specs::Wrote::two_stores, fields::specs::Wrote::wrote_more), unfolding(rules::specs::Fields::bytes32))]
fn put_head(out: &mut [u8], at: usize, kind: BodyRecord, fields: usize) -> usize
    requires { (at < 2 ^ 60) × (fields < 2 ^ 60) }
    ensures { Wrote out.old at (bytes32 (4 * fields) ++ bytes16 (record_number kind)) out.new result }
{
    let p = put_word(out, at, 4 * fields);
    let [low, high, ..] = kind.number().to_le_bytes();
    put_entry(out, p, low);
    put_entry(out, p + 1, high);
    p + 2
}

// A record of some fields at a place; gives the place after it, as each function here does that writes at a place.
fn put_record<const N: usize>(
    out: &mut [u8],
    at: usize,
    kind: BodyRecord,
    fields: &[usize; N],
) -> usize
    requires { (at < 2 ^ 59) × (N ≤ 7) }
    ensures { Wrote out.old at (framed (rec (record_number kind) fields.now)) out.new result × (result ≡ at + 6 + 4 * N) }
{
    let p = put_head(out, at, kind, N);
    put_fields(out, p, fields)
}

// The totals of a solid, or of the empty body, at the output's start.
fn put_totals(out: &mut [u8], totals: Option<Totals>) -> usize
    ensures { Wrote out.old 0 (framed (totals_record (totals_in totals))) out.new result × (result ≡ 34) }
{
    let fields = match totals {
        None => [0; 7],
        Some(t) => [1, t.uses, t.removed, t.passed, t.joins, t.rings, t.merges],
    };
    put_record(out, 0, BodyRecord::Body, &fields)
}

// NUMBERS

// Active edges are renumbered from 0, in a table that has 0 for the others. Gives how many there are.
fn number_edges(rows: &[EdgeData], numbers: &mut [u32]) -> usize
    requires { (length rows.now ≤ 2048) × (length rows.now ≤ length numbers.old) }
    ensures { Numbering (active_edges rows.now) numbers.new result }
{
    numbers.fill(0);
    let mut count = 0;
    for (e, row) in rows.iter().enumerate() {
        if row.active {
            count += 1;
            put(numbers, e, count);
        }
    }
    count
}

// VERTICES

// Where the fans' records start: after the totals.
const VERTICES: usize = 34;

// Fan v takes the next number, with its record, unless it is none or has a number. The records stand one after the other,
// so the count gives the place. Gives how many fans have numbers then.
fn meet_fan(starts: &[u32], vertices: &mut [u32], count: usize, v: usize, out: &mut [u8]) -> usize
    requires { count < 8192 }
    ensures { (result ≤ count + 1)
        × ((before met : List ℕ) → EndOk (length vertices.old) v → Meeting starts.now before 34 met vertices.old out.old count
        → Meeting starts.now before 34 (meet met v) vertices.new out.new result) }
{
    if v == UNSET as usize {
        return count;
    }
    if get(vertices, v) != 0 {
        return count;
    }
    put(vertices, v, count + 1);
    put_record(
        out,
        VERTICES + 10 * count,
        BodyRecord::Vertex,
        &[get(starts, v)],
    );
    count + 1
}

// The fans where an active edge starts and ends, in this order.
fn meet_ends(
    starts: &[u32],
    vertices: &mut [u32],
    count: usize,
    edge: EdgeData,
    out: &mut [u8],
) -> usize
    requires { (count < 8190) × EdgeOk (length vertices.old) edge }
    ensures { (result ≤ count + 2)
        × ((before met : List ℕ) → Meeting starts.now before 34 met vertices.old out.old count
        → Meeting starts.now before 34 (meet (meet met edge.start) edge.end) vertices.new out.new result) }
{
    let n = meet_fan(starts, vertices, count, edge.start as usize, out);
    meet_fan(starts, vertices, n, edge.end as usize, out)
}

// The points of the fans first met over active edges, start then end; each fan's number in a table that has 0
// for the others. Gives how many there are.
fn put_vertices(rows: &[EdgeData], starts: &[u32], vertices: &mut [u32], out: &mut [u8]) -> usize
    requires { (length rows.now ≤ 2048) × EndsOk (length vertices.old) rows.now }
    ensures { (result ≤ 4096) × Meeting starts.now out.old 34 (met_fans (still_active rows.now)) vertices.new out.new result }
{
    vertices.fill(0);
    let mut count = 0;
    for edge in rows {
        if edge.active {
            count = meet_ends(starts, vertices, count, *edge, out);
        }
    }
    count
}

// EDGES

// The vertex of fan v, or none.
#[tactic(auto, unfolding(crate::specs::Numbers::vertex_in))]
fn vertex_of(vertices: &Numbers<'_>, v: usize) -> usize
    ensures { result ≡ vertex_in (number_in vertices.now) v }
{
    if v == UNSET as usize {
        return UNSET as usize;
    }
    vertices.of(v)
}

// An edge between vertices.
fn put_edge(edge: EdgeData, vertices: &Numbers<'_>, out: &mut [u8], at: usize) -> usize
    requires { at < 2 ^ 58 }
    ensures { Wrote out.old at (framed (edge_record (placed (number_in vertices.now) edge))) out.new result × (result ≡ at + 22) }
{
    let sense = usize::from(edge.sense);
    let start = vertex_of(vertices, edge.start as usize);
    let end = vertex_of(vertices, edge.end as usize);
    put_record(
        out,
        at,
        BodyRecord::Edge,
        &[edge.curve as usize, sense, start, end],
    )
}

// The active edges.
fn put_edges(rows: &[EdgeData], vertices: &Numbers<'_>, out: &mut [u8], at: usize) -> usize
    requires { (at < 2 ^ 57) × (length rows.now ≤ 2048) }
    ensures { Wrote out.old at (framed_all (map edge_record (map (placed (number_in vertices.now)) (still_active rows.now)))) out.new result × (result ≤ at + 45056) }
{
    let mut p = at;
    for edge in rows {
        if edge.active {
            p = put_edge(*edge, vertices, out, p);
        }
    }
    p
}

// FACES

// The items of a loop: each one's edge by its number, and its sense.
fn put_items(part: &[u32], numbers: &Numbers<'_>, out: &mut [u8], at: usize) -> usize
    requires { (at < 2 ^ 57) × (length part.now ≤ 2048) }
    ensures { Wrote out.old at (field_bytes (flat_map item_fields (items_by (number_in numbers.now) part.now))) out.new result × (result ≤ at + 16384) }
{
    let mut p = at;
    for x in part {
        let item = item_in(*x);
        let e = numbers.of(item.edge as usize);
        p = put_fields(out, p, &[e, usize::from(item.sense)]);
    }
    p
}

// A loop of these items.
fn put_loop(part: &[u32], numbers: &Numbers<'_>, out: &mut [u8], at: usize) -> usize
    requires { (at < 2 ^ 56) × (length part.now ≤ 2048) }
    ensures { Wrote out.old at (framed (loop_record (items_by (number_in numbers.now) part.now))) out.new result × (result ≤ at + 16390) }
{
    let p = put_head(out, at, BodyRecord::Loop, 2 * part.len());
    put_items(part, numbers, out, p)
}

// The loops of merged face f.
fn put_loops(j: &Joining<'_>, numbers: &Numbers<'_>, f: usize, out: &mut [u8], at: usize) -> usize
    requires { at < 2 ^ 55 }
    ensures { Wrote out.old at (framed_all (map loop_record (loops_by (number_in numbers.now) j.now.loops f))) out.new result × (result ≤ at + 33566720) }
{
    let faces = j.loop_faces();
    let mut p = at;
    for (k, face) in faces.iter().enumerate() {
        if *face as usize == f {
            p = put_loop(j.loop_items(k), numbers, out, p);
        }
    }
    p
}

// The vertex loops of merged face f.
fn put_vertex_loops(kept: &[KeptVertexLoop], f: usize, out: &mut [u8], at: usize) -> usize
    requires { (at < 2 ^ 55) × (length kept.now ≤ 1024) }
    ensures { Wrote out.old at (framed_all (map vertex_loop_record (points_in kept.now f))) out.new result × (result ≤ at + 10240) }
{
    let mut p = at;
    for k in kept {
        if k.face as usize == f {
            p = put_record(out, p, BodyRecord::VertexLoop, &[k.point as usize]);
        }
    }
    p
}

// Surface and stored sense of selected face r.
fn put_face(s: &Solid<'_>, r: usize, out: &mut [u8], at: usize) -> usize
    requires { at < 2 ^ 56 }
    ensures { Wrote out.old at (framed (head_record (face_at (faces_of s.now) r))) out.new result × (result ≡ at + 14) }
{
    let face = face(s.bytes, s.index, s.counts, r);
    let sense = usize::from(face.stored_sense());
    put_record(out, at, BodyRecord::Face, &[face.surface as usize, sense])
}

// Body and source face of selected face i.
fn put_member(s: &Solid<'_>, i: usize, out: &mut [u8], at: usize) -> usize
    requires { at < 2 ^ 58 }
    ensures { Wrote out.old at (field_bytes (member_fields (member_at (faces_of s.now) i))) out.new result × (result ≤ at + 8) }
{
    let face = face(s.bytes, s.index, s.counts, i);
    put_fields(out, at, &[face.body as usize, face.source as usize])
}

// Body and source face of each member of the merged group with label m, ascending.
fn put_members(s: &Solid<'_>, members: &Members<'_>, m: usize, out: &mut [u8], at: usize) -> usize
    requires { (at < 2 ^ 56) × Leading members.now m }
    ensures { Wrote out.old at (framed (members_record (map (member_at (faces_of s.now)) (members_of members.now m)))) out.new result × (result ≤ at + 2054) }
{
    let size = members.count(m);
    let mut p = put_head(out, at, BodyRecord::Members, 2 * size);
    for i in members.of(m) {
        p = put_member(s, i, out, p);
    }
    p
}

// The merged faces, each with its members and its loops after it, vertex loops last.
fn put_faces(s: &Solid<'_>, numbers: &mut [u32], out: &mut [u8], at: usize) -> usize
    requires { (at < 2 ^ 53) × (length s.now.joining.now.edges ≤ length numbers.old) }
    ensures { Wrote out.old at (framed_all (flat_map face_records (merged_faces s.now))) out.new result × (result ≤ at + 8596231168) }
{
    let j = s.joining;
    let count = number_edges(j.edges, numbers);
    let numbers = Numbers {
        table: numbers,
        count,
    };
    let groups = s.groups;
    let mut room = [0u32; MOST_FACES];
    let members = Members::new(groups, &mut room[..groups.len()]);
    let mut p = at;
    for (f, m) in s.members.iter().enumerate() {
        let m = *m as usize;
        let q = put_face(s, m, out, p);
        let r = put_members(s, &members, m, out, q);
        let t = put_loops(j, &numbers, f, out, r);
        p = put_vertex_loops(s.kept, f, out, t);
    }
    p
}

// SHELLS

// The boundary with label b.
fn put_shell(shells: &Shells<'_>, b: usize, out: &mut [u8], at: usize) -> usize
    requires { at < 2 ^ 56 }
    ensures { Wrote out.old at (framed (rec 28 (shell_faces shells.now.boundaries.now shells.now.members.now b))) out.new result × (result ≤ at + 1030) }
{
    let size = count_shell_faces(shells.boundaries, shells.members, b);
    let p = put_head(out, at, BodyRecord::Shell, size);
    put_shell_faces(shells.boundaries, shells.members, b, out, p)
}

// The voids of the lump whose outer shell has the lowest merged face `home`.
fn put_voids(shells: &Shells<'_>, home: u32, out: &mut [u8], at: usize) -> usize
    requires { at < 2 ^ 55 }
    ensures { Wrote out.old at (framed_all (map (rec 28) (voids_of (nested_of shells.now) home))) out.new result × (result ≤ at + 263680) }
{
    let mut p = at;
    for s in shells.rows {
        if s.is_void_of(home) {
            p = put_shell(shells, s.boundary as usize, out, p);
        }
    }
    p
}

// The lump of an outer shell; the shell, then its voids.
fn put_lump(shells: &Shells<'_>, outer: ShellRow, out: &mut [u8], at: usize) -> usize
    requires { at < 2 ^ 54 }
    ensures { Wrote out.old at (framed_all (lump_records (lump_of (nested_of shells.now) (nested_row shells.now outer)))) out.new result × (result ≤ at + 264716) }
{
    let p = put_record(out, at, BodyRecord::Lump, &[]);
    let q = put_shell(shells, outer.boundary as usize, out, p);
    put_voids(shells, outer.home, out, q)
}

// The lumps.
fn put_lumps(shells: &Shells<'_>, out: &mut [u8], at: usize) -> usize
    requires { at < 2 ^ 53 }
    ensures { Wrote out.old at (framed_all (flat_map lump_records (lumps (nested_of shells.now)))) out.new result }
{
    let mut p = at;
    for s in shells.rows {
        if s.outer {
            p = put_lump(shells, *s, out, p);
        }
    }
    p
}

// THE BODY

// All records of a body; `numbers` and `vertices` are spare tables.
fn put_records(s: &Solid<'_>, numbers: &mut [u32], vertices: &mut [u32], out: &mut [u8]) -> usize
    requires { (length s.now.joining.now.edges ≤ length numbers.old) × EndsOk (length vertices.old) s.now.joining.now.edges }
    ensures { Wrote out.old 0 (framed_all (body_records (body_in s.now))) out.new result }
{
    put_totals(out, Some(s.totals));
    let j = s.joining;
    let count = put_vertices(j.edges, s.starts, vertices, out);
    let vertices = Numbers {
        table: vertices,
        count,
    };
    let p = put_edges(j.edges, &vertices, out, VERTICES + 10 * count);
    let q = put_faces(s, numbers, out, p);
    put_lumps(s.shells, out, q)
}

// The body of a job without selected faces: one record, or refusal 40 with the bytes needed.
#[tactic(auto, using(crate::specs::BodyLaws::empty_is))]
pub fn put_empty(out: &mut [u8]) -> Result<usize, Refusal>
    ensures { Ends (fitting (length out.old) (framed_all (body_records empty_body))) out.old out.new result }
{
    write_fitting(out, |out| put_totals(out, None))
}

// The body of a job with faces: all records, or refusal 40 with the bytes needed. `numbers` and `vertices` are spare
// tables with an entry for each edge and each fan.
pub fn put_body(
    s: &Solid<'_>,
    numbers: &mut [u32],
    vertices: &mut [u32],
    out: &mut [u8],
) -> Result<usize, Refusal>
    requires { (length s.now.joining.now.edges ≤ length numbers.old) × EndsOk (length vertices.old) s.now.joining.now.edges }
    ensures { Ends (fitting (length out.old) (framed_all (body_records (body_in s.now)))) out.old out.new result }
{
    write_fitting(out, |out| put_records(s, numbers, vertices, out))
}
