// What the single stages from the fans on write: four-byte fields from the output's start on, or nothing and the refusal
// `NoRoom` with the bytes needed where the output is too short.

#![tactic(auto)]

ghost use Rattle.std.specs.Prelude.{◌≡◌, ◌+◌, ◌<◌, ◌≤◌, ◌^◌, map, length};
ghost use mathlib.Core.List.{flat_map};
ghost use Rattle.rules.specs.Fields.{field_bytes};
ghost use Rattle.rules.specs.Shells.{shell_faces, voids_of, lump_of, lumps};
ghost use Rattle.rules.specs.Body.{item_fields};
ghost use Rattle.rules.specs.Stage.{edge_fields, face_loop_fields, joining_fields, shell_fields, lump_shell_fields, lump_fields};
ghost use Rattle.fields.specs.Wrote.{Wrote};
ghost use Rattle.edges.specs.Table.{item_in};
ghost use Rattle.shells.specs.Table.{shells_of, nested_row, nested_of};
ghost use Rattle.stages_out.specs.Rows.{Staged};
ghost use Rattle.result_out.specs.Rows.{fan_rows};

use edges::{Joining, item_in};
use fans::{KeptUses, kept_with_ends};
use fields::{get, put_fields};
use rules::{EdgeData, Refusal};
use shells::{ShellRow, Shells};
use stages_out::{count_shell_faces, put_shell_faces, write_fitting};

// FANS

// The fields of each kept use with ends; gives the place after them, as each function here does that writes.
fn put_fans(kept: &KeptUses<'_>, fans: &[u32], starts: &[u32], out: &mut [u8]) -> usize
    ensures { Wrote out.old 0 (field_bytes (fan_rows kept.now.job.now.edges kept.now.uses.now kept.now.removed.now fans.now starts.now)) out.new result }
{
    // a copy of its own: what is stored in the output cannot be a part of it, so that it is not read anew for each use
    let own = *kept;
    let mut p = 0;
    // by number: a use is looked up in tables of which none need be as long as the others
    for h in 0..own.uses.len() {
        if kept_with_ends(&own, h) {
            p = put_fields(out, p, &[h, get(fans, h), get(starts, h)]);
        }
    }
    p
}

// The stage `fans`: use, fan and point of each kept use with ends.
pub fn write_fans(
    kept: &KeptUses<'_>,
    fans: &[u32],
    starts: &[u32],
    out: &mut [u8],
) -> Result<usize, Refusal>
    ensures { Staged (fan_rows kept.now.job.now.edges kept.now.uses.now kept.now.removed.now fans.now starts.now) out.old out.new result }
{
    write_fitting(out, |out| put_fans(kept, fans, starts, out))
}

// EDGES AND JOINING

// The fields of an edge at a place.
fn put_edge(e: EdgeData, out: &mut [u8], at: usize) -> usize
    requires { at < 2 ^ 58 }
    ensures { Wrote out.old at (field_bytes (edge_fields e)) out.new result × (result ≤ at + 28) }
{
    let (curve, sense) = (e.curve as usize, usize::from(e.sense));
    let (start, end) = (e.start as usize, e.end as usize);
    let (low, high) = (e.faces[0] as usize, e.faces[1] as usize);
    let active = usize::from(e.active);
    put_fields(out, at, &[curve, sense, start, end, low, high, active])
}

// The fields of each edge at a place.
fn put_edges(edges: &[EdgeData], out: &mut [u8], at: usize) -> usize
    requires { (length edges.now ≤ 2048) × (at < 2 ^ 57) }
    ensures { Wrote out.old at (field_bytes (flat_map edge_fields edges.now)) out.new result × (result ≤ at + 57344) }
{
    let mut p = at;
    for e in edges {
        p = put_edge(*e, out, p);
    }
    p
}

// Edge and sense of each item at a place.
fn put_items(part: &[u32], out: &mut [u8], at: usize) -> usize
    requires { (length part.now ≤ 2048) × (at < 2 ^ 58) }
    ensures { Wrote out.old at (field_bytes (flat_map item_fields (map item_in part.now))) out.new result × (result ≤ at + 16384) }
{
    let mut p = at;
    for x in part {
        let item = item_in(*x);
        p = put_fields(out, p, &[item.edge as usize, usize::from(item.sense)]);
    }
    p
}

// The fields of a loop with its items at a place.
fn put_loop(face: usize, part: &[u32], out: &mut [u8], at: usize) -> usize
    requires { (length part.now ≤ 2048) × (at < 2 ^ 57) }
    ensures { Wrote out.old at (field_bytes (face_loop_fields (record { face = face; items = map item_in part.now }))) out.new result × (result ≤ at + 16392) }
{
    let p = put_fields(out, at, &[face, part.len()]);
    put_items(part, out, p)
}

// The fields of each loop at a place.
fn put_loops(j: &Joining<'_>, out: &mut [u8], at: usize) -> usize
    requires { at < 2 ^ 56 }
    ensures { Wrote out.old at (field_bytes (flat_map face_loop_fields j.now.loops)) out.new result }
{
    let faces = j.loop_faces();
    let mut p = at;
    for (k, face) in faces.iter().enumerate() {
        p = put_loop(*face as usize, j.loop_items(k), out, p);
    }
    p
}

// The numbers of joins, rings and edges, the edges, and the loops.
fn put_joining(j: &Joining<'_>, out: &mut [u8]) -> usize
    ensures { Wrote out.old 0 (field_bytes (joining_fields j.now)) out.new result }
{
    let p = put_fields(out, 0, &[j.joins, j.rings, j.edges.len()]);
    let q = put_edges(j.edges, out, p);
    put_loops(j, out, q)
}

// The stages `edges` and `joining`: numbers of joins, rings and edges; the edges; the loops.
pub fn write_joining(j: &Joining<'_>, out: &mut [u8]) -> Result<usize, Refusal>
    ensures { Staged (joining_fields j.now) out.old out.new result }
{
    write_fitting(out, |out| put_joining(j, out))
}

// SHELLS

// A number, then the number of merged faces of the boundary with label b and these, at a place.
fn put_shell(shells: &Shells<'_>, b: usize, number: usize, out: &mut [u8], at: usize) -> usize
    requires { at < 2 ^ 57 }
    ensures { Wrote out.old at (field_bytes (lump_shell_fields number (shell_faces shells.now.boundaries.now shells.now.members.now b))) out.new result × (result ≤ at + 1032) }
{
    let n = count_shell_faces(shells.boundaries, shells.members, b);
    let p = put_fields(out, at, &[number, n]);
    put_shell_faces(shells.boundaries, shells.members, b, out, p)
}

// The fields of each shell.
fn put_shells(shells: &Shells<'_>, out: &mut [u8]) -> usize
    ensures { Wrote out.old 0 (field_bytes (flat_map shell_fields (shells_of shells.now))) out.new result }
{
    let mut p = 0;
    for s in shells.rows {
        let outer = usize::from(s.outer);
        p = put_shell(shells, s.boundary as usize, outer, out, p);
    }
    p
}

// The stage `shells`: outer or void, number of merged faces and the merged faces of each shell.
pub fn write_shells(shells: &Shells<'_>, out: &mut [u8]) -> Result<usize, Refusal>
    ensures { Staged (flat_map shell_fields (shells_of shells.now)) out.old out.new result }
{
    write_fitting(out, |out| put_shells(shells, out))
}

// LUMPS

// The voids of the lump with this home, the lowest merged face of its outer shell, and this number, at a place.
fn put_voids(shells: &Shells<'_>, home: u32, number: usize, out: &mut [u8], at: usize) -> usize
    requires { at < 2 ^ 56 }
    ensures { Wrote out.old at (field_bytes (flat_map (lump_shell_fields number) (voids_of (nested_of shells.now) home))) out.new result × (result ≤ at + 264192) }
{
    let mut p = at;
    for s in shells.rows {
        if s.is_void_of(home) {
            p = put_shell(shells, s.boundary as usize, number, out, p);
        }
    }
    p
}

// An outer shell and its voids after it, as the lump with this number, at a place.
fn put_lump(shells: &Shells<'_>, outer: ShellRow, number: usize, out: &mut [u8], at: usize) -> usize
    requires { at < 2 ^ 55 }
    ensures { let lump = lump_of (nested_of shells.now) (nested_row shells.now outer) in
        Wrote out.old at (field_bytes (flat_map (lump_shell_fields number) lump)) out.new result × (result ≤ at + 265224) }
{
    let p = put_shell(shells, outer.boundary as usize, number, out, at);
    put_voids(shells, outer.home, number, out, p)
}

// The fields of each shell, lump by lump.
fn put_lumps(shells: &Shells<'_>, out: &mut [u8]) -> usize
    ensures { Wrote out.old 0 (field_bytes (lump_fields 0 (lumps (nested_of shells.now)))) out.new result }
{
    let mut p = 0;
    let mut number = 0;
    for s in shells.rows {
        if s.outer {
            p = put_lump(shells, *s, number, out, p);
            number += 1;
        }
    }
    p
}

// The stage `lumps`: number of the lump, number of merged faces and the merged faces of each shell, lump by lump.
pub fn write_lumps(shells: &Shells<'_>, out: &mut [u8]) -> Result<usize, Refusal>
    ensures { Staged (lump_fields 0 (lumps (nested_of shells.now))) out.old out.new result }
{
    write_fitting(out, |out| put_lumps(shells, out))
}
