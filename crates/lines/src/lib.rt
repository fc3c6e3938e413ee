// Text on a page of bytes: the lines of a body's records and of a stage's rows, and the line of a refusal. A byte past
// the page's end is not stored, so that no function asks for room; `front` gives what is there.

#![tactic(auto)]

ghost use Rattle.std.specs.Prelude.{◌≡◌, ◌+◌, ◌*◌, ◌<◌, ◌≤◌, ◌^◌, length, take, drop, set};
ghost use mathlib.Core.List.{flat_map};
ghost use Rattle.rules.specs.Fields.{fields_in};
ghost use Rattle.rules.specs.Listing.{decimal, word_of, field_text, vertex_text, line_of, refusal_line, listing_of};
ghost use Rattle.fields.specs.Wrote.{Wrote};
ghost use Rattle.rules.specs.Rows.{row_text};
ghost use Rattle.lines.specs.Text.{parted_text, plain_of, record_at, records_in, recorded, rows_in, joining_rows, stage_rows, stage_text, stage_name, stage_named};

use fields::{half, put_entry, word};
use rules::{Refusal, Stage, UNSET};

// BYTES AND NUMBERS

// The first bytes of a page, so many or all there are.
pub fn front(page: &[u8], count: usize) -> &[u8]
    ensures { result.now ≡ take count page.now }
{
    &page[..count.min(page.len())]
}

// The bytes from a place on.
pub fn back(bytes: &[u8], from: usize) -> &[u8]
    ensures { result.now ≡ drop from bytes.now }
{
    &bytes[from.min(bytes.len())..]
}

// A text at a place; gives the place after it. Byte by byte: a copy would first need the part that has room.
#[tactic(auto, using(crate::specs::Writing::text_more))]
pub fn put_text(page: &mut [u8], at: usize, text: &[u8]) -> usize
    requires { at + length text.now < 2 ^ 60 }
    ensures { Wrote page.old at text.now page.new result }
{
    for (i, b) in text.iter().enumerate() {
        put_entry(page, at + i, *b);
    }
    at + text.len()
}

// The digits of a number at the end of twenty bytes; gives the place of the first. By hand: the definition is stated by
// digits, and `write!` says of its text nothing that a clause could use.
#[tactic(auto, using(crate::specs::Writing::spelled_start, crate::specs::Writing::spelled_last, crate::specs::Writing::spelled_on, crate::specs::Writing::spelled_end))]
fn spell(v: usize, digits: &mut [u8]) -> usize
    requires { length digits.old ≡ 20 }
    ensures within { result ≤ 20 }
    ensures spells { drop result digits.new ≡ decimal v }
{
    let mut rest = v;
    for i in (0..20).rev() {
        digits[i] = (48 + rest % 10) as u8;
        if rest < 10 {
            return i;
        }
        rest = rest / 10;
    }
    0
}

// A number in decimal at a place; gives the place after it.
#[tactic(auto, using(crate::specs::Writing::number_wrote))]
pub fn put_number(page: &mut [u8], at: usize, v: usize) -> usize
    requires { at < 2 ^ 59 }
    ensures { Wrote page.old at (decimal v) page.new result }
{
    let mut digits = [0u8; 20];
    let first = spell(v, &mut digits);
    put_text(page, at, &digits[first..])
}

// A field after a blank.
fn put_field(page: &mut [u8], at: usize, v: usize) -> usize
    requires { at < 2 ^ 58 }
    ensures { Wrote page.old at (field_text v) page.new result }
{
    let p = put_text(page, at, b" ");
    put_number(page, p, v)
}

// A field that is a vertex after a blank, `-` for none.
fn put_vertex(page: &mut [u8], at: usize, v: usize) -> usize
    requires { at < 2 ^ 58 }
    ensures { Wrote page.old at (vertex_text v) page.new result }
{
    if v == UNSET as usize {
        return put_text(page, at, b" -");
    }
    put_field(page, at, v)
}

// The fields at the front of some bytes, so many: the first ones, as many as are plain, are numbers, the others vertices.
#[tactic(auto, using(crate::specs::Writing::parted_none, crate::specs::Writing::parted_short))]
fn put_fields(page: &mut [u8], at: usize, bytes: &[u8], n: usize, plain: usize) -> usize
    requires { (at < 2 ^ 50) × (n < 2 ^ 50) }
    ensures { Wrote page.old at (parted_text plain (fields_in n bytes.now)) page.new result }
{
    let mut p = at;
    // by number: the fields stand in the bytes at every fourth place, and past the end they are read as 0
    for i in 0..n {
        let v = word(bytes, 4 * i);
        p = if i < plain {
            put_field(page, p, v)
        } else {
            put_vertex(page, p, v)
        };
    }
    p
}

// THE LISTING OF A BODY

// The name of a record, by the number that its bytes have for its kind: a body may have any.
#[tactic(auto, using(crate::specs::LineLaws::name_first, crate::specs::LineLaws::name_none), unfolding(rules::specs::Listing::word_of))]
fn put_name(page: &mut [u8], at: usize, kind: usize) -> usize
    requires { at < 2 ^ 58 }
    ensures { Wrote page.old at (word_of kind) page.new result }
{
    match kind {
        0..=21 => put_text(page, at, b"body"),
        22 => put_text(page, at, b"vertex"),
        23 => put_text(page, at, b"edge"),
        24 => put_text(page, at, b"face"),
        25 => put_text(page, at, b"loop"),
        26 => put_text(page, at, b"vertex-loop"),
        27 => put_text(page, at, b"lump"),
        28 => put_text(page, at, b"shell"),
        29 => put_text(page, at, b"members"),
        _ => at,
    }
}

// How many fields of a record of a kind are no vertices: of an edge's the first two. The kind is the number that the bytes
// have, as in `put_name`.
#[tactic(auto, unfolding(crate::specs::Text::plain_of))]
fn plain_fields(kind: usize, n: usize) -> usize
    ensures { (result ≡ plain_of kind n) × (result ≤ n) }
{
    if kind == 23 {
        return n.min(2);
    }
    n
}

// The line of the record at the front of some bytes.
#[tactic(auto, using(crate::specs::LineLaws::name_short, crate::specs::Writing::parted_short))]
fn put_line(page: &mut [u8], at: usize, bytes: &[u8]) -> usize
    requires { at < 2 ^ 40 }
    ensures { Wrote page.old at (line_of (record_at bytes.now)) page.new result }
{
    let kind = half(bytes, 4);
    let n = word(bytes, 0) / 4;
    let p = put_name(page, at, kind);
    let q = put_fields(page, p, back(bytes, 6), n, plain_fields(kind, n));
    put_text(page, q, b"\n")
}

// A line for each record of a body. Where the next record begins is known only once this one's length is read.
pub fn put_lines(page: &mut [u8], body: &[u8]) -> usize
    requires { length body.now < 4294967296 }
    ensures { Wrote page.old 0 (flat_map line_of (records_in body.now)) page.new result }
{
    let mut p: usize = 0;
    let mut rest = body;
    while !rest.is_empty() {
        p = put_line(page, p, rest);
        rest = back(rest, 6 + word(rest, 0));
    }
    p
}

// The line of a refusal, by its number: callers of the C interface have no other.
#[tactic(auto, using(crate::specs::Writing::number_short))]
pub fn put_refusal(page: &mut [u8], number: usize, place: usize) -> usize
    ensures { Wrote page.old 0 (refusal_line number place) page.new result }
{
    let p = put_text(page, 0, b"refused");
    let q = put_field(page, p, number);
    let r = put_field(page, q, place);
    put_text(page, r, b"\n")
}

// The listing of sewing's answer, with the body at the start of the output.
#[tactic(auto, using(crate::specs::LineLaws::part_small, crate::specs::LineLaws::listed_body, crate::specs::LineLaws::listed_refusal))]
pub fn put_listing(page: &mut [u8], out: &[u8], ending: Result<usize, Refusal>) -> usize
    requires { length out.now < 4294967296 }
    ensures { Wrote page.old 0 (listing_of (recorded out.now ending)) page.new result }
{
    match ending {
        Ok(n) => put_lines(page, front(out, n)),
        Err(refusal) => put_refusal(page, refusal.fault.number(), refusal.place),
    }
}

// THE ROWS OF A STAGE

// The row at the front of some bytes, of so many fields, at least one, with a blank between two.
#[tactic(auto, using(crate::specs::Writing::decimal_short, crate::specs::Writing::parted_short))]
fn put_row(page: &mut [u8], at: usize, row: &[u8], n: usize) -> usize
    requires { (at < 2 ^ 44) × (0 < n) × (n < 2 ^ 40) }
    ensures { Wrote page.old at (row_text (fields_in n row.now)) page.new result }
{
    let p = put_number(page, at, word(row, 0));
    let q = put_fields(page, p, back(row, 4), n - 1, n - 1);
    put_text(page, q, b"\n")
}

// The rows of some bytes: each has `fixed` fields, and `counted` more for each that its second field
// counts. Where the next row begins is known only once this one's second field is read.
#[tactic(auto, using(crate::specs::LineLaws::counted_small))]
fn put_rows(page: &mut [u8], at: usize, bytes: &[u8], fixed: usize, counted: usize) -> usize
    requires { (at < 2 ^ 43) × (length bytes.now < 4294967296) × (0 < fixed) × (fixed ≤ 7) × (counted ≤ 2) }
    ensures { Wrote page.old at (flat_map row_text (rows_in fixed counted bytes.now)) page.new result × (result < at + 2 ^ 40) }
{
    let mut p = at;
    let mut rest = bytes;
    while !rest.is_empty() {
        let n = fixed + counted * word(rest, 4);
        p = put_row(page, p, rest, n);
        rest = back(rest, 4 * n);
    }
    p
}

// Edges and joining: the counts, so many edges, then the loops.
fn put_joining(page: &mut [u8], bytes: &[u8]) -> usize
    requires { length bytes.now < 4294967296 }
    ensures { Wrote page.old 0 (flat_map row_text (joining_rows bytes.now)) page.new result }
{
    let counts = front(bytes, 12);
    let rest = back(bytes, 12);
    let end = 28 * word(bytes, 8);
    let edges = front(rest, end);
    let loops = back(rest, end);
    let p = put_rows(page, 0, counts, 3, 0);
    let q = put_rows(page, p, edges, 7, 0);
    put_rows(page, q, loops, 2, 2)
}

// A line for each row of a stage.
#[tactic(auto, using(crate::specs::LineLaws::stage_edges), unfolding(crate::specs::Text::stage_rows))]
fn put_stage_rows(page: &mut [u8], stage: Stage, bytes: &[u8]) -> usize
    requires { length bytes.now < 4294967296 }
    ensures { Wrote page.old 0 (flat_map row_text (stage_rows stage bytes.now)) page.new result }
{
    match stage {
        Stage::Edges | Stage::Joining => put_joining(page, bytes),
        Stage::Read => put_rows(page, 0, bytes, 4, 0),
        Stage::Pair => put_rows(page, 0, bytes, 1, 0),
        Stage::Merge | Stage::VertexLoops => put_rows(page, 0, bytes, 2, 0),
        Stage::Walk | Stage::Fans => put_rows(page, 0, bytes, 3, 0),
        Stage::Loops | Stage::Shells | Stage::Lumps => put_rows(page, 0, bytes, 2, 1),
    }
}

// The lines of a stage's answer, with its fields at the start of the output.
#[tactic(auto, using(crate::specs::LineLaws::part_small, crate::specs::LineLaws::staged_rows_lem, crate::specs::LineLaws::staged_refusal))]
pub fn put_stage(page: &mut [u8], stage: Stage, out: &[u8], ending: Result<usize, Refusal>) -> usize
    requires { length out.now < 4294967296 }
    ensures { Wrote page.old 0 (stage_text stage out.now ending) page.new result }
{
    match ending {
        Ok(n) => put_stage_rows(page, stage, front(out, n)),
        Err(refusal) => put_refusal(page, refusal.fault.number(), refusal.place),
    }
}

// The name of a stage.
#[tactic(auto, unfolding(crate::specs::Text::stage_name))]
fn stage_name(stage: Stage) -> &'static [u8]
    ensures { result.now ≡ stage_name stage }
{
    match stage {
        Stage::Read => b"read",
        Stage::Pair => b"pair",
        Stage::Merge => b"merge",
        Stage::VertexLoops => b"vertex-loops",
        Stage::Walk => b"walk",
        Stage::Loops => b"loops",
        Stage::Fans => b"fans",
        Stage::Edges => b"edges",
        Stage::Joining => b"joining",
        Stage::Shells => b"shells",
        Stage::Lumps => b"lumps",
    }
}

// The stages in their order.
const STAGES: [Stage; 11] = [
    Stage::Read,
    Stage::Pair,
    Stage::Merge,
    Stage::VertexLoops,
    Stage::Walk,
    Stage::Loops,
    Stage::Fans,
    Stage::Edges,
    Stage::Joining,
    Stage::Shells,
    Stage::Lumps,
];

// The stage of a name, if there is one.
#[tactic(auto, using(lists::specs::SameLists::pointwise_same), unfolding(crate::specs::Text::stage_named))]
pub fn stage_named(name: &[u8]) -> Option<Stage>
    ensures { result ≡ stage_named name.now }
{
    STAGES
        .iter()
        .copied()
        .find(|stage| name == stage_name(*stage))
}
