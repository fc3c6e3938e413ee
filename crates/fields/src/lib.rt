// Fields of bytes, and tables of 32-bit numbers, by place. A place past the end reads as 0 and takes no store, as in
// the definitions, so that no caller has to show that a place exists.

#![tactic(auto)]

ghost use Rattle.std.specs.Prelude.{◌≡◌, ◌+◌, ◌*◌, ◌<◌, ◌^◌, false, length, get_or, set};
ghost use Rattle.std.proofs.lemmas.List.Edits.{sets};
ghost use Rattle.rules.specs.Fields.{le16, le32, bytes32, field_bytes};
ghost use Rattle.fields.specs.Wrote.{Wrote};
ghost use Rattle.fields.specs.Spans.{span_at, place_after};
ghost use Rattle.fields.specs.Chains.{chain, next_in, Falling};

mod filled;

pub use filled::Filled;
use std::marker::Model;
use std::ops::Range;

// The entry at a place of a table; past its end, another.
pub fn entry<T: Copy>(t: &[T], i: usize, none: T) -> T
    ensures { result ≡ get_or t.now i none }
{
    t.get(i).copied().unwrap_or(none)
}

// An entry stored at a place of a table; past its end nothing is.
pub fn put_entry<T: Copy>(t: &mut [T], i: usize, x: T)
    ensures { t.new ≡ set t.old i x }
{
    if i < t.len() {
        t[i] = x;
    }
}

// The two-byte field at a place.
#[tactic(auto, unfolding(rules::specs::Fields::le16))]
pub fn half(s: &[u8], at: usize) -> usize
    requires { at < 2 ^ 60 }
    ensures { (result ≡ le16 s.now at) × (result < 65536) }
{
    u16::from_le_bytes([entry(s, at, 0), entry(s, at + 1, 0)]) as usize
}

// A four-byte field that lies inside: its bytes need no test each, so it is read at once.
#[tactic(auto, unfolding(rules::specs::Fields::le32))]
fn whole_word(s: &[u8], at: usize) -> usize
    requires { (at < 2 ^ 60) × (at + 3 < length s.now) }
    ensures { (result ≡ le32 s.now at) × (result < 4294967296) }
{
    u32::from_le_bytes([s[at], s[at + 1], s[at + 2], s[at + 3]]) as usize
}

// The four-byte field at a place.
#[tactic(auto, unfolding(rules::specs::Fields::le32))]
pub fn word(s: &[u8], at: usize) -> usize
    requires { at < 2 ^ 60 }
    ensures { (result ≡ le32 s.now at) × (result < 4294967296) }
{
    if at + 3 < s.len() {
        return whole_word(s, at);
    }
    let low = entry(s, at, 0);
    let second = entry(s, at + 1, 0);
    let third = entry(s, at + 2, 0);
    u32::from_le_bytes([low, second, third, entry(s, at + 3, 0)]) as usize
}

// A number as four bytes that lie inside: stored at once.
#[tactic(auto, using(lists::specs::StoreRuns::sets_part), unfolding(rules::specs::Fields::bytes32))]
fn put_whole_word(out: &mut [u8], at: usize, v: usize)
    requires { (at < 2 ^ 60) × (at + 3 < length out.old) }
    ensures { out.new ≡ sets out.old at (bytes32 v) }
{
    out[at..at + 4].copy_from_slice(&v.to_le_bytes()[..4]);
}

// A number as four bytes at a place; gives the place after them.
#[tactic(auto, using(crate::specs::Wrote::four_stores), unfolding(rules::specs::Fields::bytes32))]
pub fn put_word(out: &mut [u8], at: usize, v: usize) -> usize
    requires { at < 2 ^ 60 }
    ensures { Wrote out.old at (bytes32 v) out.new result }
{
    if at + 3 < out.len() {
        put_whole_word(out, at, v);
        return at + 4;
    }
    let [low, second, third, high, ..] = v.to_le_bytes();
    put_entry(out, at, low);
    put_entry(out, at + 1, second);
    put_entry(out, at + 2, third);
    put_entry(out, at + 3, high);
    at + 4
}

// The entry of a table.
pub fn get(t: &[u32], i: usize) -> usize
    ensures { (result ≡ get_or t.now i 0) × (result < 4294967296) }
{
    entry(t, i, 0) as usize
}

// A number stored in a table.
pub fn put(t: &mut [u32], i: usize, v: usize)
    requires { v < 4294967296 }
    ensures { t.new ≡ set t.old i v }
{
    put_entry(t, i, v as u32);
}

// The entry of a table of flags.
pub fn is_set(t: &[bool], i: usize) -> bool
    ensures { result ≡ get_or t.now i false }
{
    entry(t, i, false)
}

// STRETCHES

// A stretch of a list, from one place up to another: where a loop lies among the uses or the items of all loops.
#[derive(Clone, Copy)]
pub struct Span {
    pub start: u32,
    pub end: u32,
}

impl Span {
    // The places of the stretch.
    #[inline(always)]
    pub fn range(self) -> Range<usize>
        ensures { (result.start ≡ self.start) × (result.end ≡ self.end) }
    {
        self.start as usize..self.end as usize
    }
}

// An empty stretch, which a table holds before it is filled.
pub const NO_SPAN: Span = Span { start: 0, end: 0 };

// A stretch of a table; past its end, an empty one.
pub fn span_at(spans: &[Span], k: usize) -> Span
    ensures { result ≡ span_at spans.now k }
{
    entry(spans, k, NO_SPAN)
}

// The place after one in the stretch from `start` to `end`: after its last, where it starts.
#[tactic(auto, unfolding(crate::specs::Spans::place_after))]
pub fn place_after(start: usize, end: usize, i: usize) -> usize
    requires { (start < 4294967296) × (i < end) × (end < 4294967296) }
    ensures { (result ≡ place_after start end i) × (result < 4294967296) }
{
    if i + 1 == end {
        return start;
    }
    i + 1
}

// CHAINS

// The numbers that a chain in a table has from an entry on. An entry is a number plus one, the table has the entry after
// each number, and 0 ends a chain. Entries fall along a chain, so that it ends.
#[derive(Drop)]
pub struct Chain<'a> {
    nexts: &'a [u32],
    entry: usize,
}

impl<'a> Model for Chain<'a> {
    ghost use Rattle.std.specs.Prelude.{ℕ, List};
    ghost use Rattle.fields.specs.Chains.{chain, next_in, Falling};

    ghost Value = { List ℕ };

    ghost view = { λ c. chain (next_in c.nexts.now) c.entry };

    ghost invariant = { λ c. Falling (next_in c.nexts.now) };
}

impl<'a> Chain<'a> {
    pub fn new(nexts: &'a [u32], entry: usize) -> Chain<'a>
        requires { Falling (next_in nexts.now) }
        ensures { result ≡ chain (next_in nexts.now) entry }
    {
        Chain { nexts, entry }
    }
}

impl<'a> Iterator for Chain<'a> {
    ghost use Rattle.std.specs.Iterator.{YieldsFirst, item_count};

    type Item = usize;

    ghost next_gives = { YieldsFirst (λ numbers. numbers) };

    ghost remaining = { item_count (λ numbers. numbers) };

    #[inline(always)]
    #[tactic(auto, using(crate::specs::Chains::chain_more, crate::specs::Chains::chain_end))]
    fn next(&mut self) -> Option<usize> {
        if self.entry == 0 {
            return None;
        }
        let k = self.entry - 1;
        self.entry = get(self.nexts, k);
        Some(k)
    }
}

// RECORDS

// The numbers of a table as four-byte fields at a place; gives the place after them.
pub fn put_table(out: &mut [u8], at: usize, t: &[u32]) -> usize
    requires { at + 4 * length t.now < 2 ^ 60 }
    ensures { Wrote out.old at (field_bytes t.now) out.new result }
{
    let mut p = at;
    for x in t {
        p = put_word(out, p, *x as usize);
    }
    p
}

// So many numbers as four-byte fields at a place; gives the place after them. Always inlined: the array is then never made.
#[inline(always)]
pub fn put_fields<const N: usize>(out: &mut [u8], at: usize, fields: &[usize; N]) -> usize
    requires { at + 4 * N < 2 ^ 60 }
    ensures { Wrote out.old at (field_bytes fields.now) out.new result × (result ≡ at + 4 * N) }
{
    let mut p = at;
    for field in fields {
        p = put_word(out, p, *field);
    }
    p
}
