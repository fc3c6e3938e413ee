// Fields of the job's bytes, one after another, read where they stand. Contracts see them as the definitions do: as a list.

ghost use Rattle.std.specs.Prelude.{◌≡◌, ◌+◌, ◌*◌, ◌<◌, ◌^◌, length, get_or, drop};
ghost use Rattle.rules.specs.Fields.{fields_in};
ghost use Rattle.job.specs.Lists.{item_in};

use fields::word;
use rules::{Item, Sense};
use std::marker::Model;

// So many fields from a byte on. What reads one is inlined: a call would cost more than the reading.
#[derive(Clone, Drop)]
pub struct Fields<'a> {
    bytes: &'a [u8],
    from: usize,
    count: usize,
}

impl<'a> Model for Fields<'a> {
    ghost use Rattle.std.specs.Prelude.{ℕ, List, drop, ◌+◌, ◌*◌, ◌<◌, ◌^◌};
    ghost use Rattle.rules.specs.Fields.{fields_in};

    ghost Value = { List ℕ };

    ghost view = { λ f. fields_in f.count (drop f.from f.bytes.now) };

    ghost invariant = { λ f. (f.from + 4 * f.count < 2 ^ 59) × (f.count < 2 ^ 40) };
}

impl<'a> Fields<'a> {
    #[inline(always)]
    pub fn new(bytes: &'a [u8], from: usize, count: usize) -> Fields<'a>
        requires { (from + 4 * count < 2 ^ 59) × (count < 2 ^ 40) }
        ensures { result ≡ fields_in count (drop from bytes.now) }
    {
        Fields { bytes, from, count }
    }

    // How many there are.
    #[tactic(auto, using(rules::proofs::FieldLaws::length_fields))]
    #[inline(always)]
    pub fn len(&self) -> usize
        ensures { (result ≡ length self.now) × (result < 2 ^ 40) }
    {
        self.count
    }

    // The field at a place.
    #[tactic(auto, using(rules::proofs::FieldLaws::length_fields, rules::proofs::FieldLaws::field_in))]
    #[inline(always)]
    pub fn at(&self, i: usize) -> u32
        requires { i < length self.now }
        ensures { result ≡ get_or self.now i 0 }
    {
        word(self.bytes, self.from + 4 * i) as u32
    }

    // Item k, of two fields, which are found by one place in the bytes.
    #[tactic(auto, using(rules::proofs::FieldLaws::length_fields, crate::specs::ItemLaws::item_stands))]
    #[inline(always)]
    pub fn item(&self, k: usize) -> Item
        requires { 2 * k + 1 < length self.now }
        ensures { result ≡ item_in self.now k }
    {
        let p = self.from + 8 * k;
        Item {
            edge: word(self.bytes, p) as u32,
            sense: Sense::from(word(self.bytes, p + 4)),
        }
    }

    // All of them, from the first on.
    pub fn iter(&self) -> Fields<'a>
        ensures { result ≡ self.now }
    {
        Fields {
            bytes: self.bytes,
            from: self.from,
            count: self.count,
        }
    }
}

impl<'a> Iterator for Fields<'a> {
    ghost use Rattle.std.specs.Iterator.{YieldsFirst, item_count};

    type Item = u32;

    ghost next_gives = { YieldsFirst (λ numbers. numbers) };

    ghost remaining = { item_count (λ numbers. numbers) };

    #[inline(always)]
    #[tactic(auto, using(crate::specs::FieldLaws::fields_more, crate::specs::FieldLaws::fields_none))]
    fn next(&mut self) -> Option<u32> {
        if self.count == 0 {
            return None;
        }
        let x = word(self.bytes, self.from) as u32;
        self.from += 4;
        self.count -= 1;
        Some(x)
    }
}
