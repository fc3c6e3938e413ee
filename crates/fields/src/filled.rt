// A table that is filled from its start on.

ghost use Rattle.std.specs.Prelude.{◌≡◌, ◌<◌, ◌≤◌, [], ◌∷◌, ◌++◌, length};

use std::marker::Model;

// A table of `N` places with how many entries it has. Contracts speak of these, and promise nothing of what stands in the
// places left; yet the value that they see has it too, so that it gives all fields back and the table can be `Copy`.
#[derive(Clone, Copy)]
pub struct Filled<T: Copy, const N: usize> {
    table: [T; N],
    count: usize,
}

impl<T: Copy, const N: usize> Model for Filled<T, N> {
    ghost use Rattle.std.specs.Prelude.{◌≡◌, ◌≤◌, ◌++◌, length, take, drop};
    ghost use Rattle.std.proofs.Common.{arith, take-append-drop, length-take-le};
    ghost use Rattle.fields.specs.FilledTable.{FilledTable};

    ghost Value = { FilledTable T };

    ghost view = { λ k. record { entries = take k.count k.table; rest = drop k.count k.table } };

    ghost invariant = { λ k. (k.count ≤ N) × (length k.table ≡ N) };

    ghost inverse = { λ v. record { table = v.entries ++ v.rest; count = length v.entries } };

    ghost inverse_ok = { λ k h i. record {
      table = take-append-drop k.count k.table i;
      count = length-take-le k.count k.table (omega (arith, h.0, h.1)) i;
    } };
}

impl<T: Copy, const N: usize> Filled<T, N> {
    pub fn new(none: T) -> Filled<T, N>
        ensures { result.entries ≡ [] }
    {
        Filled {
            table: [none; N],
            count: 0,
        }
    }

    pub fn len(&self) -> usize
        ensures { result ≡ length self.now.entries }
    {
        self.count
    }

    pub fn as_slice(&self) -> &[T]
        ensures { (result.now ≡ self.now.entries) × (length result.now ≤ N) }
    {
        &self.table[..self.count]
    }

    pub fn push(&mut self, x: T)
        requires { length self.old.entries < N }
        ensures { self.new.entries ≡ self.old.entries ++ x ∷ [] }
    {
        self.table[self.count] = x;
        self.count += 1;
    }
}
