// Numbers from 0 of edges or of fans.

ghost use Rattle.std.specs.Prelude.{◌≡◌};
ghost use Rattle.body.specs.Numbers.{number_in};

use fields::get;

// A table that has each number plus one, and 0 for none; and how many numbers there are.
#[derive(Clone, Copy)]
pub struct Numbers<'a> {
    pub table: &'a [u32],
    pub count: usize,
}

impl<'a> Numbers<'a> {
    // The number of v; without a number, how many numbers there are.
    #[tactic(auto, unfolding(crate::specs::Numbers::number_of))]
    pub fn of(&self, v: usize) -> usize
        ensures { result ≡ number_in self.now v }
    {
        let n = get(self.table, v);
        if n == 0 {
            return self.count;
        }
        n - 1
    }
}
