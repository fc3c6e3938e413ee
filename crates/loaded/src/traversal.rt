// The items of a loop, as they stand in the job's bytes: two fields for each. Contracts see them as a list of items.

ghost use Rattle.std.specs.Prelude.{◌≡◌, ◌+◌, ◌*◌, ◌<◌, ◌^◌, length};
ghost use Rattle.rules.specs.Job.{items_of};
ghost use Rattle.theorems.specs.Reading.{item_at};

use job::Fields;
use rules::Item;
use std::marker::Model;

#[derive(Drop)]
pub struct Items<'a> {
    fields: Fields<'a>,
}

impl<'a> Model for Items<'a> {
    ghost use Rattle.std.specs.Prelude.{List};
    ghost use Rattle.rules.specs.declared.Item.{Item};
    ghost use Rattle.rules.specs.Job.{items_of};

    ghost Value = { List Item };

    ghost view = { λ l. items_of l.fields };
}

impl<'a> Items<'a> {
    // The items that some fields are.
    pub fn new(fields: Fields<'a>) -> Items<'a>
        ensures { result ≡ items_of fields.entry }
    {
        Items { fields }
    }

    // How many items there are.
    #[tactic(auto, using(theorems::proofs::Permitted::items_of_length))]
    pub fn len(&self) -> usize
        ensures { (result ≡ length self.now) × (result < 2 ^ 40) }
    {
        self.fields.len() / 2
    }

    // The item at a place.
    #[tactic(auto, using(theorems::proofs::Permitted::items_of_length, job::specs::ItemLaws::items_at))]
    pub fn at(&self, i: usize) -> Item
        requires { i < length self.now }
        ensures { result ≡ item_at self.now i }
    {
        self.fields.item(i)
    }
}
