// The shop's own joining table, as the bytes that a caller supplies: four, rows by answer, columns equal then different.

#![tactic(auto)]

ghost use Rattle.std.specs.Prelude.{◌≡◌, ◌<◌, length};
ghost use Rattle.rules.specs.Rules.{table_of};
ghost use Rattle.joining_table.specs.EntryLaws.{entry_of};

use rules::{FULL_TABLE, Fault, Refusal, Table, TableRow};

// Entry i of a table: whether it is 1. A byte above 1 is refused, and a 1 where document 01 does not join; the place is i.
#[tactic(auto, unfolding(rules::specs::Outcome::need))]
fn entry(bytes: &[u8], i: usize, joins: bool) -> Result<bool, Refusal>
    requires { i < length bytes.now }
    ensures { result ≡ entry_of joins bytes.now i }
{
    match bytes[i] {
        0 => Ok(false),
        1 if joins => Ok(true),
        _ => Err(Fault::WrongTable.at(i)),
    }
}

// The table that some bytes are. The place of a refusal is 4 where they are not four, and else the first faulty byte.
#[tactic(auto, using(crate::specs::EntryLaws::table_entries, crate::specs::EntryLaws::table_length))]
pub fn table_of(bytes: &[u8]) -> Result<Table, Refusal>
    ensures { result ≡ table_of bytes.now }
{
    if bytes.len() != 4 {
        return Err(Fault::WrongTable.at(4));
    }
    let full = FULL_TABLE;
    Ok(Table {
        agreeing: TableRow {
            equal: entry(bytes, 0, full.agreeing.equal)?,
            different: entry(bytes, 1, full.agreeing.different)?,
        },
        opposed: TableRow {
            equal: entry(bytes, 2, full.opposed.equal)?,
            different: entry(bytes, 3, full.opposed.different)?,
        },
    })
}
