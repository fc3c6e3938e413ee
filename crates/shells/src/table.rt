// Shells with the merged faces that they are of.

ghost use Rattle.std.specs.Prelude.{◌≤◌, length};

use crate::ShellRow;

// The boundary of each selected face, the lowest selected face of each merged face, and the table of the shells: no more
// merged faces and shells than a job can have selected faces.
#[derive(Clone, Copy)]
pub struct Shells<'a> {
    pub boundaries: &'a [u32],
    pub members: &'a [u32],
    pub rows: &'a [ShellRow],
    ghost few: { length rows.now ≤ 256 },
    ghost few_members: { length members.now ≤ 256 },
}
