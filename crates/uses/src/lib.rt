// The uses of a job, lent as a slice of records. A use past the end is all zeros, as in the definitions, so that no caller
// has to show that a use exists.

#![tactic(auto)]

ghost use Rattle.std.specs.Prelude.{◌≡◌, ◌<◌};
ghost use Rattle.rules.specs.Read.{use_at, face_of_use, old_successor};

use fields::entry;
use rules::{Sense, Use};

// What stands for a use past the end.
pub const NO_USE: Use = Use {
    edge: 0,
    face: 0,
    sense: Sense::Same,
    next: 0,
};

// Use h: its edge, face, sense and old successor.
pub fn use_at(uses: &[Use], h: usize) -> Use
    ensures { result ≡ use_at uses.now h }
{
    entry(uses, h, NO_USE)
}

pub fn use_edge(uses: &[Use], h: usize) -> usize
    ensures { (result ≡ (use_at uses.now h).edge) × (result < 4294967296) }
{
    use_at(uses, h).edge as usize
}

pub fn use_face(uses: &[Use], h: usize) -> usize
    ensures { (result ≡ face_of_use uses.now h) × (result < 4294967296) }
{
    use_at(uses, h).face as usize
}

// The old successor.
pub fn use_next(uses: &[Use], h: usize) -> usize
    ensures { (result ≡ old_successor uses.now h) × (result < 4294967296) }
{
    use_at(uses, h).next as usize
}
