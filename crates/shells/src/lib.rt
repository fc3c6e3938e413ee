// Shells: outer or void, the outer shell that encloses each void, and the faces labelled by lump.

#![tactic(auto)]

ghost use Rattle.std.specs.Prelude.{◌≡◌, ℕ, ◌≤◌, List, map, length, get_or, take, Ok, IfOk, OnOk};
ghost use Rattle.rules.specs.Outcome.{◌>>=◌ as ◌and_then◌};
ghost use Rattle.rules.specs.Groups.{lowest_members, Lowest};
ghost use Rattle.rules.specs.Shells.{shell_faces, shells as shells_by, nested, innermost, enclosing_shell, none, shell, lump_labels};
ghost use Rattle.shells.specs.Table.{row_at, is_void, shells_in, nested_in, Shelled};
ghost use Rattle.shells.specs.Steps.{LowFaces, outer_by, shell_by, outers_in, taken_of, taken_after, home_of};

mod table;

use fields::{entry, get, put};
use loaded::Loaded;
use merge_faces::Faces;
use rules::{Fault, MOST_FACES, Refusal};
pub use table::Shells;

// A shell: the label of the boundary that it is, its lowest merged face, whether it is outer, and the lowest merged face of
// the outer shell of its lump, once that is known.
#[derive(Clone, Copy)]
pub struct ShellRow {
    pub boundary: u32,
    pub low: u32,
    pub outer: bool,
    // 0 until nested, as a number: each reader of a nested table would unwrap what `nest` promises.
    pub home: u32,
}

impl ShellRow {
    // A void of the lump whose outer shell has the lowest merged face `home`.
    #[inline(always)]
    pub fn is_void_of(self, home: u32) -> bool
        ensures { result ≡ is_void home self }
    {
        !self.outer && self.home == home
    }
}

// What a table of shells holds before it is filled, and what is read past its end.
pub const NO_SHELL: ShellRow = ShellRow {
    boundary: 0,
    low: 0,
    outer: false,
    home: 0,
};

// Shell k of a table.
pub fn shell_at(table: &[ShellRow], k: usize) -> ShellRow
    ensures { result ≡ row_at table.now k }
{
    entry(table, k, NO_SHELL)
}

// SHELLS

// The lowest merged face of each boundary: the merged faces from the last to the first, each over those after it.
fn low_faces(faces: &Faces) -> [u32; MOST_FACES]
    ensures { LowFaces faces.now.boundaries faces.now.members result }
{
    let mut lows = [0u32; MOST_FACES];
    let boundaries = faces.boundaries();
    let members = faces.members();
    for (f, m) in members.iter().enumerate().rev() {
        put(&mut lows, get(boundaries, *m as usize), f);
    }
    lows
}

// Outer if Head says so or by kind 12, for the shell's lowest face.
#[tactic(auto, unfolding(crate::specs::Steps::outer_by))]
fn is_outer(job: &Loaded<'_>, low: u32) -> Result<bool, Refusal>
    ensures { result ≡ outer_by job.now.answers job.now.proven low }
{
    if job.is_proven() {
        return Ok(true);
    }
    ask::ask_outer(&job.indexed(), low)
}

// The shell of the boundary with label b, with no outer shell of its lump yet.
fn shell_of(job: &Loaded<'_>, lows: &[u32], b: u32) -> Result<ShellRow, Refusal>
    ensures { result ≡ shell_by job.now.answers job.now.proven lows.now b }
{
    let low = entry(lows, b as usize, 0);
    let outer = is_outer(job, low)?;
    Ok(ShellRow {
        boundary: b,
        low,
        outer,
        home: 0,
    })
}

// The shells in the order of their boundaries' lowest faces, each asked about in that order. Gives how many shells there are.
pub fn shells(job: &Loaded<'_>, faces: &Faces, table: &mut [ShellRow]) -> Result<usize, Refusal>
    requires { length table.old ≡ 256 }
    ensures { ((result and_then λ n. Ok (shells_in faces.now.boundaries faces.now.members (take n table.new)))
        ≡ shells_by job.now.answers job.now.proven (map (shell_faces faces.now.boundaries faces.now.members) (lowest_members faces.now.boundaries)))
        × IfOk result (λ n. (n ≤ length faces.now.boundaries) × (n ≤ length table.new) × Shelled faces.now.boundaries faces.now.members (take n table.new)) }
{
    let lows = low_faces(faces);
    let boundaries = faces.boundaries();
    let mut count = 0;
    for (b, label) in boundaries.iter().enumerate() {
        if *label as usize == b {
            table[count] = shell_of(job, &lows, *label)?;
            count += 1;
        }
    }
    Ok(count)
}

// NESTING: a shell is told by its lowest merged face.

// The outer shell taken for a void after a later one that contains it: replaced by the later one if that lies inside.
fn nearer(job: &Loaded<'_>, taken: Option<u32>, later: u32) -> Result<u32, Refusal>
    ensures { (result and_then λ o. Ok (shell o)) ≡ innermost job.now.answers (taken_of taken) later }
{
    let Some(now) = taken else {
        return Ok(later);
    };
    let inside = ask::ask_inside(&job.indexed(), later, now)?;
    Ok(if inside { later } else { now })
}

// The outer shell taken for a void after the outer shell o.
#[tactic(auto, unfolding(crate::specs::Steps::taken_after))]
fn taken_after(
    job: &Loaded<'_>,
    void: u32,
    taken: Option<u32>,
    o: u32,
) -> Result<Option<u32>, Refusal>
    ensures { (result and_then λ t. Ok (taken_of t)) ≡ taken_after job.now.answers void o (taken_of taken) }
{
    if ask::ask_inside(&job.indexed(), void, o)? {
        return Ok(Some(nearer(job, taken, o)?));
    }
    Ok(taken)
}

// The innermost of the outer shells that contain a void, among all shells in order.
fn enclosing_shell(job: &Loaded<'_>, shells: &[ShellRow], void: u32) -> Result<Option<u32>, Refusal>
    ensures { (result and_then λ t. Ok (taken_of t)) ≡ enclosing_shell job.now.answers void (outers_in shells.now) none }
{
    let mut taken = None;
    for s in shells {
        if s.outer {
            taken = taken_after(job, void, taken, s.low)?;
        }
    }
    Ok(taken)
}

// The outer shell of shell k's lump: itself, or the one that encloses it; 34 where none does.
#[tactic(auto, unfolding(crate::specs::Steps::home_of))]
fn home(job: &Loaded<'_>, shells: &[ShellRow], k: usize) -> Result<u32, Refusal>
    ensures { result ≡ home_of job.now.answers (outers_in shells.now) (row_at shells.now k).low (row_at shells.now k).outer }
{
    let shell = shell_at(shells, k);
    if shell.outer {
        return Ok(shell.low);
    }
    let outer = enclosing_shell(job, shells, shell.low)?;
    outer.ok_or(Fault::NoOuterShell.at(shell.low as usize))
}

// The outer shell of each shell's lump.
pub fn nest(job: &Loaded<'_>, table: &mut [ShellRow]) -> Result<(), Refusal>
    ensures { (boundaries members : List ℕ) → Shelled boundaries members table.old
        → ((result and_then λ _. Ok (nested_in boundaries members table.new)) ≡ nested job.now.answers (shells_in boundaries members table.old))
        × OnOk result (Shelled boundaries members table.new) }
{
    // by number: a turn reads all shells of the table, and writes one
    for k in 0..table.len() {
        table[k].home = home(job, table, k)?;
    }
    Ok(())
}

// LUMPS

// The selected faces labelled by lump, each by the lowest merged face of its outer shell: the home of the next shell, or the
// label of its boundary's lowest face.
pub fn lump_labels(boundaries: &[u32], nested: &[ShellRow], labels: &mut [u32])
    requires { Lowest boundaries.now × (length labels.old ≡ length boundaries.now) }
    ensures { (bs members : List ℕ) → labels.new ≡ lump_labels boundaries.now (nested_in bs members nested.now) }
{
    let mut count: usize = 0;
    for (f, label) in boundaries.iter().enumerate() {
        let b = *label as usize;
        if b == f {
            put(labels, f, shell_at(nested, count).home as usize);
            count += 1;
        } else {
            put(labels, f, get(labels, b));
        }
    }
}
