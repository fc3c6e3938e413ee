// From joining on: the stage `joining`, the shells and their nesting, the tests by lump, the body.

ghost use Rattle.std.specs.Prelude.{◌≡◌, length};
ghost use Rattle.rules.specs.Frame.{framed_all};
ghost use Rattle.rules.specs.Body.{body_records};
ghost use Rattle.rules.specs.Sew.{lumps_clear, body_of, fitting, Ends};
ghost use Rattle.shells.specs.Table.{shells_in, nested_of, Shelled};
ghost use Rattle.progress.specs.Chain.{after_joining, after_shells, after_nesting};
ghost use Rattle.rebuild.specs.Homes.{LowHomes};
ghost use Rattle.rebuild.specs.Tables.{Sized, boundaries_of, members_of};

use crate::clear_edges;
use crate::fanned::{Fans, clear_points};
use body::{Solid, Totals, put_body};
use edges::Joining;
use progress::Walks;
use result_out::{write_joining, write_lumps, write_shells};
use rules::{Fault, MOST_FACES, Refusal, Stage};
use shells::{NO_SHELL, ShellRow, Shells, lump_labels, nest, shells};
use std::marker::Model;

// The fans with the edges and loops over them. Each edge has no ends or two fans. Contracts see those of the definitions.
#[derive(Drop)]
pub struct Drawn<'a> {
    pub fans: &'a Fans<'a>,
    pub joining: &'a Joining<'a>,
}

impl<'a> Model for Drawn<'a> {
    ghost use Rattle.theorems.specs.Linked.{EndsAreFans};
    ghost use Rattle.rebuild.specs.Fanning.{Drawing};

    ghost Value = { Drawing };

    ghost view = { λ d. record { rules = d.fans.now.rules; job = d.fans.now.job; joined = record { fan = d.fans.now.fan; joining = d.joining.now } } };

    ghost invariant = { λ d. EndsAreFans d.joining.now.edges d.fans.now.fan.names };
}

impl<'a> Drawn<'a> {
    // The walks below.
    fn walks(&self) -> &'a Walks<'a>
        ensures { result.now ≡ record { rules = self.now.rules; job = self.now.job; walked = self.now.joined.fan.walk } }
    {
        let f = self.fans;
        f.walks
    }
}

// The stage `joining`, then the shells.
#[tactic(auto, unfolding(progress::specs::Chain::after_joining))]
pub fn on_joined<const USES: usize>(
    stage: Option<Stage>,
    d: &Drawn<'_>,
    out: &mut [u8],
) -> Result<usize, Refusal>
    requires { Sized USES d.now }
    ensures { Ends (after_joining stage d.now.job (length out.old) d.now.joined) out.old out.new result }
{
    // A test in each step and no table of closures: each stage is handed other tables, which a closure could not own.
    if Stage::Joining.is_asked(stage) {
        return write_joining(d.joining, out);
    }
    let w = d.walks();
    let mut table = [NO_SHELL; MOST_FACES];
    let n = shells(w.job, w.faces, &mut table)?;
    on_shelled::<USES>(stage, d, &mut table[..n], out)
}

// The stage `shells`, then their nesting.
fn on_shelled<const USES: usize>(
    stage: Option<Stage>,
    d: &Drawn<'_>,
    table: &mut [ShellRow],
    out: &mut [u8],
) -> Result<usize, Refusal>
    requires { Sized USES d.now × Shelled (boundaries_of d.now) (members_of d.now) table.old }
    ensures { Ends (after_shells stage d.now.job d.now.joined (length out.old) (shells_in (boundaries_of d.now) (members_of d.now) table.old)) out.old out.new result }
{
    let w = d.walks();
    let boundaries = w.faces.boundaries();
    let members = w.faces.members();
    if Stage::Shells.is_asked(stage) {
        let shells = Shells {
            boundaries,
            members,
            rows: table,
        };
        return write_shells(&shells, out);
    }
    nest(w.job, table)?;
    let shells = Shells {
        boundaries,
        members,
        rows: table,
    };
    on_nested::<USES>(stage, d, &shells, out)
}

// 32, then 33: the selected faces labelled by lump.
fn lumps_clear(d: &Drawn<'_>, shells: &Shells<'_>) -> Result<(), Refusal>
    requires { LowHomes (nested_of shells.now) }
    ensures { result ≡ lumps_clear d.now.job d.now.joined.fan (nested_of shells.now) }
{
    let w = d.walks();
    let boundaries = w.faces.boundaries();
    let mut room = [0u32; MOST_FACES];
    let labels = &mut room[..boundaries.len()];
    lump_labels(boundaries, shells.rows, labels);
    clear_points(Fault::FansInLump, d.fans, labels)?;
    clear_edges(Fault::PairsInLump, w, labels)
}

// The stage `lumps`, the tests by lump, then the body.
#[tactic(auto, unfolding(progress::specs::Chain::after_nesting, progress::specs::Chain::after_lumps))]
fn on_nested<const USES: usize>(
    stage: Option<Stage>,
    d: &Drawn<'_>,
    shells: &Shells<'_>,
    out: &mut [u8],
) -> Result<usize, Refusal>
    requires { Sized USES d.now × LowHomes (nested_of shells.now) }
    ensures { Ends (after_nesting stage d.now.job d.now.joined (length out.old) (nested_of shells.now)) out.old out.new result }
{
    if Stage::Lumps.is_asked(stage) {
        return write_lumps(shells, out);
    }
    lumps_clear(d, shells)?;
    write_body::<USES>(d, shells, out)
}

// The body, with tables of numbers for so many uses.
fn write_body<'a, const USES: usize>(
    d: &'a Drawn<'a>,
    shells: &'a Shells<'a>,
    out: &mut [u8],
) -> Result<usize, Refusal>
    requires { Sized USES d.now }
    ensures { Ends (fitting (length out.old) (framed_all (body_records (body_of d.now.job d.now.joined (nested_of shells.now))))) out.old out.new result }
{
    let f = d.fans;
    let w = f.walks;
    let raw = w.job.raw();
    let index = raw.index;
    let j = d.joining;
    let n = w.uses().len();
    let totals = Totals {
        uses: n,
        removed: w.figures.removed,
        passed: w.figures.passed,
        joins: j.joins,
        rings: j.rings,
        merges: w.faces.joins(),
    };
    let solid = Solid {
        totals,
        bytes: raw.bytes,
        index,
        counts: raw.counts,
        groups: w.faces.groups(),
        members: w.faces.members(),
        starts: f.starts,
        joining: j,
        kept: w.kept,
        shells,
    };
    let mut number_table = [0u32; USES];
    let mut vertex_table = [0u32; USES];
    let numbers = &mut number_table[..j.edges.len()];
    let vertices = &mut vertex_table[..n];
    put_body(&solid, numbers, vertices, out)
}
