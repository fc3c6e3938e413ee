// From the fans on: the stage `fans`, the edges and loops of the result, the stage `edges`, joining.

ghost use Rattle.std.specs.Prelude.{◌≡◌, ◌≤◌, length, take};
ghost use Rattle.rules.specs.Contact.{points_clear, one_fan_each};
ghost use Rattle.rules.specs.Sew.{unjoined, Ends};
ghost use Rattle.maximal_edges.specs.Joined.{state_in};
ghost use Rattle.progress.specs.Chain.{after_fans, after_edges};
ghost use Rattle.rebuild.specs.Lined.{Roomy, Lined};

use crate::drawn::{Drawn, on_joined};
use contact::{LabelledFans, points_clear};
use edges::{Joining, NO_EDGE, Sides};
use fields::{NO_SPAN, Span};
use maximal_edges::maximal_edges;
use progress::Walks;
use result_out::{write_fans, write_joining};
use rules::{EdgeData, Fault, Profile, Refusal, Stage};
use std::marker::Model;

// The walks with the fan of each use, the fans by name, and the point where each use starts. Contracts see the fans of the
// definitions.
#[derive(Drop)]
pub struct Fans<'a> {
    pub walks: &'a Walks<'a>,
    pub fans: &'a [u32],
    pub names: &'a [u32],
    pub starts: &'a [u32],
}

impl<'a> Model for Fans<'a> {
    ghost use Rattle.std.specs.Prelude.{◌≡◌};
    ghost use Rattle.rules.specs.Sew.{fans_of};
    ghost use Rattle.rebuild.specs.Fanning.{Fanning};

    ghost Value = { Fanning };

    ghost view = { λ f. record { rules = f.walks.now.rules; job = f.walks.now.job; fan = record { walk = f.walks.now.walked; fans = f.fans.now; names = f.names.now; starts = f.starts.now } } };

    ghost invariant = { λ f. record { walk = f.walks.now.walked; fans = f.fans.now; names = f.names.now; starts = f.starts.now } ≡ fans_of f.walks.now.job f.walks.now.walked };
}

// 31 by boundary, 32 by lump, 42 with no labels: no two fans at one point have the same label.
#[tactic(auto, unfolding(rules::specs::Sew::walks_of))]
pub fn clear_points(fault: Fault, f: &Fans<'_>, labels: &[u32]) -> Result<(), Refusal>
    ensures { result ≡ points_clear fault f.now.fan.walk.uses f.now.fan.starts labels.now f.now.fan.names }
{
    let w = f.walks;
    let fans = LabelledFans {
        uses: w.uses(),
        starts: f.starts,
        labels,
        names: f.names,
    };
    points_clear(fault, &fans)
}

// 42: a print shop wants one fan at each point. With no labels at all every face has the same, so that the test by label
// finds any two fans at a point.
#[tactic(auto, using(theorems::proofs::Unlabelled::unlabelled))]
fn one_fan_each(f: &Fans<'_>) -> Result<(), Refusal>
    ensures { result ≡ one_fan_each f.now.rules.profile f.now.fan.starts f.now.fan.names }
{
    let w = f.walks;
    match w.rules.profile {
        Profile::AnyContact => Ok(()),
        Profile::PrintShop => clear_points(Fault::ManyFans, f, &[]),
    }
}

// The stage `fans`, then 42 and 31.
#[tactic(auto, unfolding(progress::specs::Chain::after_fans, rules::specs::Sew::walks_of))]
pub fn on_fanned<const USES: usize>(
    stage: Option<Stage>,
    f: &Fans<'_>,
    out: &mut [u8],
) -> Result<usize, Refusal>
    requires { (length f.now.fan.walk.uses ≤ USES) × (USES ≤ 2048) }
    ensures { Ends (after_fans f.now.rules stage f.now.job (length out.old) f.now.fan) out.old out.new result }
{
    let w = f.walks;
    // A test in each step and no table of closures: each stage is handed other tables, which a closure could not own.
    if Stage::Fans.is_asked(stage) {
        return write_fans(&w.kept_uses(), f.fans, f.starts, out);
    }
    one_fan_each(f)?;
    clear_points(Fault::FansInBoundary, f, w.faces.boundaries())?;
    draw_in_tables::<USES>(stage, f, out)
}

// How many edges and loops there are.
#[derive(Clone, Copy)]
struct Lengths {
    edges: usize,
    loops: usize,
}

// The loops of the walks as items of edges: the edges, the items of all loops, the stretch and the merged face of each loop.
// The tables are lent: they are as long as the caller's size parameter says and stand on its stack, where joining works on
// them.
fn make_edges(
    f: &Fans<'_>,
    rows: &mut [EdgeData],
    owns: &mut [u32],
    items: &mut [u32],
    stretches: &mut [Span],
    faces: &mut [u32],
) -> Lengths
    requires { Roomy (length f.now.fan.walk.uses) rows.old owns.old items.old stretches.old faces.old }
    ensures { Lined f.now rows.new result.edges items.new (take result.loops stretches.new) (take result.loops faces.new) × (result.loops ≤ length f.now.fan.walk.uses) }
{
    let w = f.walks;
    let uses = w.uses();
    let loops = walk::loops(&w.steps(), items, stretches);
    edges::loop_faces(
        uses,
        w.faces.numbers(),
        items,
        &stretches[..loops],
        &mut faces[..loops],
    );
    let sides = Sides {
        job: w.job,
        uses,
        twins: w.twins,
        removed: w.removed,
        numbers: w.faces.numbers(),
        succ: w.succ,
        fans: f.fans,
    };
    let edges = edges::edges(&sides, rows, owns);
    edges::items(uses, owns, items);
    Lengths { edges, loops }
}

// The edges and loops in tables for so many uses, then what is built on them.
#[tactic(auto, unfolding(rules::specs::Sew::walks_of))]
fn draw_in_tables<const USES: usize>(
    stage: Option<Stage>,
    f: &Fans<'_>,
    out: &mut [u8],
) -> Result<usize, Refusal>
    requires { (length f.now.fan.walk.uses ≤ USES) × (USES ≤ 2048) }
    ensures { Ends (after_edges f.now.rules stage f.now.job (length out.old) (record { fan = f.now.fan; joining = unjoined f.now.job f.now.fan })) out.old out.new result }
{
    let w = f.walks;
    let n = w.uses().len();
    let mut edges = [NO_EDGE; USES];
    let mut owners = [0u32; USES];
    let mut codes = [0u32; USES];
    let mut spans = [NO_SPAN; USES];
    let mut sides = [0u32; USES];
    let rows = &mut edges[..n];
    let owns = &mut owners[..n];
    let items = &mut codes[..n];
    let stretches = &mut spans[..n];
    let faces = &mut sides[..n];
    let made = make_edges(f, rows, owns, items, stretches, faces);
    on_edged::<USES>(
        stage,
        f,
        rows,
        made.edges,
        items,
        &mut stretches[..made.loops],
        &faces[..made.loops],
        out,
    )
}

// The stage `edges`, of `count` edges, then joining, which takes the tables one by one.
#[tactic(auto, unfolding(progress::specs::Chain::after_edges, maximal_edges::specs::Joined::state_in))]
fn on_edged<'a, const USES: usize>(
    stage: Option<Stage>,
    f: &'a Fans<'a>,
    rows: &'a mut [EdgeData],
    count: usize,
    items: &'a mut [u32],
    stretches: &'a mut [Span],
    faces: &'a [u32],
    out: &mut [u8],
) -> Result<usize, Refusal>
    requires { Lined f.now rows.old count items.old stretches.old faces.now × (length rows.old ≤ USES) × (length f.now.fan.walk.uses ≤ USES) × (USES ≤ 2048) }
    ensures { Ends (after_edges f.now.rules stage f.now.job (length out.old)
        (record { fan = f.now.fan; joining = state_in rows.old count items.old stretches.old faces.now 0 0 })) out.old out.new result }
{
    if Stage::Edges.is_asked(stage) {
        let unjoined = Joining {
            edges: &rows[..count],
            items,
            stretches,
            faces,
            joins: 0,
            rings: 0,
        };
        return write_joining(&unjoined, out);
    }
    let w = f.walks;
    let k = maximal_edges(
        &w.job.indexed(),
        f.starts,
        f.names,
        rows,
        count,
        items,
        stretches,
    )?;
    let joining = Joining {
        edges: &rows[..k.edges],
        items,
        stretches,
        faces,
        joins: k.joins,
        rings: k.rings,
    };
    let drawn = Drawn {
        fans: f,
        joining: &joining,
    };
    on_joined::<USES>(stage, &drawn, out)
}
