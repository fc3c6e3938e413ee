// Sewing for callers in C and Rust: numbers and byte slices. A `&[u8]` is passed as a pointer and a length, a `&mut usize`
// as a pointer; `include/sewing.h` says what each must hold.

#![tactic(auto, using(crate::specs::ToldLaws::numbered))]

ghost use Rattle.std.specs.Prelude.{◌≡◌, length};
ghost use Rattle.rules.specs.Load.{requested};
ghost use Rattle.rules.specs.Rules.{ordinary, print_shop};
ghost use Rattle.rules.specs.Sew.{sewn, sewn_with_table};
ghost use Rattle.rules.specs.Stage.{read_stage, pair_stage, merge_stage, vertex_loop_stage, walk_stage, walk_stage_with_table};
ghost use Rattle.rules.specs.Stage.{loop_stage, fan_stage, edge_stage, joining_stage, shell_stage, lump_stage};
ghost use Rattle.theorems.specs.Promises.{Promises};
ghost use Rattle.theorems.specs.JoiningTables.{PromisesWith, WalksWith};
ghost use Rattle.theorems.specs.PrintShop.{PrintPromises};
ghost use Rattle.lines.specs.Listed.{Lists};
ghost use Rattle.sewing.specs.Promised.{Promised};
ghost use Rattle.sewing_c.specs.Told.{number_of, end_value, Tells, ListsAnswer, Inside, TellsLoop};

use rules::Refusal;

// The longest body of which a listing is made.
const BODY: usize = 4294967295;

// An ending in numbers: 0 with the bytes written, or a refusal's number with its place.
fn tell(ending: Result<usize, Refusal>, value: &mut usize) -> usize
    ensures { (result ≡ number_of ending) × (value.new ≡ end_value ending) }
{
    match ending {
        Ok(n) => {
            *value = n;
            0
        }
        Err(refusal) => {
            *value = refusal.place;
            refusal.fault.number()
        }
    }
}

// Sewing: 0 with the bytes written, or a refusal's number with its place and the output untouched. What demand 3 says
// holds of the job.
#[unsafe(no_mangle)]
pub extern "C" fn zaxclover_sew(job: &[u8], out: &mut [u8], value: &mut usize) -> usize
    ensures { Tells (sewn ordinary job.now (length out.old)) out.old out.new value.new result × Promises ordinary job.now }
{
    let ending = sewing::sew(job, out);
    tell(ending, value)
}

// Sewing with a joining table that is supplied with the call: answers as sewing does. What is no table is refused before
// all else; what demand 3 says holds for each table that is one.
#[unsafe(no_mangle)]
pub extern "C" fn zaxclover_sew_with_table(
    table: &[u8],
    job: &[u8],
    out: &mut [u8],
    value: &mut usize,
) -> usize
    ensures { Tells (sewn_with_table table.now job.now (length out.old)) out.old out.new value.new result × PromisesWith table.now job.now }
{
    let ending = sewing::sew_with_table(table, job, out);
    tell(ending, value)
}

// Sewing for a print shop: answers as sewing does. An edge with more than two uses and a point with more than one fan are
// refused; an accepted job has the ordinary body, and what demand 3 says holds of it.
#[unsafe(no_mangle)]
pub extern "C" fn zaxclover_sew_for_print(job: &[u8], out: &mut [u8], value: &mut usize) -> usize
    ensures { Tells (sewn print_shop job.now (length out.old)) out.old out.new value.new result × PrintPromises job.now }
{
    let ending = sewing::sew_for_print(job, out);
    tell(ending, value)
}

// THE SINGLE STAGES, which answer as sewing does

// The stage `read`.
#[unsafe(no_mangle)]
pub extern "C" fn zaxclover_read_stage(job: &[u8], out: &mut [u8], value: &mut usize) -> usize
    ensures { Tells (read_stage job.now (length out.old)) out.old out.new value.new result }
{
    let ending = sewing::read_stage(job, out);
    tell(ending, value)
}

// The stage `pair`.
#[unsafe(no_mangle)]
pub extern "C" fn zaxclover_pair_stage(job: &[u8], out: &mut [u8], value: &mut usize) -> usize
    ensures { Tells (pair_stage ordinary job.now (length out.old)) out.old out.new value.new result }
{
    let ending = sewing::pair_stage(job, out);
    tell(ending, value)
}

// The stage `merge`.
#[unsafe(no_mangle)]
pub extern "C" fn zaxclover_merge_stage(job: &[u8], out: &mut [u8], value: &mut usize) -> usize
    ensures { Tells (merge_stage ordinary job.now (length out.old)) out.old out.new value.new result }
{
    let ending = sewing::merge_stage(job, out);
    tell(ending, value)
}

// The stage `vertex-loops`.
#[unsafe(no_mangle)]
pub extern "C" fn zaxclover_vertex_loop_stage(
    job: &[u8],
    out: &mut [u8],
    value: &mut usize,
) -> usize
    ensures { Tells (vertex_loop_stage ordinary job.now (length out.old)) out.old out.new value.new result }
{
    let ending = sewing::vertex_loop_stage(job, out);
    tell(ending, value)
}

// The stage `walk`. Demand 3 holds of its walks.
#[unsafe(no_mangle)]
pub extern "C" fn zaxclover_walk_stage(job: &[u8], out: &mut [u8], value: &mut usize) -> usize
    ensures { Tells (walk_stage ordinary job.now (length out.old)) out.old out.new value.new result × Promised job.now }
{
    let ending = sewing::walk_stage(job, out);
    tell(ending, value)
}

// The stage `walk` with a joining table that is supplied with the call. Demand 3 holds of its walks.
#[unsafe(no_mangle)]
pub extern "C" fn zaxclover_walk_stage_with_table(
    table: &[u8],
    job: &[u8],
    out: &mut [u8],
    value: &mut usize,
) -> usize
    ensures { Tells (walk_stage_with_table table.now job.now (length out.old)) out.old out.new value.new result × WalksWith table.now job.now }
{
    let ending = sewing::walk_stage_with_table(table, job, out);
    tell(ending, value)
}

// The stage `loops`. Demand 3 holds of its walks.
#[unsafe(no_mangle)]
pub extern "C" fn zaxclover_loop_stage(job: &[u8], out: &mut [u8], value: &mut usize) -> usize
    ensures { Tells (loop_stage ordinary job.now (length out.old)) out.old out.new value.new result × Promised job.now }
{
    let ending = sewing::loop_stage(job, out);
    tell(ending, value)
}

// The stage `fans`.
#[unsafe(no_mangle)]
pub extern "C" fn zaxclover_fan_stage(job: &[u8], out: &mut [u8], value: &mut usize) -> usize
    ensures { Tells (fan_stage ordinary job.now (length out.old)) out.old out.new value.new result }
{
    let ending = sewing::fan_stage(job, out);
    tell(ending, value)
}

// The stage `edges`.
#[unsafe(no_mangle)]
pub extern "C" fn zaxclover_edge_stage(job: &[u8], out: &mut [u8], value: &mut usize) -> usize
    ensures { Tells (edge_stage ordinary job.now (length out.old)) out.old out.new value.new result }
{
    let ending = sewing::edge_stage(job, out);
    tell(ending, value)
}

// The stage `joining`.
#[unsafe(no_mangle)]
pub extern "C" fn zaxclover_joining_stage(job: &[u8], out: &mut [u8], value: &mut usize) -> usize
    ensures { Tells (joining_stage ordinary job.now (length out.old)) out.old out.new value.new result }
{
    let ending = sewing::joining_stage(job, out);
    tell(ending, value)
}

// The stage `shells`.
#[unsafe(no_mangle)]
pub extern "C" fn zaxclover_shell_stage(job: &[u8], out: &mut [u8], value: &mut usize) -> usize
    ensures { Tells (shell_stage ordinary job.now (length out.old)) out.old out.new value.new result }
{
    let ending = sewing::shell_stage(job, out);
    tell(ending, value)
}

// The stage `lumps`.
#[unsafe(no_mangle)]
pub extern "C" fn zaxclover_lump_stage(job: &[u8], out: &mut [u8], value: &mut usize) -> usize
    ensures { Tells (lump_stage ordinary job.now (length out.old)) out.old out.new value.new result }
{
    let ending = sewing::lump_stage(job, out);
    tell(ending, value)
}

// THE LOOP REQUEST

// Loop n of the job, of both sorts: 0 with the byte where its payload begins and the payload's length, or a refusal's
// number with 0 and its place.
#[unsafe(no_mangle)]
pub extern "C" fn zaxclover_loop(
    job: &[u8],
    n: usize,
    start: &mut usize,
    value: &mut usize,
) -> usize
    ensures tells { TellsLoop (requested job.now n) start.new value.new result }
    ensures inside { Inside job.now (requested job.now n) }
{
    match load::loop_stretch(job, n) {
        Ok(bytes) => {
            *start = bytes.start;
            *value = bytes.end - bytes.start;
            0
        }
        Err(refusal) => {
            *start = 0;
            *value = refusal.place;
            refusal.fault.number()
        }
    }
}

// THE LISTING

// The listing of an answer of sewing, by its number and value, with the body at the start of the output. Gives the
// length of the text; what the page has no room for is not stored.
#[unsafe(no_mangle)]
pub extern "C" fn zaxclover_listing(
    number: usize,
    value: usize,
    out: &[u8],
    page: &mut [u8],
) -> usize
    ensures { ListsAnswer number value out.now page.old page.new result }
{
    let body = lines::front(out, BODY);
    if number == 0 {
        return lines::put_listing(page, body, Ok(value));
    }
    lines::put_refusal(page, number, value)
}

// The listing of a job, sewn into 65,536 bytes. Gives the length of the text, which is at most 196,608; what the page has
// no room for is not stored.
#[unsafe(no_mangle)]
pub extern "C" fn zaxclover_list(job: &[u8], page: &mut [u8]) -> usize
    ensures { Lists ordinary job.now page.old page.new result }
{
    let mut out = [0u8; 65536];
    listed::list(job, &mut out, page)
}
