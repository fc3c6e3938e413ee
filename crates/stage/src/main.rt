// Runs the stage that its first word names on the job of the file that its last word names, or of standard input, and prints
// a line for each record of the stage, or the refusal. The words between may set a joining table for the stage `walk`.

#![tactic(auto)]

use programs::{Asked, ENTRIES, Program, words_at};
use rules::Stage;
use std::rt::Env;

// One byte more than a job may have: a longer job is refused by its length.
const JOB: usize = 65537;

// What is lent to the stage.
const OUT: usize = 131072;

// Each field of the output has at most eleven characters, with the blank or the line's end after it.
const PAGE: usize = 360448;

// The stage that the first word names, if it names one.
fn stage_named(rt: &impl Env) -> Option<Stage> {
    let mut name = [0u8; 16];
    match rt.arg(1, &mut name) {
        Ok(length) => lines::stage_named(&name[..length]),
        Err(_) => None,
    }
}

// What the words behind a stage's name ask for; nothing where the stage cannot be run so: `walk` alone takes a joining table,
// and none is run for a print shop.
fn asked_of<'a>(rt: &impl Env, stage: Stage, room: &'a mut [u8; ENTRIES]) -> Option<Asked<'a>> {
    match words_at(rt, 2, room)? {
        Asked::Table(_) if stage != Stage::Walk => None,
        Asked::PrintShop => None,
        asked => Some(asked),
    }
}

// Runs a stage on a job, or `walk` with a joining table, and prints its lines.
fn print_stage(
    rt: &(impl Print + Eprint),
    program: Program<'_>,
    stage: Stage,
    table: Option<&[u8]>,
    job: &[u8],
) {
    let mut out = [0u8; OUT];
    let mut page = [0u8; PAGE];
    let length = match table {
        Some(table) => programs::list_walk_with_table(table, job, &mut out, &mut page),
        None => programs::list_stage(Some(stage), job, &mut out, &mut page),
    };
    program.print(rt, lines::front(&page, length));
}

fn main(rt: HostRuntime) {
    let program = Program {
        name: "stage",
        usage: "stage NAME [FILE] or stage walk table ENTRIES [FILE]: NAME is read, pair, merge, vertex-loops, walk, loops, \
            fans, edges, joining, shells or lumps; ENTRIES is a joining table such as 1001; without FILE the job is read from \
            standard input",
    };
    let Some(stage) = stage_named(&rt) else {
        program.explain(&rt);
        return;
    };
    let mut entries = [0u8; ENTRIES];
    let Some(asked) = asked_of(&rt, stage, &mut entries) else {
        program.explain(&rt);
        return;
    };
    let mut job = [0u8; JOB];
    let Some(n) = program.read_job(&rt, 2 + asked.words(), &mut job) else {
        return;
    };
    print_stage(&rt, program, stage, asked.table(), lines::front(&job, n));
}
