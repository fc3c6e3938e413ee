// Sews the job of the file that its last word names, or of standard input, and prints a line for each record of the body, or
// the refusal. The words before may set a joining table, or the print-shop profile.

#![tactic(auto)]

use programs::{Asked, ENTRIES, Program, words_at};

// One byte more than a job may have: a longer job is refused by its length.
const JOB: usize = 65537;

// A body of 65,536 bytes has at most three characters a byte.
const PAGE: usize = 196608;

// Sews a job as it is asked for and prints the listing.
fn print_listing(rt: &(impl Print + Eprint), program: Program<'_>, asked: Asked<'_>, job: &[u8]) {
    let mut out = [0u8; 65536];
    let mut page = [0u8; PAGE];
    let length = match asked {
        Asked::Table(table) => listed::list_with_table(table, job, &mut out, &mut page),
        Asked::PrintShop => listed::list_for_print(job, &mut out, &mut page),
        Asked::Ordinary => listed::list(job, &mut out, &mut page),
    };
    program.print(rt, lines::front(&page, length));
}

fn main(rt: HostRuntime) {
    let program = Program {
        name: "listing",
        usage: "listing [table ENTRIES | print-shop] [FILE]: lists the body of a job; ENTRIES is a joining table such as 1001; \
            print-shop refuses edges with more than two uses and points with more than one fan; without FILE the job is read \
            from standard input",
    };
    let mut entries = [0u8; ENTRIES];
    let Some(asked) = words_at(&rt, 1, &mut entries) else {
        program.explain(&rt);
        return;
    };
    let mut job = [0u8; JOB];
    let Some(n) = program.read_job(&rt, 1 + asked.words(), &mut job) else {
        return;
    };
    print_listing(&rt, program, asked, lines::front(&job, n));
}
