// Replays the packed vectors of the file that its word names: every answer is worked out anew and held against the
// packed one. Prints a line for each difference, and at the end how many answers there were, or why the file cannot be
// used.

#![tactic(auto)]

ghost use Rattle.std.specs.Prelude.{◌≡◌, ◌+◌, ◌<◌, ◌≤◌, ◌^◌, length, IfOk, IfSome};
ghost use Rattle.replay.specs.Operation.{packed_number};

use fields::{put_fields, word};
use programs::Program;
use rules::{Refusal, Stage};
use std::marker::Model;

// One byte more than a packed file may have: a longer file is told by its length.
const FILE: usize = 3000001;

// What is lent to a stage, which needs less, and for sewing with no room of its own.
const OUT: usize = 131072;

const BODY: usize = 65536;

// A job that is loaded has no more bytes.
const JOB: usize = 65536;

// A job has no more loops, so that a request for the loop of this number is refused.
const LOOPS: usize = 1024;

// What a packed answer is the answer to. Each has the number by which it is packed.
#[derive(Clone, Copy)]
enum Operation {
    Sewing,
    Single(Stage),
    LoopRequests,
    SewingInRoom,
    SewingWithTable,
    WalkWithTable,
    SewingForPrint,
    // A number that none has: the job is sewn.
    Unknown(usize),
}

impl From<usize> for Operation {
    ghost use Rattle.std.specs.Prelude.{◌≡◌};
    ghost use Rattle.replay.specs.Operation.{packed_number, packed_operation};

    ghost from_gives = { λ n operation. (operation ≡ packed_operation n) × (packed_number operation ≡ n) };

    #[tactic(auto, unfolding(crate::specs::Operation::packed_operation))]
    fn from(n: usize) -> Self {
        match n {
            0 => Operation::Sewing,
            12 => Operation::LoopRequests,
            13 => Operation::SewingInRoom,
            14 => Operation::SewingWithTable,
            15 => Operation::WalkWithTable,
            16 => Operation::SewingForPrint,
            _ => match Stage::numbered(n) {
                Some(stage) => Operation::Single(stage),
                None => Operation::Unknown(n),
            },
        }
    }
}

impl Operation {
    // The number by which it is packed.
    fn number(self) -> usize
        ensures { result ≡ packed_number self }
    {
        match self {
            Operation::Sewing => 0,
            Operation::Single(stage) => stage.number(),
            Operation::LoopRequests => 12,
            Operation::SewingInRoom => 13,
            Operation::SewingWithTable => 14,
            Operation::WalkWithTable => 15,
            Operation::SewingForPrint => 16,
            Operation::Unknown(n) => n,
        }
    }

    // Whether bytes of its output are packed behind the hash, after their count.
    fn shows_output(self) -> bool {
        matches!(
            self,
            Operation::Sewing
                | Operation::SewingInRoom
                | Operation::SewingWithTable
                | Operation::SewingForPrint,
        )
    }

    // Whether a joining table is packed behind its number, after the table's length.
    fn takes_table(self) -> bool {
        matches!(self, Operation::SewingWithTable | Operation::WalkWithTable)
    }
}

// A refusal as it is packed, by its number.
#[derive(Clone, Copy, PartialEq, Eq)]
struct Refused {
    number: usize,
    place: usize,
}

impl From<Refusal> for Refused {
    fn from(refusal: Refusal) -> Self {
        Refused {
            number: refusal.fault.number(),
            place: refusal.place,
        }
    }
}

// An output as it is packed, by its length and hash, with how many bytes of it are packed or agree with the packed ones.
#[derive(Clone, Copy, PartialEq, Eq)]
struct Output {
    length: usize,
    hash: u32,
    shown: usize,
}

// A packed answer: the operation, its joining table, its room, the answer, the output's bytes.
#[derive(Clone, Copy)]
struct Packed<'a> {
    operation: Operation,
    table: &'a [u8],
    room: usize,
    answer: Result<Output, Refused>,
    output: &'a [u8],
}

// How many jobs, answers and differences there are.
#[derive(Clone, Copy)]
struct Tally {
    jobs: u32,
    answers: usize,
    differences: usize,
}

// READING WHAT IS PACKED

// What is left of the packed file, which is read from its front.
#[derive(Drop)]
struct Reader<'a> {
    rest: &'a [u8],
}

impl<'a> Model for Reader<'a> {
    ghost use Rattle.std.specs.Prelude.{ℕ, List};

    ghost Value = { List ℕ };

    ghost view = { λ reader. reader.rest.now };
}

impl<'a> Reader<'a> {
    // So many bytes, if they are there.
    fn part(&mut self, count: usize) -> Option<&'a [u8]>
        ensures taken { IfSome result (λ part. (length part.now ≡ count) × (length self.new + count ≡ length self.old)) }
        ensures left { length self.new ≤ length self.old }
    {
        let (part, rest) = self.rest.split_at_checked(count)?;
        self.rest = rest;
        Some(part)
    }

    // A four-byte field, if it is there.
    fn field(&mut self) -> Option<u32>
        ensures taken { IfSome result (λ field. length self.new + 4 ≡ length self.old) }
        ensures left { length self.new ≤ length self.old }
    {
        let bytes = self.part(4)?;
        Some(word(bytes, 0) as u32)
    }

    // A vector's job, and how many answers come after it.
    fn vector(&mut self) -> Option<(&'a [u8], u32)>
        ensures taken { IfSome result (λ vector. length self.new + 8 ≤ length self.old) }
        ensures left { length self.new ≤ length self.old }
    {
        let size = self.field()?;
        let job = self.part(size as usize)?;
        let count = self.field()?;
        Some((job, count))
    }

    // The joining table of an operation, by its length; no bytes for one that takes none.
    fn table(&mut self, operation: Operation) -> Option<&'a [u8]>
        ensures { length self.new ≤ length self.old }
    {
        if !operation.takes_table() {
            return Some(&[]);
        }
        let length = self.field()?;
        self.part(length as usize)
    }

    // An answer: 0, length and hash of an output, or number and place of a refusal.
    fn answer(&mut self) -> Option<Packed<'a>>
        ensures taken { IfSome result (λ packed. length self.new + 8 ≤ length self.old) }
        ensures left { length self.new ≤ length self.old }
    {
        let operation = Operation::from(self.field()? as usize);
        let table = self.table(operation)?;
        let room = match operation {
            Operation::Sewing | Operation::SewingWithTable | Operation::SewingForPrint => BODY,
            Operation::SewingInRoom => self.field()? as usize,
            _ => OUT,
        };
        let number = self.field()? as usize;
        if number != 0 {
            let place = self.field()? as usize;
            return Some(Packed {
                operation,
                table,
                room,
                answer: Err(Refused { number, place }),
                output: &[],
            });
        }
        let length = self.field()? as usize;
        let hash = self.field()?;
        let shown = if operation.shows_output() {
            self.field()? as usize
        } else {
            0
        };
        let output = self.part(shown)?;
        Some(Packed {
            operation,
            table,
            room,
            answer: Ok(Output {
                length,
                hash,
                shown,
            }),
            output,
        })
    }
}

// WORKING IT OUT ANEW

// The 32-bit FNV-1a hash. By hand, since no crate of the kit has it.
fn hash_of(bytes: &[u8]) -> u32 {
    bytes.iter().fold(2166136261, |hash: u32, byte| {
        (hash ^ u32::from(*byte)).wrapping_mul(16777619)
    })
}

// How many bytes at the front of two texts are the same.
fn agreeing(a: &[u8], b: &[u8]) -> usize {
    a.iter().zip(b).take_while(|(x, y)| x == y).count()
}

// The payload of a requested loop at a place; gives the place after it. A job that has loops was loaded, so that its payload
// is there whole.
fn put_payload(job: &[u8], n: usize, out: &mut [u8], at: usize) -> usize
    requires { at < 2 ^ 50 }
    ensures { (at ≤ result) × (result ≤ at + 65536) }
{
    let payload = load::loop_payload(job, n);
    let size = payload.len().min(JOB);
    lines::put_text(out, at, &payload[..size])
}

// The answers to the loop requests from 0 up to the first that is refused: number and place, or 0, length and payload.
#[tactic(auto, using(fields::specs::Tabled::length_field_bytes))]
fn requests(job: &[u8], out: &mut [u8]) -> usize {
    let mut p = 0;
    // by number: a request names its loop by it
    for n in 0..=LOOPS {
        match load::loop_stretch(job, n) {
            Err(refusal) => return put_fields(out, p, &[refusal.fault.number(), refusal.place]),
            Ok(bytes) => {
                let q = put_fields(out, p, &[0, bytes.end - bytes.start]);
                p = put_payload(job, n, out, q);
            }
        }
    }
    p
}

// The answer of an operation, with its joining table, worked out anew.
fn run(operation: Operation, table: &[u8], job: &[u8], out: &mut [u8]) -> Result<usize, Refusal> {
    match operation {
        Operation::SewingWithTable => sewing::sew_with_table(table, job, out),
        Operation::WalkWithTable => sewing::walk_stage_with_table(table, job, out),
        Operation::SewingForPrint => sewing::sew_for_print(job, out),
        Operation::LoopRequests => Ok(requests(job, out)),
        Operation::Single(stage) => programs::operate(Some(stage), job, out),
        _ => sewing::sew(job, out),
    }
}

// The answer that is found, with the bytes of the output held against the packed ones.
fn found(job: &[u8], p: Packed<'_>, out: &mut [u8; OUT]) -> Result<Output, Refused> {
    let room = p.room.min(OUT);
    let length = run(p.operation, p.table, job, &mut out[..room])?;
    let written = lines::front(out, length);
    Ok(Output {
        length,
        hash: hash_of(written),
        shown: agreeing(p.output, written),
    })
}

// REPORTING

// Says on standard output what an answer is; where that does not take it, the last line tells.
fn say_answer(rt: &impl Print, text: &str, answer: Result<Output, Refused>) {
    let _told = match answer {
        Err(Refused { number, place }) => print!(rt; " {text} {number} {place} 0 0"),
        Ok(
            Output {
                length,
                hash,
                shown,
            },
        ) => print!(rt; " {text} 0 {length} {hash} {shown}"),
    };
}

// The line of a difference.
fn report(
    rt: &impl Print,
    vector: u32,
    operation: Operation,
    expected: Result<Output, Refused>,
    answer: Result<Output, Refused>,
) {
    let number = operation.number();
    let _told = print!(rt; "vector {vector} operation {number}");
    say_answer(rt, "expected", expected);
    say_answer(rt, "found", answer);
    let _told = rt.print("\n");
}

const PROGRAM: Program<'static> = Program {
    name: "replay",
    usage: "replay FILE: holds the answers packed in FILE against the answers that its jobs have now",
};

// The last line: what the vectors come to, or why the file is not usable. Where standard output does not take its end, that
// is told.
fn close(rt: &(impl Print + Eprint), ending: Result<Tally, &str>) {
    let _told = match ending {
        Err(why) => print!(rt; "not usable: {why}"),
        Ok(
            Tally {
                differences: 0,
                answers,
                jobs,
            },
        ) => print!(rt; "no difference in {answers} answers of {jobs}"),
        Ok(
            Tally {
                differences,
                answers,
                jobs,
            },
        ) => print!(rt; "{differences} differences in {answers} answers of {jobs}"),
    };
    let end: &[u8] = if ending.is_ok() { b" jobs\n" } else { b"\n" };
    PROGRAM.print(rt, end);
}

// THE VECTORS

// Whether an answer is now what it is packed as; where not, the line of the difference is printed.
fn agrees(rt: &impl Print, vector: u32, job: &[u8], p: Packed<'_>, out: &mut [u8; OUT]) -> bool {
    let answer = found(job, p, out);
    let same = answer == p.answer;
    if !same {
        report(rt, vector, p.operation, p.answer, answer);
    }
    same
}

// How many of the next answers, so many of a job, differ; none where fewer are left. Each answer takes a byte at least.
fn run_answers(
    rt: &impl Print,
    reader: &mut Reader<'_>,
    vector: u32,
    job: &[u8],
    count: u32,
    out: &mut [u8; OUT],
) -> Option<u32>
    ensures counted { IfSome result (λ differences. (differences ≤ count) × (count + length reader.new ≤ length reader.old)) }
    ensures left { length reader.new ≤ length reader.old }
{
    let mut differences: u32 = 0;
    // by number: the file says how many there are, and each begins where the one before ends
    for _ in 0..count {
        let p = reader.answer()?;
        if !agrees(rt, vector, job, p, out) {
            differences += 1;
        }
    }
    Some(differences)
}

// So many vectors, each a job with its answers. Each answer, and each job, takes a byte at least.
fn run_vectors(
    rt: &impl Print,
    reader: &mut Reader<'_>,
    jobs: u32,
    out: &mut [u8; OUT],
) -> Result<Tally, &'static str>
    ensures { IfOk result (λ t. (t.jobs ≡ jobs) × (t.differences ≤ t.answers) × (t.answers + t.jobs + length reader.new ≤ length reader.old)) }
{
    let mut answers: usize = 0;
    let mut differences: usize = 0;
    // by number, as above
    for vector in 0..jobs {
        let (job, count) = reader
            .vector()
            .ok_or("the file has fewer vectors than its first field says")?;
        let differing = run_answers(rt, reader, vector, job, count, out).ok_or(
            "a vector has fewer answers than it says",
        )?;
        answers += count as usize;
        differences += differing as usize;
    }
    Ok(Tally {
        jobs,
        answers,
        differences,
    })
}

// What the vectors of a file's bytes come to, or why the file is not usable: they must fill it and have answers.
fn replay(rt: &impl Print, bytes: &[u8]) -> Result<Tally, &'static str> {
    if bytes.len() == FILE {
        return Err("the file has more than 3,000,000 bytes");
    }
    let jobs = word(bytes, 0) as u32;
    let mut reader = Reader {
        rest: lines::back(bytes, 4),
    };
    let mut out = [0u8; OUT];
    let t = run_vectors(rt, &mut reader, jobs, &mut out)?;
    if t.answers == 0 {
        return Err("the file has no answers");
    }
    if !reader.rest.is_empty() {
        return Err("the file does not end with its last vector");
    }
    Ok(t)
}

// Room for a file: apart from `main`, where proofs would write a list so long out.
fn blank() -> [u8; FILE]
    ensures { 3000001 ≡ length result }
{
    [0; FILE]
}

fn main(rt: HostRuntime) {
    let mut file = blank();
    let Some(n) = PROGRAM.read_file(&rt, 1, &mut file) else {
        return;
    };
    let ending = replay(&rt, lines::front(&file, n));
    close(&rt, ending);
}
