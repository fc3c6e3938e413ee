// What the programs share: reading an input to its end, a stage by name, its lines, and the words of
// a command line.

#![tactic(auto)]

ghost use Rattle.std.specs.Prelude.{◌≤◌, length, IfOk};
ghost use Rattle.rules.specs.Sew.{Ends};
ghost use Rattle.rules.specs.Operation.{operation};
ghost use Rattle.lines.specs.StageListed.{StagedInto, StageLists};
ghost use Rattle.lines.specs.TableListed.{WalkedWith, WalkListsWith};

use rules::{Refusal, Stage};
use std::env::FillError;
use std::io::{Cursor, Read, Write};
use std::rt::{Env, Files};
use std::str::from_utf8;
use std::{fs, io};

// No path is longer, its end counted.
const PATH: usize = 4096;

// The longest word that asks for rules, `print-shop`.
const WORD: usize = 10;

// A joining table has four entries; one more tells a longer word.
pub const ENTRIES: usize = 5;

// The system's number of the error that a name is too long.
const NAME_TOO_LONG: i32 = 36;

// Reads until the buffer is full or the input ends, and says how many bytes were read. A read that fails is told from the
// end of the input. How many bytes a read gives is known only after it.
pub fn read_to_end<R: Read>(input: &mut R, buffer: &mut [u8]) -> io::Result<usize>
    ensures { IfOk result (λ n. n ≤ length buffer.old) }
{
    let mut done: usize = 0;
    while done < buffer.len() {
        let n = input.read(&mut buffer[done..])?;
        if n == 0 {
            return Ok(done);
        }
        done += n;
    }
    Ok(done)
}

// The stage that is asked for; sewing where none is.
pub fn operate(stage: Option<Stage>, job: &[u8], out: &mut [u8]) -> Result<usize, Refusal>
    ensures { Ends (operation stage job.now (length out.old)) out.old out.new result }
{
    let Some(stage) = stage else {
        return sewing::sew(job, out);
    };
    match stage {
        Stage::Read => sewing::read_stage(job, out),
        Stage::Pair => sewing::pair_stage(job, out),
        Stage::Merge => sewing::merge_stage(job, out),
        Stage::VertexLoops => sewing::vertex_loop_stage(job, out),
        Stage::Walk => sewing::walk_stage(job, out),
        Stage::Loops => sewing::loop_stage(job, out),
        Stage::Fans => sewing::fan_stage(job, out),
        Stage::Edges => sewing::edge_stage(job, out),
        Stage::Joining => sewing::joining_stage(job, out),
        Stage::Shells => sewing::shell_stage(job, out),
        Stage::Lumps => sewing::lump_stage(job, out),
    }
}

// Runs a stage into an output of 131,072 bytes and puts its lines on a page. Gives the length of the text, which is at
// most 360,448; what the page has no room for is not stored. Where there is no stage it does nothing.
pub fn list_stage(
    stage: Option<Stage>,
    job: &[u8],
    out: &mut [u8; 131072],
    page: &mut [u8],
) -> usize
    ensures { StagedInto stage job.now out.old out.new × StageLists stage job.now page.old page.new result }
{
    let Some(named) = stage else {
        return 0;
    };
    let ending = operate(Some(named), job, out);
    lines::put_stage(page, named, out, ending)
}

// Runs the walk stage with the joining table of some bytes into an output of 131,072 bytes and puts its lines on a page. The
// text is given as by `list_stage`.
pub fn list_walk_with_table(
    table: &[u8],
    job: &[u8],
    out: &mut [u8; 131072],
    page: &mut [u8],
) -> usize
    ensures { WalkedWith table.now job.now out.old out.new × WalkListsWith table.now job.now page.old page.new result }
{
    let ending = sewing::walk_stage_with_table(table, job, out);
    lines::put_stage(page, Stage::Walk, out, ending)
}

// WORDS OF THE COMMAND LINE

// A program: its name, by which it begins what it says on standard error, and the line that says what words it takes.
#[derive(Clone, Copy)]
pub struct Program<'a> {
    pub name: &'a str,
    pub usage: &'a str,
}

impl Program<'_> {
    // Says on standard error why a call failed, after the program's name: in the system's words, without the number that
    // the library puts behind them.
    pub fn fail(self, rt: &impl Eprint, what: &str, why: &io::Error) {
        let name = self.name;
        let mut text = Cursor::new([0u8; 256]);
        let _written = write!(text, "{why}");
        let words = lines::front(text.get_ref(), text.position() as usize);
        let reason = up_to(from_utf8(words).unwrap_or(""), " (os error ");
        let _told = eprintln!(rt; "{name}: {what}: {reason}");
    }

    // Says on standard error what words the program takes.
    pub fn explain(self, rt: &impl Eprint) {
        let _told = rt.eprintln(self.usage);
    }

    // Prints a text on standard output; where that does not take it, that is told.
    pub fn print(self, rt: &(impl Print + Eprint), text: &[u8]) {
        if let Err(why) = Print::write_all(rt, text) {
            self.fail(rt, "standard output", &why);
        }
    }

    // Reads the file that word i names, or standard input if there is no such word, and says how many bytes were read.
    // What is wrong is told on standard error, with the words that the program takes where it lies in these.
    pub fn read_job<R: Env + Files + Input + Eprint>(
        self,
        rt: &R,
        i: usize,
        buffer: &mut [u8],
    ) -> Option<usize> {
        if !is_there(rt, i) {
            return self.told(rt, "standard input", read_to_end(&mut rt.reader(), buffer));
        }
        self.read_file(rt, i, buffer)
    }

    // Reads the file that word i names, which must be the last word. What is wrong is told as by `read_job`.
    pub fn read_file<R: Env + Files + Eprint>(
        self,
        rt: &R,
        i: usize,
        buffer: &mut [u8],
    ) -> Option<usize> {
        if !is_last(rt, i) {
            self.explain(rt);
            return None;
        }
        let mut word = [0u8; PATH];
        let read = match rt.arg(i, &mut word) {
            Ok(length) => self.read_word(rt, &word[..length], buffer),
            // A word that is longer than any path: its front may name another file.
            Err(_) => self.told(rt, "FILE", Err(io::Error::from_raw_os_error(NAME_TOO_LONG))),
        };
        if read.is_none() {
            self.explain(rt);
        }
        read
    }

    // Reads the file of a name to its end; where the word can name none, nothing is told.
    fn read_word<R: Files + Eprint>(self, rt: &R, word: &[u8], buffer: &mut [u8]) -> Option<usize> {
        if !is_name(word) {
            return None;
        }
        // The names of files are text here.
        let Ok(name) = from_utf8(word) else {
            return self.told(
                rt,
                "FILE",
                Err(io::Error::from(io::ErrorKind::InvalidFilename)),
            );
        };
        self.told(rt, name, read_named(rt, name, buffer))
    }

    // How many bytes a reading gave; where it failed, that is told.
    fn told(self, rt: &impl Eprint, what: &str, read: io::Result<usize>) -> Option<usize> {
        match read {
            Ok(n) => Some(n),
            Err(why) => {
                self.fail(rt, what, &why);
                None
            }
        }
    }
}

// What the words before the job's name ask for.
#[derive(Clone, Copy)]
pub enum Asked<'a> {
    // No words: document 01's rules.
    Ordinary,
    // `table ENTRIES`: the joining table of these bytes.
    Table(&'a [u8]),
    // `print-shop`: for a print shop.
    PrintShop,
}

impl<'a> Asked<'a> {
    // The joining table that is asked for, if one is.
    pub fn table(self) -> Option<&'a [u8]> {
        match self {
            Asked::Table(table) => Some(table),
            Asked::PrintShop | Asked::Ordinary => None,
        }
    }

    // How many words they are.
    pub fn words(self) -> usize
        ensures { result ≤ 2 }
    {
        match self {
            Asked::Table(_) => 2,
            Asked::PrintShop => 1,
            Asked::Ordinary => 0,
        }
    }
}

// What the words from word i on ask for; nothing where they stop short. The bytes of a table are put into the room. Where
// there is no word, or a longer one, that is no word of these: it is the job's name, or there is none.
pub fn words_at<'a>(rt: &impl Env, i: usize, room: &'a mut [u8; ENTRIES]) -> Option<Asked<'a>> {
    let mut word = [0u8; WORD];
    let Ok(length) = rt.arg(i, &mut word) else {
        return Some(Asked::Ordinary);
    };
    match &word[..length] {
        b"table" => table_at(rt, i.saturating_add(1), room),
        b"print-shop" => Some(Asked::PrintShop),
        _ => Some(Asked::Ordinary),
    }
}

// The joining table that word i spells: each byte is an entry, its value less that of `0`. A word for which there is no
// room is too long for a table, as the room itself is.
fn table_at<'a>(rt: &impl Env, i: usize, room: &'a mut [u8; ENTRIES]) -> Option<Asked<'a>> {
    let length = match rt.arg(i, room) {
        Ok(length) => length,
        Err(FillError::NotPresent) => return None,
        Err(_) => ENTRIES,
    };
    let entries = &mut room[..length];
    for entry in entries.iter_mut() {
        *entry = entry.wrapping_sub(b'0');
    }
    Some(Asked::Table(entries))
}

// A text up to a mark, or all of it.
fn up_to<'a>(text: &'a str, mark: &str) -> &'a str {
    text.split_once(mark).map_or(text, |(words, _)| words)
}

// Whether there is a word i, the program's own name being word 0.
fn is_there(rt: &impl Env, i: usize) -> bool {
    let mut front = [0u8; 1];
    !matches!(rt.arg(i, &mut front), Err(FillError::NotPresent))
}

// Whether word i is there and none comes after it.
fn is_last(rt: &impl Env, i: usize) -> bool {
    is_there(rt, i) && i < usize::MAX && !is_there(rt, i + 1)
}

// Whether a word can name a file: one that begins with `-` would be an option, and there are none.
fn is_name(word: &[u8]) -> bool {
    word.len() != 0 && word[0] != b'-'
}

// Opens the file of a name and reads it to its end.
fn read_named<R: Files>(rt: &R, name: &str, buffer: &mut [u8]) -> io::Result<usize> {
    let mut file = fs::open(rt, name)?;
    read_to_end(&mut file, buffer)
}
