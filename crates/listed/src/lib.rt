// The listing of a job: it is sewn, and a line is put on a page for each record of the body, or the line of the refusal.

#![tactic(auto)]

ghost use Rattle.rules.specs.Rules.{ordinary, print_shop};
ghost use Rattle.lines.specs.Listed.{SewnInto, Lists};
ghost use Rattle.lines.specs.TableListed.{SewnWith, ListsWith};

// Sews a job into an output of 65,536 bytes, as `sew` does, and puts the listing on a page. Gives the length of the text,
// which is at most 196,608; what the page has no room for is not stored.
pub fn list(job: &[u8], out: &mut [u8; 65536], page: &mut [u8]) -> usize
    ensures { SewnInto ordinary job.now out.old out.new × Lists ordinary job.now page.old page.new result }
{
    let ending = sewing::sew(job, out);
    lines::put_listing(page, out, ending)
}

// Sews a job with the joining table of some bytes, as `sew_with_table` does, and puts the listing on a page. The text is
// given as by `list`.
pub fn list_with_table(table: &[u8], job: &[u8], out: &mut [u8; 65536], page: &mut [u8]) -> usize
    ensures { SewnWith table.now job.now out.old out.new × ListsWith table.now job.now page.old page.new result }
{
    let answer = sewing::sew_with_table(table, job, out);
    lines::put_listing(page, out, answer)
}

// Sews a job for a print shop, as `sew_for_print` does, and puts the listing on a page. The text is given as by `list`.
pub fn list_for_print(job: &[u8], out: &mut [u8; 65536], page: &mut [u8]) -> usize
    ensures { SewnInto print_shop job.now out.old out.new × Lists print_shop job.now page.old page.new result }
{
    let answer = sewing::sew_for_print(job, out);
    lines::put_listing(page, out, answer)
}
