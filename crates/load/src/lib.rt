// Loading: refusals 1 to 7 and 45 in their order, the counts, and the index of faces, loops and answers; and the loop
// request.

#![tactic(auto)]

ghost use Rattle.std.specs.Prelude.{◌≡◌, true, ◌&&◌, not, ◌-◌, ◌<◌, ◌≤◌, length, drop, replicate, IfOk};
ghost use Rattle.rules.specs.declared.Kind.TheVariants.{FaceRecord};
ghost use Rattle.rules.specs.Outcome.{Ok, ◌>>=◌ as ◌and_then◌};
ghost use Rattle.rules.specs.Fields.{le32};
ghost use Rattle.rules.specs.Frame.{whole_record, frame_at};
ghost use Rattle.rules.specs.Kinds.{is_loop, is_answer, right_length, right_position};
ghost use Rattle.rules.specs.Load.{selected_before, answered_before, load_record, loading, loaded, requested, shown};
ghost use Rattle.theorems.specs.Sound.{Limited};
ghost use Rattle.job.specs.Lists.{fields_at};
ghost use Rattle.job.specs.Raw.{faces, answers};
ghost use Rattle.answers.specs.Index.{Indexed};
ghost use Rattle.selected.specs.Sources.{Sourced};
ghost use Rattle.load.specs.Kept.{kept_index};
ghost use Rattle.load.specs.SourcesKept.{kept_sources};
ghost use Rattle.load.specs.Judged.{Here, record_at, state_in, state, taken};
ghost use Rattle.load.specs.Going.{Going, OnTo};
ghost use Rattle.load.specs.Stretches.{Placed};

use fields::{half, put, word};
use job::{FACES, Fields, INDEX, LOOPS, OWNERS, RawJob};
use loaded::Loaded;
use rules::{Counts, Fault, Kind, MOST_BYTES, Refusal};
use selected::Sources;

// The record that is being read: its first byte, its kind and its payload's length.
#[derive(Clone, Copy)]
struct Header {
    at: usize,
    kind: Kind,
    size: usize,
}

// 2: header and payload of the record at a byte are not cut short.
#[tactic(auto, using(rules::proofs::FrameLaws::whole_is, rules::proofs::FrameLaws::head_cut, rules::proofs::FrameLaws::payload_cut))]
fn is_whole(job: &[u8], at: usize) -> bool
    requires { at < 4294967296 }
    ensures { result ≡ whole_record (drop at job.now) }
{
    let body = at + 6;
    body <= job.len() && body + word(job, at) <= job.len()
}

// 3: a record has another length than its kind, or stands in another part.
fn is_misplaced(header: Header, part: usize) -> bool
    ensures { result ≡ not (right_length header.kind header.size && right_position header.kind part) }
{
    !(records::right_length(header.kind, header.size) && records::right_position(header.kind, part))
}

// 45: the face of the record is selected before.
#[tactic(auto, using(crate::specs::Judged::selected_as, crate::specs::Judged::no_face_lem))]
fn is_selected(raw: &RawJob<'_>, sources: &Sources, header: Header) -> bool
    requires sourced { Sourced raw.now.bytes.now raw.now.index.now sources.now raw.now.counts }
    requires read { (header.at < 4294967296) × (header.size ≡ le32 raw.now.bytes.now header.at) × (right_length header.kind header.size ≡ true) }
    requires room { header.kind ≡ FaceRecord → raw.now.counts.faces < 256 }
    ensures { result ≡ selected_before header.kind (faces raw.now) (fields_at raw.now.bytes.now header.at) }
{
    header.kind == Kind::FaceRecord && sources.selected_before(raw, header.at)
}

// 7: the question of the record is answered before.
#[tactic(auto, unfolding(rules::specs::Load::answered_before))]
fn is_answered(raw: &RawJob<'_>, header: Header) -> bool
    requires { Here raw.now.bytes.now raw.now.index.now raw.now.counts header × (right_length header.kind header.size ≡ true) }
    ensures { result ≡ answered_before header.kind (answers raw.now) (fields_at raw.now.bytes.now header.at) }
{
    records::is_answer(header.kind) && answers::answered_before(raw, header.at)
}

// The tests of a whole record from 3 on, in their order.
fn judge(raw: &RawJob<'_>, sources: &Sources, header: Header) -> Result<(), Refusal>
    requires { Here raw.now.bytes.now raw.now.index.now raw.now.counts header × Sourced raw.now.bytes.now raw.now.index.now sources.now raw.now.counts }
    ensures { (result and_then λ _. Ok (taken header raw.now)) ≡ load_record (record_at raw.now.bytes.now header.at) (state raw.now) }
{
    let at = header.at;
    let kind = header.kind;
    if is_misplaced(header, raw.counts.part) {
        return Err(Fault::Misplaced.at(at));
    }
    let n = header.size / 4;
    if records::limit_passed(kind, raw.counts, n) {
        return Err(Fault::LimitPassed.at(at));
    }
    let payload = Fields::new(raw.bytes, at + 6, n);
    if !records::fields_permitted(kind, raw.counts, &payload) {
        return Err(Fault::FieldNotPermitted.at(at));
    }
    if is_selected(raw, sources, header) {
        return Err(Fault::SelectedTwice.at(at));
    }
    if !records::right_joints(raw, kind, &payload) {
        return Err(Fault::LoopJoints.at(at));
    }
    if is_answered(raw, header) {
        return Err(Fault::AnsweredTwice.at(at));
    }
    Ok(())
}

// The place of a face, a loop or an answer is entered in the index, and a face by its source face number.
#[tactic(auto, unfolding(crate::specs::Kept::kept_index, crate::specs::Kept::loop_kept, crate::specs::SourcesKept::kept_sources, rules::specs::Kinds::number_of))]
fn keep(
    job: &[u8],
    index: &mut [u32; INDEX],
    sources: &mut Sources,
    kind: Kind,
    c: Counts,
    at: usize,
)
    requires limited { Limited c × (at < 4294967296) }
    requires for_face { kind ≡ FaceRecord → c.faces < 256 }
    requires for_loop { is_loop kind ≡ true → 0 < c.faces }
    requires for_answer { is_answer kind ≡ true → c.answers < 2048 }
    ensures places { index.new ≡ kept_index kind job.now index.old c at }
    ensures numbers { sources.new ≡ kept_sources kind job.now sources.old c at }
{
    match kind {
        Kind::Unknown | Kind::Head | Kind::Vertex | Kind::EdgeRecord => {}
        Kind::FaceRecord => {
            put(index, FACES + c.faces, at);
            sources.enter(job, c.faces, at);
        }
        Kind::LoopRecord | Kind::VertexLoop => {
            put(index, LOOPS + c.loops, at);
            put(index, OWNERS + c.loops, c.faces - 1);
        }
        // the answers
        _ => answers::enter(job, index, c.answers, at),
    }
}

// The record at a byte is entered; the counts after it, and the byte of the next. Functions over the parts: as methods of a
// struct of job, index and sources they took 1 to 3 % more instructions, and with the counts and the place in it 20 to
// 24 % (tried).
fn step(
    job: &[u8],
    index: &mut [u32; INDEX],
    sources: &mut Sources,
    c: Counts,
    at: usize,
) -> Result<(Counts, usize), Refusal>
    requires { Going job.now index.old sources.old c at × (at < length job.now) }
    ensures loads { (result and_then λ next. Ok (state_in job.now index.new next.0)) ≡ load_record (frame_at at (drop at job.now)) (state_in job.now index.old c) }
    ensures goes_on { IfOk result (λ next. OnTo job.now index.new sources.new at next.0 next.1) }
{
    if !is_whole(job, at) {
        return Err(Fault::CutShort.at(at));
    }
    let size = word(job, at);
    let kind = Kind::from(half(job, at + 4));
    let raw = RawJob {
        bytes: job,
        index,
        counts: c,
    };
    judge(&raw, sources, Header { at, kind, size })?;
    keep(job, index, sources, kind, c, at);
    let after = records::count_record(kind, size / 4, c);
    Ok((after, at + 6 + size))
}

// The records in order, up to the first refusal. The index is all 0 at first.
fn load_in(job: &[u8], index: &mut [u32; INDEX]) -> Result<Counts, Refusal>
    requires { index.old ≡ replicate 7424 0 }
    ensures loads { (result and_then λ c. Ok (state_in job.now index.new c)) ≡ loading job.now }
    ensures indexed { IfOk result (λ c. Indexed job.now index.new c) }
{
    if MOST_BYTES < job.len() {
        return Err(Fault::TooLong.at(MOST_BYTES));
    }
    if job.is_empty() {
        return Err(Fault::Misplaced.at(0));
    }
    let mut sources = Sources::new();
    let mut c = Counts::default();
    let mut at: usize = 0;
    // a `while`: where the next record begins is known only once this one is read
    while at < job.len() {
        (c, at) = step(job, index, &mut sources, c, at)?;
    }
    Ok(c)
}

// The same for an index that is lent as a slice.
pub fn load(job: &[u8], index: &mut [u32]) -> Result<Counts, Refusal>
    requires { index.old ≡ replicate 7424 0 }
    ensures loads { (result and_then λ c. Ok (state_in job.now index.new c)) ≡ loading job.now }
    ensures indexed { IfOk result (λ c. Indexed job.now index.new c) }
{
    match index.as_mut_array::<INDEX>() {
        Some(room) => load_in(job, room),
        // there are as many as are asked for
        None => Err(Fault::TooLong.at(0)),
    }
}

// The loaded job over an index that is all 0 at first, or the refusal of load.
pub fn open<'a>(job: &'a [u8], index: &'a mut [u32; INDEX]) -> Result<Loaded<'a>, Refusal>
    requires { index.old ≡ replicate 7424 0 }
    ensures { result ≡ loaded job.now }
{
    let counts = load_in(job, index)?;
    Ok(Loaded::new(job, index, counts))
}

// THE LOOP REQUEST

// A loop's payload, from its first byte to the byte after it.
#[derive(Clone, Copy)]
pub struct Stretched {
    pub start: usize,
    pub end: usize,
}

// The payload of loop n among both sorts; after the refusals of load a number too high is refused.
pub fn loop_stretch(job: &[u8], n: usize) -> Result<Stretched, Refusal>
    ensures finds { (result and_then λ r. Ok (record { start = r.start; size = r.end - r.start })) ≡ requested job.now n }
    ensures within { IfOk result (λ r. (r.start < r.end) × (r.end ≤ length job.now)) }
{
    let mut index = [0u32; INDEX];
    let c = load_in(job, &mut index)?;
    if c.loops <= n {
        return Err(Fault::FieldNotPermitted.at(n));
    }
    let raw = RawJob {
        bytes: job,
        index: &index,
        counts: c,
    };
    let start = raw.loop_start(n);
    Ok(Stretched {
        start,
        end: start + raw.loop_size(n),
    })
}

// The bytes of the job that hold the payload of loop n, where they stand in the job; none where the request is refused.
pub fn loop_payload(job: &[u8], n: usize) -> &[u8]
    ensures { (result.now ≡ shown job.now (requested job.now n)) × Placed job.entry.ref_ptr (requested job.now n) result.ref_ptr }
{
    match loop_stretch(job, n) {
        Ok(bytes) => &job[bytes.start..bytes.end],
        Err(_) => &job[0..0],
    }
}
