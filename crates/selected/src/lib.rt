// The selected faces by their source face numbers, while loading: a chain of faces for each bucket of numbers, latest
// first, so that a face is held only against those whose number could be its own. An entry of a chain is the number of
// a face plus one; 0 ends it. Entries are bytes, since the table is cleared for each job, however small; so the 256th
// face, after which a job can have none, is entered as 0.

#![tactic(auto)]

ghost use Rattle.std.specs.Prelude.{◌≡◌, ◌<◌};
ghost use Rattle.lists.specs.Lists.{some};
ghost use Rattle.rules.specs.Load.{same_source};
ghost use Rattle.job.specs.Lists.{face_in, faces_in};
ghost use Rattle.job.specs.Raw.{faces};
ghost use Rattle.selected.specs.Sources.{face_entered, Sourced};

use fields::{entry, get, put_entry, word};
use job::{FACES, RawJob, face_in};
use rules::{Counts, Face, MOST_FACES};

const BUCKETS: usize = 256;

// The head of the chain of each bucket, and the entry after each face.
#[derive(Drop)]
pub struct Sources {
    heads: [u8; BUCKETS],
    nexts: [u8; MOST_FACES],
}

// One face of one body.
#[inline(always)]
fn same_source(face: Face, other: Face) -> bool
    ensures { result ≡ same_source face other }
{
    face.body == other.body && face.source == other.source
}

// The face of the record at a byte is one of those selected before, by an index of any length and by chains that are lent:
// their heads, and the entry after each face.
pub fn selected_before(
    bytes: &[u8],
    index: &[u32],
    counts: Counts,
    heads: &[u8],
    nexts: &[u8],
    at: usize,
) -> bool
    requires sourced { Sourced bytes.now index.now (record { heads = heads.now; nexts = nexts.now }) counts }
    requires room { counts.faces < 256 }
    requires low { at < 4294967296 }
    ensures { result ≡ some (same_source (face_in bytes.now at)) (faces_in bytes.now index.now counts) }
{
    let face = face_in(bytes, at);
    // a `while`: `Chain` goes along a table of `u32`, these entries are bytes, and no other loop goes along such
    let mut i = entry(heads, face.source as usize % BUCKETS, 0) as usize;
    while 0 < i {
        let k = i - 1;
        if same_source(face, face_in(bytes, get(index, FACES + k))) {
            return true;
        }
        i = entry(nexts, k, 0) as usize;
    }
    false
}

// Face k, whose record stands at a byte, is entered in front of its chain. The heads of the chains and the entries after
// each face are lent, of any length.
#[tactic(auto, unfolding(crate::specs::Sources::face_entered, crate::specs::Sources::bucket_of))]
pub fn enter(job: &[u8], heads: &mut [u8], nexts: &mut [u8], k: usize, at: usize)
    requires { (k < 256) × (at < 4294967296) }
    ensures { record { heads = heads.new; nexts = nexts.new } ≡ face_entered job.now (record { heads = heads.old; nexts = nexts.old }) k at }
{
    let b = word(job, at + 22) % BUCKETS;
    put_entry(nexts, k, entry(heads, b, 0));
    put_entry(heads, b, ((k + 1) % 256) as u8);
}

impl Sources {
    ghost use Rattle.selected.specs.Sources.{no_sources};

    // Empty chains.
    #[inline(always)]
    pub fn new() -> Sources
        ensures { result ≡ no_sources }
    {
        Sources {
            heads: [0; BUCKETS],
            nexts: [0; MOST_FACES],
        }
    }

    // The face of the record at a byte is one of those selected before.
    pub fn selected_before(&self, raw: &RawJob<'_>, at: usize) -> bool
        requires sourced { Sourced raw.now.bytes.now raw.now.index.now self.now raw.now.counts }
        requires room { raw.now.counts.faces < 256 }
        requires low { at < 4294967296 }
        ensures { result ≡ some (same_source (face_in raw.now.bytes.now at)) (faces raw.now) }
    {
        let index = raw.index;
        selected_before(raw.bytes, index, raw.counts, &self.heads, &self.nexts, at)
    }

    // Face k, whose record stands at a byte, is entered in front of its chain.
    pub fn enter(&mut self, job: &[u8], k: usize, at: usize)
        requires { (k < 256) × (at < 4294967296) }
        ensures { self.new ≡ face_entered job.now self.old k at }
    {
        enter(job, &mut self.heads, &mut self.nexts, k, at);
    }
}
