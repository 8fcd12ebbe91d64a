// What the places of a board's tables hold, and where to find it: documents, held revisions, contents of heads, and logs
// by key.
#![tactic(auto)]

ghost use Rattle.std.specs.Prelude.{◌≡◌, ◌<◌, ◌≤◌, Bool, length, take, IfSome, Decides};
ghost use Rattle.octets.specs.Packed.{unpacked};
ghost use Rattle.order.specs.Lists.{same};
ghost use Rattle.revision.specs.Values.{mark_number};
ghost use Rattle.keys.specs.Values.{key_of};
ghost use Rattle.entries.specs.Searches.{place};
ghost use Rattle.entries.specs.Entries.{content_of, content, is_revision, is_document, is_log};

use checkpoint::Log;
use keys::Key;
use octets::Packed;
use revision::{DocumentId, Mark, Revision};

// How many bytes a body may have.
pub const BODY: usize = 96;

// A document with its last change number.
#[derive(Clone, Copy)]
pub struct Document {
    pub id: DocumentId,
    pub last: u32,
}

// A revision that is held: its tag and its parent's, its document's place, and, if it is a head, the slot of its
// content. The wide fields stand first.
// Kept: in fixed memory an entry takes 24 bytes: documents and contents go by their places, a first revision has parent 0, and a `Revision` inside would add 8.
#[derive(Clone, Copy)]
pub struct HeldRevision {
    pub tag: u64,
    pub parent: u64,
    pub document: u8,
    pub generation: u8,
    pub slot: Option<u8>,
}

impl HeldRevision {
    // The revision that is held.
    pub fn revision(&self) -> Revision
        ensures { result ≡ record { generation = self.now.generation; tag = self.now.tag } }
    {
        Revision {
            generation: self.generation,
            tag: self.tag,
        }
    }
}

// What a head keeps: its mark, and as many bytes of the body as the length says.
// Kept: in fixed memory a content takes 98 bytes; with the kit's `arrayvec`, whose length takes 8, it would take 112.
#[derive(Clone, Copy)]
pub struct Content {
    pub mark: Mark,
    pub length: u8,
    pub body: [u8; BODY],
}

impl Content {
    // A content of a mark and a body, of which the first 96 bytes are kept.
    pub fn new(mark: Mark, body: &[u8]) -> Content
        ensures is { content_of result ≡ content (mark_number mark) (take 96 body.now) }
        ensures short { result.length ≤ 96 }
    {
        let length = BODY.min(body.len());
        let mut all = [0; BODY];
        all[..length].copy_from_slice(&body[..length]);
        Content {
            mark,
            length: length as u8,
            body: all,
        }
    }

    // The body that is kept.
    pub fn bytes(&self) -> &[u8]
        ensures body { result.now ≡ (content_of self.now).body }
        ensures short { length result.now ≤ 96 }
    {
        &self.body[..(self.length as usize).min(BODY)]
    }

    // Whether this mark and body are kept.
    pub fn keeps(&self, mark: Mark, body: &[u8]) -> bool
        ensures { Decides result (content_of self.now ≡ content (mark_number mark) body.now) }
    {
        self.mark == mark && self.bytes() == body
    }
}

// The log of a key.
#[derive(Clone, Copy)]
pub struct KeyedLog {
    pub key: Key,
    pub log: Log,
}

// A revision of the document at a place.
#[derive(Clone, Copy)]
pub struct RevisionOf {
    pub document: u8,
    pub revision: Revision,
}

// What an entry is found by.
pub trait Finds<E> {
    // whether an entry is the one
    ghost finds: { Self → E → Bool };

    // Whether an entry is the one.
    fn is_of(&self, entry: &E) -> bool
        ensures { result ≡ finds self.now entry.now };
}

// Whether two packed byte strings are the same.
// Kept: the numbers of equal strings may differ behind their bytes, so a derived `==` of them would answer no.
fn same_bytes(a: Packed, b: Packed) -> bool
    ensures { result ≡ same (unpacked a) (unpacked b) }
{
    let ours = a.bytes();
    let theirs = b.bytes();
    a.cut(&ours) == b.cut(&theirs)
}

// A document is found by its id.
impl Finds<Document> for DocumentId {
    ghost finds = { λ id. is_document (unpacked id.bytes) };

    fn is_of(&self, entry: &Document) -> bool {
        same_bytes(entry.id.bytes, self.bytes)
    }
}

// A revision is found by its document's place, its generation and its tag. The generation is compared first, since in
// tables that path writes made there are no more entries of one generation than heads.
impl Finds<HeldRevision> for RevisionOf {
    ghost finds = { λ k. is_revision k.document k.revision.generation k.revision.tag };

    fn is_of(&self, entry: &HeldRevision) -> bool {
        entry.generation == self.revision.generation
            && entry.document == self.document
            && entry.tag == self.revision.tag
    }
}

// A log is found by its key.
impl Finds<KeyedLog> for Key {
    ghost finds = { λ k. is_log (key_of k) };

    fn is_of(&self, entry: &KeyedLog) -> bool {
        entry.key.source == self.source
            && entry.key.target == self.target
            && same_bytes(entry.key.rule.prefix, self.rule.prefix)
    }
}

// The place of the entry that a key finds.
pub fn place_in<E, K: Finds<E>>(entries: &[E], key: &K) -> Option<usize>
    ensures value { result ≡ place (K.finds key.now) 0 entries.now }
    ensures within { IfSome result (λ i. i < length entries.now) }
{
    entries.iter().position(|e| key.is_of(e))
}
