// What a board keeps in memory: tables of documents, held revisions, contents of heads and logs. Memory for them is
// taken once, when they are made.
#![tactic(auto)]

ghost use Rattle.std.specs.Prelude.{◌≡◌, ◌+◌, ◌-◌, ◌*◌, ◌<◌, ◌≤◌, ◌++◌, length, IfSome, IfOk, Some, None, Ok, vec_len, vec_capacity, Decides, MatchOption, slice_index_or};
ghost use Rattle.octets.specs.Packed.{unpacked};
ghost use Rattle.peer.specs.Records.{blank};
ghost use Rattle.peer.specs.Peers.{path};
ghost use Rattle.peer.specs.Functions.{Function, path_given};
ghost use Rattle.peer.specs.Replies.{plain};
ghost use Rattle.entries.specs.Searches.{place};
ghost use Rattle.tables.specs.Tables.{record_of};
ghost use Rattle.entries.specs.Entries.{is_document, slot_at};
ghost use Rattle.tables.specs.Tags.{tag_at};
ghost use Rattle.tables.specs.PathReads.{path_of};
ghost use Rattle.tables.specs.Sound.{Sound, Reserved};
ghost use Rattle.tables.specs.Paths.{LookedUp, NewestRead, slot_for, placed, rows, renewed, Keeps, Fits, Grown, generation_of, kept_slot, Wrote, place_for};
ghost use Rattle.std.specs.Borrow.{sem, follows};
ghost use Rattle.std.specs.Vec.{with_item};
ghost use Rattle.tables.specs.contracts.Tables.{the_row};
ghost use Rattle.entries.specs.contracts.HeldRevision.{the_row as revision_row};
ghost use Rattle.tables.specs.Calls.{PathReplied, Writes};

use decline::{Decline, Fault};
use entries::{Content, Document, HeldRevision, KeyedLog, RevisionOf, place_in};
use path::Path;
use revision::{DocumentId, Revision};
use std::alloc::{AllocError, Global};

// How many documents, revisions, heads and logs there is room for.
const DOCUMENTS: usize = 32;

const REVISIONS: usize = 1024;

const HEADS: usize = 64;

const LOGS: usize = 8;

// The tables. Whoever changes them must keep them sound: every call asks for that.
// Kept: by a rule of the project the tables stand in a record without an invariant in its type; its calls keep `Sound`.
#[derive(Drop)]
pub struct Tables {
    pub documents: Vec<Document>,
    pub revisions: Vec<HeldRevision>,
    pub contents: Vec<Content>,
    pub logs: Vec<KeyedLog>,
    pub highest: u32,
}

// A generation of a path that is held: the place of its entry, and its slot if it is a head.
#[derive(Clone, Copy)]
struct Held {
    generation: u8,
    place: usize,
    slot: Option<u8>,
}

mod logs;
mod path;

// An entry stands at its place, or behind all.
// Kept: here and below clauses ask for the reserved memory and keep it, since by a rule of the project no type of the tables has an invariant.
fn put_at<T: Copy>(entries: &mut Vec<T>, at: usize, entry: T)
    requires known { at ≤ vec_len entries.old }
    requires room { at < vec_capacity entries.old }
    ensures entries { entries.new.items ≡ renewed entries.old.items at entry }
    ensures capacity { vec_capacity entries.new ≡ vec_capacity entries.old }
{
    if at < entries.len() {
        entries[at] = entry;
    } else {
        entries.push_reserved(entry);
    }
}

// Lays a content into a slot, or into a new one, and answers which.
fn place_content(contents: &mut Vec<Content>, slot: Option<u8>, content: Content) -> u8
    requires room { MatchOption slot (length contents.old.items < 64) (λ s. s < length contents.old.items) }
    requires few { length contents.old.items ≤ 64 }
    requires capacity { 64 ≤ vec_capacity contents.old }
    ensures slot { result ≡ slot_for contents.old.items slot }
    ensures contents { contents.new.items ≡ placed contents.old.items slot content }
    ensures capacity { vec_capacity contents.new ≡ vec_capacity contents.old }
{
    let s = slot.unwrap_or(contents.len() as u8);
    put_at(contents, s as usize, content);
    s
}

// Kept: the place of a document and a path are two arguments, here and below: a path is read before its document is looked up, which may not be there yet.
// Adds the entries of the generations of a path after generation k; the last has a slot.
fn add_missing(revisions: &mut Vec<HeldRevision>, document: u8, path: &Path, k: u8, slot: u8)
    requires capacity { 1024 ≤ vec_capacity revisions.old }
    requires order { k ≤ path.now.generation }
    requires room { vec_len revisions.old + (path.now.generation - k) ≤ 1024 }
    ensures revisions { revisions.new.items ≡ revisions.old.items ++ rows document (tag_at path.now.tags.now) path.now.generation slot k (path.now.generation - k) }
    ensures capacity { vec_capacity revisions.new ≡ vec_capacity revisions.old }
{
    for generation in k + 1..=path.generation {
        revisions.push_reserved(HeldRevision {
            tag: path.tag(generation),
            parent: path.tag(generation - 1),
            document,
            generation,
            slot: (generation == path.generation).then_some(slot),
        });
    }
}

impl Tables {
    // Empty tables. This is the only call that can fail for want of memory.
    pub fn new(heap: Global) -> Result<Tables, AllocError>
        ensures sound { IfOk result (λ t. Sound t) }
        ensures blank { IfOk result (λ t. record_of t ≡ blank) }
    {
        let documents = Vec::with_capacity(heap, DOCUMENTS)?;
        let revisions = Vec::with_capacity(heap, REVISIONS)?;
        let contents = Vec::with_capacity(heap, HEADS)?;
        let logs = Vec::with_capacity(heap, LOGS)?;
        Ok(Tables {
            documents,
            revisions,
            contents,
            logs,
            highest: 0,
        })
    }

    // How many bytes the tables take: their own, and the memory that is asked for when they are made.
    pub fn bytes() -> usize
        ensures { result ≡ 33320 }
    {
        let entries = DOCUMENTS * size_of::<Document>() + REVISIONS * size_of::<HeldRevision>();
        let kept = HEADS * size_of::<Content>() + LOGS * size_of::<KeyedLog>();
        size_of::<Tables>() + entries + kept
    }

    // The place of the entry of a path's generation, if that is held; declined 34 where it is held under another parent.
    fn look_up(&self, document: u8, path: &Path, generation: u8) -> Result<Option<usize>, Fault>
        requires low { 0 < generation }
        requires high { generation ≤ path.now.generation }
        ensures { LookedUp self.now document path.now generation result }
    {
        let revisions = self.revisions.as_slice();
        let revision = RevisionOf {
            document,
            revision: Revision {
                generation,
                tag: path.tag(generation),
            },
        };
        let Some(place) = place_in(revisions, &revision) else {
            return Ok(None);
        };
        if revisions[place].parent != path.tag(generation - 1) {
            return Err(Decline::Contradiction.into());
        }
        Ok(Some(place))
    }

    // The newest generation of a path that is held, or none; declined 34 where one is held under another parent. The table
    // is gone through once for each generation.
    fn newest_held(&self, document: u8, path: &Path) -> Result<Option<Held>, Fault>
        requires { Sound self.now }
        ensures { NewestRead self.now document path.now result }
    {
        let mut newest = None;
        for generation in 1..=path.generation {
            if let Some(place) = self.look_up(document, path, generation)? {
                let slot = self.slot_at(place);
                newest = Some(Held {
                    generation,
                    place,
                    slot,
                });
            }
        }
        Ok(newest)
    }

    // An entry of the revisions, lent to be changed.
    // Kept: by a rule of the project the entry of the newest held ancestor is lent through the record that has the table, and changed where it stands.
    fn revision_mut(&mut self, i: usize) -> &mut HeldRevision
        requires { i < vec_len self.old.revisions }
        ensures* follows { sem 𝓛 (follows the_row revision_row self.entry.ghost_name result.ghost_name (λ w. record { documents = self.old.documents; revisions = with_item self.old.revisions i w; contents = self.old.contents; logs = self.old.logs; highest = self.old.highest })) }
        ensures value { result.now ≡ slice_index_or self.old.revisions.items i result.now }
    {
        &mut self.revisions[i]
    }

    // The slot of the entry at a place, if it is a head's; none where there is no such place.
    fn slot_at(&self, place: usize) -> Option<u8>
        requires { Sound self.now }
        ensures value { result ≡ slot_at self.now.revisions.items (Some place) }
        ensures within { IfSome result (λ s. s < length self.now.contents.items) }
    {
        self.revisions.get(place)?.slot
    }

    // Whether a slot keeps the mark and the body of a path; a revision without a slot keeps nothing else.
    fn keeps(&self, slot: Option<u8>, path: &Path) -> bool
        requires { IfSome slot (λ s. s < length self.now.contents.items) }
        ensures { Decides result (Keeps self.now.contents.items slot (path_of path.now).content) }
    {
        let contents = self.contents.as_slice();
        let Path { mark, body, .. } = *path;
        slot.is_none_or(|s| contents[s as usize].keeps(mark, body))
    }

    // Whether there is room for a document at a place, so many revisions, a head and a change number.
    fn has_room(&self, document: usize, missing: u8, slot: Option<u8>) -> bool
        ensures { Decides result (Fits self.now document missing slot) }
    {
        document < DOCUMENTS
            && self.revisions.len() <= REVISIONS - missing as usize
            && (slot.is_some() || self.contents.len() < HEADS)
            && self.highest < u32::MAX
    }

    // The place of a document, or that behind all.
    // Kept: the entries of a new document's revisions name its place before it is there, so one number is plainer than an `Option`.
    fn place_for(&self, id: DocumentId) -> usize
        ensures value { result ≡ place_for self.now.documents.items (place (is_document (unpacked id.bytes)) 0 self.now.documents.items) }
        ensures within { result ≤ length self.now.documents.items }
    {
        let documents = self.documents.as_slice();
        place_in(documents, &id).unwrap_or(documents.len())
    }

    // Adds the generations of a path after the newest held one.
    fn extend(&mut self, document: usize, path: &Path, newest: Option<Held>)
        requires reserved { Reserved self.old }
        requires order { generation_of newest < path.now.generation }
        requires known { document ≤ length self.old.documents.items }
        requires there { IfSome newest (λ held. held.place < length self.old.revisions.items) }
        requires kept { IfSome (kept_slot newest) (λ s. s < length self.old.contents.items) }
        requires room { Fits self.old document (path.now.generation - generation_of newest) (kept_slot newest) }
        ensures { Grown self.old document path.now newest self.new }
    {
        let (k, slot) = match newest {
            Some(held) => {
                self.revision_mut(held.place).slot = None;
                (held.generation, held.slot)
            }
            None => (0, None),
        };
        let content = path.content();
        let slot = place_content(&mut self.contents, slot, content);
        add_missing(&mut self.revisions, document as u8, path, k, slot);
        self.highest += 1;
        let entry = Document {
            id: path.id,
            last: self.highest,
        };
        put_at(&mut self.documents, document, entry);
    }

    // Writes a path to the document at a place.
    // Kept: here and below the answer is the number 0 or 1 that the peer's call gives, passed up as it is.
    fn write_at(&mut self, document: usize, path: &Path) -> Result<u32, Fault>
        requires sound { Sound self.old }
        requires known { document ≤ length self.old.documents.items }
        ensures { Wrote self.old document path.now result self.new }
    {
        let newest = self.newest_held(document as u8, path)?;
        let generation = newest.map_or(0, |held| held.generation);
        let slot = newest.and_then(|held| held.slot);
        if generation == path.generation {
            if self.keeps(slot, path) {
                return Ok(0);
            }
            return Err(Decline::Contradiction.into());
        }
        if !self.has_room(document, path.generation - generation, slot) {
            return Err(Decline::Full.into());
        }
        self.extend(document, path, newest);
        Ok(1)
    }

    // Writes a path.
    fn write(&mut self, path: &Path) -> Result<u32, Fault>
        requires { Sound self.old }
        ensures sound { Sound self.new }
        ensures replies { PathReplied self.old (path_of path.now) result self.new }
    {
        let document = self.place_for(path.id);
        self.write_at(document, path)
    }

    // Writes the path of a revision: the tags of its line, its mark and its body; 1 if that changes something, else 0.
    // Declined 11 to 14 for the input, then 34 where it is contradicted, then 35 where it would change something and
    // there is no room.
    pub fn path_write(
        &mut self,
        id: &[u8],
        generation: u8,
        tags: &[u8],
        mark: u8,
        body: &[u8],
    ) -> Result<u32, Fault>
        requires { Sound self.old }
        ensures sound { Sound self.new }
        ensures writes { Writes (Function.path_write id.now generation tags.now mark body.now) plain (path (path_given id.now generation tags.now mark body.now)) self.old result self.new }
    {
        let path = Path::read(id, generation, tags, mark, body)?;
        self.write(&path)
    }
}
