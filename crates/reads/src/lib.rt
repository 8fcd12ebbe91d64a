// Reads of a board's tables, each answered as a peer that is up and stands on their record: rows of the feed, held
// revisions and their lines, bodies of heads, and log entries. Heads stand in a module of their own.
#![tactic(auto)]

ghost use Rattle.std.specs.Prelude.{◌≡◌, ◌+◌, ◌-◌, ◌*◌, ◌<◌, ◌≤◌, true, [], ◌++◌, length, drop, All, Contains, IfNone, IfSome, Some, None, Ok};
ghost use Rattle.octets.specs.Packed.{unpacked};
ghost use Rattle.checkpoint.specs.Values.{pair};
ghost use Rattle.peer.specs.Functions.{Function};
ghost use Rattle.peer.specs.Replies.{plain, perhaps, row_of, RowHasId, body_bytes, TellsBody, Fits};
ghost use Rattle.entries.specs.Searches.{first};
ghost use Rattle.entries.specs.Entries.{is_revision, tree_at, content_of};
ghost use Rattle.tables.specs.Sound.{Sound};
ghost use Rattle.tables.specs.Calls.{Answered};
ghost use Rattle.reads.specs.Reads.{Reads, IsEntry, HasEntry, changed_after, ReadsInto};
ghost use Rattle.octets.specs.BigEndian.{in_eights};
ghost use Rattle.reads.specs.Heads.{HeadSlot, LineLaid};

use checkpoint::Entry;
use decline::{Decline, Fault};
use entries::{Content, Document, Finds, HeldRevision, RevisionOf, place_in};
use keys::Key;
use peer::{Body, Row};
use revision::{DocumentId, Revision};
use tables::Tables;

mod heads;

pub use heads::{head_at, head_count};

// Of the documents with a last change number above n the one with the smallest.
fn next_in(documents: &[Document], n: u32) -> Option<Document>
    ensures none { IfNone result (changed_after n documents.now ≡ []) }
    ensures there { IfSome result (Contains documents.now) }
    ensures after { IfSome result (λ d. n < d.last) }
    ensures first { IfSome result (λ d. All (λ e. d.last ≤ e.last) (changed_after n documents.now)) }
{
    documents
        .iter()
        .copied()
        .filter(|d| d.last > n)
        .min_by_key(|d| d.last)
}

// The entry of a document's revision, if it is held.
// Kept: beside `entries::place_in`, since each is one call of std's: `find` gives the entry, `position` its place.
fn held_entry(tables: &Tables, of: RevisionOf) -> Option<HeldRevision>
    ensures { result ≡ first (is_revision of.document of.revision.generation of.revision.tag) tables.now.revisions.items }
{
    tables
        .revisions
        .iter()
        .copied()
        .find(|entry| of.is_of(entry))
}

// Kept: id and revision are two arguments here, too; a struct of both would be read in three calls and taken apart at once.
// The entry of a revision, if it is held.
fn entry_of(tables: &Tables, id: DocumentId, revision: Revision) -> Option<HeldRevision>
    requires { Sound tables.now }
    ensures { HasEntry tables.now (unpacked id.bytes) revision.generation revision.tag result }
{
    let document = place_in(&tables.documents, &id)? as u8;
    held_entry(tables, RevisionOf { document, revision })
}

// The row with the smallest change number above n, or none.
pub fn row_after(tables: &Tables, n: u32) -> Option<Row>
    requires { Sound tables.now }
    ensures named { RowHasId (Ok result) }
    ensures row { Answered (Function.row_after n) tables.now (perhaps row_of result) }
{
    let next = next_in(tables.documents.as_slice(), n)?;
    Some(Row {
        id: next.id,
        change: next.last,
    })
}

// Whether a revision is held.
pub fn is_held(tables: &Tables, id: &[u8], revision: Revision) -> Result<bool, Fault>
    requires { Sound tables.now }
    ensures { Reads (Function.is_held id.now revision.generation revision.tag) plain tables.now result }
{
    let id = DocumentId::read(id)?;
    let revision = Revision::new(revision.generation, revision.tag)?;
    Ok(entry_of(tables, id, revision).is_some())
}

// Entry i of the log of a key, 0 the newest, or none.
pub fn log_entry(tables: &Tables, key: &[u8], i: u32) -> Result<Option<Entry>, Fault>
    ensures { Reads (Function.log_entry key.now i) (perhaps pair) tables.now result }
{
    let key = Key::read(key)?;
    let logs = tables.logs.as_slice();
    Ok(place_in(logs, &key).and_then(|at| logs[at].log.entry(i as usize)))
}

// Lays the body in front of lent memory, and answers the mark and how many bytes were laid.
fn lay_body(content: &Content, out: &mut [u8]) -> Body
    requires { 96 ≤ length out.old }
    ensures tells { TellsBody result (content_of content.now) }
    ensures body { out.new ≡ (content_of content.now).body ++ drop (length (content_of content.now).body) out.old }
{
    let body = content.bytes();
    out[..body.len()].copy_from_slice(body);
    Body {
        mark: content.mark,
        length: body.len(),
    }
}

// The entry of the parent of a revision that is held; none of a root's, for which the table is not gone through.
fn parent_of(tables: &Tables, entry: HeldRevision) -> Option<HeldRevision>
    requires sound { Sound tables.now }
    requires low { 0 < entry.generation }
    ensures { result ≡ first (is_revision entry.document (entry.generation - 1) entry.parent) tables.now.revisions.items }
{
    if entry.generation == 1 {
        return None;
    }
    let revision = Revision {
        generation: entry.generation - 1,
        tag: entry.parent,
    };
    held_entry(
        tables,
        RevisionOf {
            document: entry.document,
            revision,
        },
    )
}

// Lays the tags of a held revision's line in front of lent memory, from the revision down to generation 1.
fn lay_line(tables: &Tables, entry: HeldRevision, out: &mut [u8])
    requires sound { Sound tables.now }
    requires held { IsEntry tables.now entry }
    requires room { 8 * entry.generation ≤ length out.old }
    ensures { LineLaid (tree_at tables.now.revisions.items tables.now.contents.items entry.document) entry.generation entry.tag out.old out.new }
{
    let mut next = Some(entry);
    while let Some(entry) = next {
        let place = entry.generation as usize - 1;
        out[8 * place..8 * place + 8].copy_from_slice(&entry.tag.to_be_bytes());
        next = parent_of(tables, entry);
    }
}

// Lays the tags of a held revision's line in front of lent memory of at least 1,600 bytes, 8 bytes each, generation 1
// first, and answers how many bytes they are.
// Kept: this and `body_of` differ in their bound on memory and in what they look up and answer; alike are the two lines that read the input.
pub fn tags_of(
    tables: &Tables,
    id: &[u8],
    revision: Revision,
    out: &mut [u8],
) -> Result<usize, Fault>
    requires { Sound tables.now }
    ensures { ReadsInto (Function.tags_of id.now revision.generation revision.tag (length out.old)) in_eights (Fits in_eights) tables.now out.old result out.new }
{
    let id = DocumentId::read(id)?;
    let revision = Revision::new(revision.generation, revision.tag)?;
    if out.len() < 1600 {
        return Err(Fault::from(Decline::Memory));
    }
    let entry = entry_of(tables, id, revision).ok_or(Decline::Absent)?;
    lay_line(tables, entry, out);
    Ok(8 * revision.generation as usize)
}

// The slot of a head's content; none where the revision is no head.
fn head_slot(tables: &Tables, id: DocumentId, revision: Revision) -> Option<u8>
    requires { Sound tables.now }
    ensures { HeadSlot tables.now (unpacked id.bytes) revision.generation revision.tag result }
{
    entry_of(tables, id, revision)?.slot
}

// The mark of a head and the length of its body, which is laid in front of lent memory of at least 96 bytes.
pub fn body_of(
    tables: &Tables,
    id: &[u8],
    revision: Revision,
    out: &mut [u8],
) -> Result<Body, Fault>
    requires { Sound tables.now }
    ensures { ReadsInto (Function.body_of id.now revision.generation revision.tag (length out.old)) body_bytes TellsBody tables.now out.old result out.new }
{
    let id = DocumentId::read(id)?;
    let revision = Revision::new(revision.generation, revision.tag)?;
    if out.len() < 96 {
        return Err(Fault::from(Decline::Memory));
    }
    let slot = head_slot(tables, id, revision).ok_or(Decline::Absent)?;
    Ok(lay_body(&tables.contents[slot as usize], out))
}
