// A path of good input.
ghost use Rattle.std.specs.Prelude.{◌≡◌, ℕ, ◌*◌, ◌≤◌, true, length};
ghost use Rattle.revision.specs.Ids.{IsId, good_tag};
ghost use Rattle.revision.specs.Values.{mark_number};
ghost use Rattle.entries.specs.Entries.{content, content_of};
ghost use Rattle.tables.specs.Tags.{tag_at};

use decline::{Decline, Fault};
use entries::{BODY, Content};
use octets::number_of;
use revision::{DocumentId, Mark, is_generation};

// A path of good input: the id of a document, the tags of generations 1 to the last, 8 bytes each, and the mark and the
// body of the last one.
#[derive(Clone, Copy)]
pub struct Path<'a> {
    pub id: DocumentId,
    pub generation: u8,
    pub tags: &'a [u8],
    pub mark: Mark,
    pub body: &'a [u8],
    pub ghost named: { IsId id.bytes },
    pub ghost some: { 1 ≤ generation },
    pub ghost few: { generation ≤ 200 },
    pub ghost long: { length tags.now ≡ 8 * generation },
    pub ghost tagged: { (g : ℕ) → good_tag (tag_at tags.now g) ≡ true },
    pub ghost short: { length body.now ≤ 96 },
}

impl<'a> Path<'a> {
    ghost use Rattle.tables.specs.PathReads.{PathRead};

    // Reads a path: declined 11 for its id, 12 for a bad generation or where the tags are not 8 bytes for each, 13 for its
    // mark, 14 for its body.
    pub fn read(
        id: &[u8],
        generation: u8,
        tags: &'a [u8],
        mark: u8,
        body: &'a [u8],
    ) -> Result<Path<'a>, Fault>
        ensures { PathRead id.now generation tags.now mark body.now result }
    {
        let id = DocumentId::read(id)?;
        if !is_generation(u64::from(generation)) || tags.len() != 8 * generation as usize {
            return Err(Decline::Revision.into());
        }
        let mark = Mark::try_from(mark)?;
        if body.len() > BODY {
            return Err(Decline::Body.into());
        }
        Ok(Path {
            id,
            generation,
            tags,
            mark,
            body,
        })
    }

    // What the head of the path is to keep.
    pub fn content(&self) -> Content
        ensures is { content_of result ≡ content (mark_number self.now.mark) self.now.body.now }
        ensures short { result.length ≤ 96 }
    {
        Content::new(self.mark, self.body)
    }

    // The tag of a generation; 0 of generation 0.
    // Kept: 0 is what the table has for the parent of generation 1; an `Option<u64>` would take 8 bytes more of each entry.
    pub fn tag(&self, generation: u8) -> u64
        requires { generation ≤ self.now.generation }
        ensures { result ≡ tag_at self.now.tags.now generation }
    {
        if generation == 0 {
            return 0;
        }
        let end = 8 * generation as usize;
        number_of(&self.tags[end - 8..end])
    }
}
