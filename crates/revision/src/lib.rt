// Document ids, revisions, marks and heads; the order of heads, winners and conflicts.
#![tactic(auto)]

ghost use Rattle.std.specs.Prelude.{◌≡◌, ℕ, ◌<◌, ◌≤◌, Bool, true, false, List, length, Decides};
ghost use Rattle.std.proofs.Common.{rules};
ghost use Rattle.std.specs.Cmp.{partial_order_from_own_ties};
ghost use Rattle.std.specs.Cmp.Rules.{comparing};
ghost use Rattle.std.specs.Ordering.{MatchOrdering as ByOrdering, as_partial_cmp, flip_args, nat_cmp, on};
ghost use Rattle.order.specs.Lists.{every};
ghost use Rattle.order.specs.Order.{TotalOrder};
ghost use Rattle.revision.specs.Ids.{id_byte, good_generation, IsId};
ghost use Rattle.revision.specs.Heads.{live};
ghost use Rattle.revision.specs.Laws.{TreeLaws};
ghost use Rattle.revision.specs.Values.{IdRead, IdLaid, RevisionMade, mark_number, MarkRead, head_mark, Lower, Winner, Conflicts};

use decline::{Decline, Fault};
use octets::Packed;
use order::{arrange, greatest};
use std::cmp::Ordering;

mod ranked;

// A document's id in plain numbers. Whatever numbers it is made of, only those of an id are laid out as bytes.
#[derive(Clone, Copy, PartialEq, Eq, Debug)]
pub struct DocumentId {
    pub bytes: Packed,
}

// Whether every byte may stand in an id.
pub fn id_bytes(bytes: &[u8]) -> bool
    ensures { result ≡ every id_byte bytes.now }
{
    bytes.iter().all(|b| b.is_ascii_graphic())
}

impl DocumentId {
    // Reads an id of 1 to 16 bytes, each 0x21 to 0x7e; anything else is declined 11.
    // Kept: a named function in place of TryFrom<&[u8]>, under which callers would have to cut each array literal to a slice.
    pub fn read(bytes: &[u8]) -> Result<DocumentId, Fault>
        ensures { IdRead bytes.now result }
    {
        if bytes.is_empty() || !id_bytes(bytes) {
            return Err(Fault::from(Decline::Id));
        }
        let bytes = Packed::read(bytes).ok_or(Decline::Id)?;
        Ok(DocumentId { bytes })
    }

    // Whether the numbers are an id's.
    fn is_id(self) -> bool
        ensures { Decides result (IsId self.bytes) }
    {
        let all = self.bytes.bytes();
        DocumentId::read(self.bytes.cut(&all)) == Ok(self)
    }

    // Lays the id's bytes into memory of at least 16 bytes and answers how many they are. Numbers that are no id's are
    // declined 11, shorter memory 18.
    // Kept: by the rule of lent memory the host's memory takes the bytes, and how many they are is the answer.
    pub fn lay(self, out: &mut [u8]) -> Result<usize, Fault>
        ensures { IdLaid self.bytes out.old result out.new }
    {
        if !self.is_id() {
            return Err(Fault::from(Decline::Id));
        }
        if out.len() < 16 {
            return Err(Fault::from(Decline::Memory));
        }
        let all = self.bytes.bytes();
        let id = self.bytes.cut(&all);
        out[..id.len()].copy_from_slice(id);
        Ok(id.len())
    }
}

// Whether a number is a generation, 1 to 200.
pub fn is_generation(number: u64) -> bool
    ensures { result ≡ good_generation number }
{
    (1..=200).contains(&number)
}

// Kept: plain state, as ids are: no invariant, by a rule of the project, so calls that take one test it.
// A revision: its generation, 1 to 200, and its tag; ordered by the generation, then by the tag. The defaults here and
// below are no revision and no head: they fill the unused places of fixed memory.
#[derive(Clone, Copy, PartialEq, Eq, PartialOrd, Ord, Default, Debug)]
pub struct Revision {
    pub generation: u8,
    pub tag: u64,
}

impl Revision {
    // A revision; a generation outside 1 to 200 is declined 12.
    pub fn new(generation: u8, tag: u64) -> Result<Revision, Fault>
        ensures { RevisionMade generation tag result }
    {
        if !is_generation(u64::from(generation)) {
            return Err(Fault::from(Decline::Revision));
        }
        Ok(Revision { generation, tag })
    }
}

// A head is live, or it says that the document is deleted.
#[derive(Clone, Copy, PartialEq, Eq, Default, Debug)]
pub enum Mark {
    #[default]
    Live,
    Deleted,
}

// Live is above deleted: marks go the other way round than their numbers, which `as` gives, too.
// Kept: a derived order would go by the numbers, and put deleted above live.
impl Ord for Mark {
    ghost cmp = { flip_args (on mark_number nat_cmp) };

    ghost total = { Prim.search (comparing, rules) };

    ghost matches_partial_cmp = { Prim.search (comparing, rules) };

    ghost matches_eq = { Prim.search (comparing, rules) };

    fn cmp(&self, other: &Mark) -> Ordering {
        u8::from(*other).cmp(&u8::from(*self))
    }
}

impl PartialOrd for Mark {
    ghost partial_cmp = { as_partial_cmp (flip_args (on mark_number nat_cmp)) };

    ghost laws = { partial_order_from_own_ties (Prim.search (comparing, rules)) (Prim.search (comparing, rules)) };

    fn partial_cmp(&self, other: &Mark) -> Option<Ordering> {
        Some(self.cmp(other))
    }
}

// The mark that a number stands for; above 1 it is declined 13.
impl TryFrom<u8> for Mark {
    type Error = Fault;

    ghost try_from_gives = { MarkRead };

    fn try_from(number: u8) -> Result<Mark, Fault> {
        match number {
            0 => Ok(Mark::Live),
            1 => Ok(Mark::Deleted),
            _ => Err(Fault::from(Decline::Mark)),
        }
    }
}

// The number of a mark: 0 live, 1 deleted.
impl From<Mark> for u8 {
    ghost from_gives = { λ mark number. number ≡ mark_number mark };

    fn from(mark: Mark) -> u8 {
        match mark {
            Mark::Live => 0,
            Mark::Deleted => 1,
        }
    }
}

// A head by what its order looks at: the mark, then the revision.
#[derive(Clone, Copy, PartialEq, Eq, PartialOrd, Ord, Default, Debug)]
pub struct Head {
    pub mark: Mark,
    pub revision: Revision,
}

// The winner of a document's heads: the greatest.
pub fn winner(heads: &[Head]) -> Option<Head>
    ensures total { TotalOrder Lower }
    ensures compares { (h k : Head) → ByOrdering (⟦<Head as Ord>⟧.cmp h k) (Lower h k) (h ≡ k) (Lower k h) }
    ensures winner { Winner heads.now result }
{
    let place = greatest(heads)?;
    Some(heads[place])
}

// How many heads are live.
fn live_in(heads: &[Head]) -> usize
    ensures { result ≡ length (live head_mark heads.now) }
{
    heads.iter().filter(|head| head.mark == Mark::Live).count()
}

// Puts a document's heads in order, greatest first, and answers how many conflicts there are: they stand right behind
// the winner.
// Kept: with a slice of them as the result, no clause can name the heads after the call, and the order that they are in is promised of these.
pub fn conflicts(heads: &mut [Head]) -> usize
    ensures { Conflicts heads.old result heads.new }
{
    arrange(heads);
    live_in(heads).saturating_sub(1)
}

// How many laws of trees are proved.
pub fn tree_laws_hold() -> u8
    ensures laws { TreeLaws }
    ensures count { result ≡ 2 }
{
    let shown = 2;
    shown
}
