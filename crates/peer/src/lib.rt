// Peers: what a source and a target of replication offer, and a guard that takes the right to write from any of them.
//
// Every function but the number may have to reach a device or a link, so power may fail in each: they take the peer by
// `&mut`. Each one's contract is an instance of one relation of calls between the peer's state before and after it.
#![tactic(auto)]

ghost use Rattle.std.specs.Prelude.{◌≡◌, length};
ghost use Rattle.octets.specs.BigEndian.{in_eights};
ghost use Rattle.checkpoint.specs.Values.{pair};
ghost use Rattle.peer.specs.Peers.{Number, Peer as State};
ghost use Rattle.peer.specs.Functions.{Function, Lined};
ghost use Rattle.peer.specs.Replies.{Replies, Fills, Wakes, plain, perhaps, row_of, RowHasId, revision_of, Fits, body_bytes, TellsBody};
ghost use Rattle.std.proofs.Common.{rules};

use checkpoint::Entry;
use decline::Fault;
use revision::{DocumentId, Mark, Revision};

// A row of the feed: a document, and its last change number.
#[derive(Clone, Copy, PartialEq, Eq, Debug)]
pub struct Row {
    pub id: DocumentId,
    pub change: u32,
}

// A head's mark, and the length of its body in lent memory.
#[derive(Clone, Copy, PartialEq, Eq, Debug)]
pub struct Body {
    pub mark: Mark,
    pub length: usize,
}

pub trait Peer {
    // what the peer means
    ghost state: { Self → State };

    // the condition that its own calls keep
    // Kept: by a rule of the project this is a condition of the calls and no invariant of a type.
    ghost kept: { Self → Type 0 };

    // Its number, never 0.
    fn number(&self) -> u32
        requires { kept self.now }
        ensures { Number (state self.now) result };

    // Its start stamp.
    fn start_stamp(&mut self) -> Result<u64, Fault>
        requires { kept self.old }
        ensures keeps { kept self.new }
        ensures calls { Replies Function.start_stamp plain (state self.old) result (state self.new) };

    // The row with the smallest change number above n, or none.
    fn row_after(&mut self, n: u32) -> Result<Option<Row>, Fault>
        requires { kept self.old }
        ensures keeps { kept self.new }
        ensures named { RowHasId result }
        ensures calls { Replies (Function.row_after n) (perhaps row_of) (state self.old) result (state self.new) };

    // How many heads a document has.
    fn head_count(&mut self, id: &[u8]) -> Result<u32, Fault>
        requires { kept self.old }
        ensures keeps { kept self.new }
        ensures calls { Replies (Function.head_count id.now) plain (state self.old) result (state self.new) };

    // A document's head i, 0 the greatest, or none.
    fn head_at(&mut self, id: &[u8], i: u32) -> Result<Option<Revision>, Fault>
        requires { kept self.old }
        ensures keeps { kept self.new }
        ensures calls { Replies (Function.head_at id.now i) (perhaps revision_of) (state self.old) result (state self.new) };

    // Whether a revision is held.
    // Kept: id and revision are two arguments, here and below: an id comes as bytes, which may be no id, and `head_at` gives revisions alone.
    fn is_held(&mut self, id: &[u8], revision: Revision) -> Result<bool, Fault>
        requires { kept self.old }
        ensures keeps { kept self.new }
        ensures calls { Replies (Function.is_held id.now revision.generation revision.tag) plain (state self.old) result (state self.new) };

    // The tags of a revision's line, 8 bytes each, generation 1 first, into memory of at least 1,600 bytes; how many
    // bytes they are.
    // Kept: here and below, by the rule of lent memory, the host's memory takes the bytes, and how many they are is in the answer.
    fn tags_of(&mut self, id: &[u8], revision: Revision, out: &mut [u8]) -> Result<usize, Fault>
        requires { kept self.old }
        ensures keeps { kept self.new }
        ensures calls { Fills (Function.tags_of id.now revision.generation revision.tag (length out.old)) in_eights (Fits in_eights) (state self.old) out.old result (state self.new) out.new };

    // A head's mark, and its body into memory of at least 96 bytes.
    fn body_of(&mut self, id: &[u8], revision: Revision, out: &mut [u8]) -> Result<Body, Fault>
        requires { kept self.old }
        ensures keeps { kept self.new }
        ensures calls { Fills (Function.body_of id.now revision.generation revision.tag (length out.old)) body_bytes TellsBody (state self.old) out.old result (state self.new) out.new };

    // Entry i of the log of a key, 0 the newest, or none.
    fn log_entry(&mut self, key: &[u8], i: u32) -> Result<Option<Entry>, Fault>
        requires { kept self.old }
        ensures keeps { kept self.new }
        ensures calls { Replies (Function.log_entry key.now i) (perhaps pair) (state self.old) result (state self.new) };

    // Writes an entry, a stamp and a position, to the log of a key.
    fn log_write(&mut self, key: &[u8], entry: Entry) -> Result<(), Fault>
        requires { kept self.old }
        ensures keeps { kept self.new }
        ensures calls { Replies (Function.log_write key.now entry.stamp entry.position) plain (state self.old) result (state self.new) };

    // Moves all waiting writes into the standing record.
    fn commit(&mut self) -> Result<(), Fault>
        requires { kept self.old }
        ensures keeps { kept self.new }
        ensures calls { Replies Function.commit plain (state self.old) result (state self.new) };

    // Wakes the peer with a start stamp: its waiting writes are lost, and it is up.
    fn wake(&mut self, stamp: u64) -> Result<(), Fault>
        requires { kept self.old }
        ensures keeps { kept self.new }
        ensures calls { Wakes stamp (state self.old) result (state self.new) };

    // of every held revision the line of its ancestors stands in the tree
    ghost lined: { (x : Self) → kept x → Lined (state x) };
}

// A peer that paths can be written to: a target needs this, a source does not.
pub trait WritablePeer: Peer {
    // Writes the path of a revision: the tags of its line, its mark and its body; 1 if that changes something, else 0.
    // Kept: by a rule of the project the answers are the numbers 0 and 1, and each part comes as a host has it, so that a
    // bad one is declined by its own number; a struct of the five would be taken apart at once.
    fn path_write(
        &mut self,
        id: &[u8],
        generation: u8,
        tags: &[u8],
        mark: u8,
        body: &[u8],
    ) -> Result<u32, Fault>
        requires { Self.Peer.kept self.old }
        ensures keeps { Self.Peer.kept self.new }
        ensures calls { Replies (Function.path_write id.now generation tags.now mark body.now) plain (Self.Peer.state self.old) result (Self.Peer.state self.new) };
}

// A peer without the right to write paths: it can be a source, and never a target.
#[derive(Drop)]
pub struct Guard<P: Peer> {
    peer: P,
}

impl<P: Peer> Guard<P> {
    // Guards a peer.
    pub fn new(peer: P) -> Self
        ensures { result.peer ≡ peer }
    {
        Self { peer }
    }

    // Gives the peer back.
    pub fn into_inner(self) -> P
        ensures { result ≡ self.peer }
    {
        let Guard { peer } = self;
        peer
    }
}

impl<P: Peer> Peer for Guard<P> {
    ghost state = { λ g. P.Peer.state g.peer };

    ghost kept = { λ g. P.Peer.kept g.peer };

    ghost lined = { Prim.search rules };

    fn number(&self) -> u32 {
        self.peer.number()
    }

    fn start_stamp(&mut self) -> Result<u64, Fault> {
        self.peer.start_stamp()
    }

    fn row_after(&mut self, n: u32) -> Result<Option<Row>, Fault> {
        self.peer.row_after(n)
    }

    fn head_count(&mut self, id: &[u8]) -> Result<u32, Fault> {
        self.peer.head_count(id)
    }

    fn head_at(&mut self, id: &[u8], i: u32) -> Result<Option<Revision>, Fault> {
        self.peer.head_at(id, i)
    }

    fn is_held(&mut self, id: &[u8], revision: Revision) -> Result<bool, Fault> {
        self.peer.is_held(id, revision)
    }

    fn tags_of(&mut self, id: &[u8], revision: Revision, out: &mut [u8]) -> Result<usize, Fault> {
        self.peer.tags_of(id, revision, out)
    }

    fn body_of(&mut self, id: &[u8], revision: Revision, out: &mut [u8]) -> Result<Body, Fault> {
        self.peer.body_of(id, revision, out)
    }

    fn log_entry(&mut self, key: &[u8], i: u32) -> Result<Option<Entry>, Fault> {
        self.peer.log_entry(key, i)
    }

    fn log_write(&mut self, key: &[u8], entry: Entry) -> Result<(), Fault> {
        self.peer.log_write(key, entry)
    }

    fn commit(&mut self) -> Result<(), Fault> {
        self.peer.commit()
    }

    fn wake(&mut self, stamp: u64) -> Result<(), Fault> {
        self.peer.wake(stamp)
    }
}
