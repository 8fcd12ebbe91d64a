// A peer in memory: it stands at once and never goes down.
#![tactic(auto)]

ghost use Rattle.std.specs.Prelude.{◌≡◌};
ghost use Rattle.decline.specs.Table.{number_of};
ghost use Rattle.decline.specs.Faults.{bare};
ghost use Rattle.memory.specs.declared.Unmade.TheVariants.{Declined, NoMemory};
ghost use Rattle.memory.specs.State.{state_of, Kept, Made};
ghost use Rattle.tables.proofs.SoundLines.{sound_lined};

use checkpoint::Entry;
use decline::{Decline, Fault};
use peer::{Body, Peer, Row, WritablePeer};
use revision::Revision;
use std::alloc::{AllocError, Global};
use tables::Tables;

// A peer whose record is in tables.
#[derive(Drop)]
pub struct Memory {
    number: u32,
    stamp: u64,
    tables: Tables,
}

// Why a peer could not be made: its numbers were declined, or there was no memory for its tables.
#[derive(Clone, Copy, PartialEq, Eq, Debug)]
pub enum Unmade {
    Declined(Fault),
    NoMemory,
}

impl From<Decline> for Unmade {
    ghost from_gives = { λ decline unmade. unmade ≡ Declined (bare (number_of decline)) };

    fn from(decline: Decline) -> Unmade {
        Unmade::Declined(Fault::from(decline))
    }
}

impl From<AllocError> for Unmade {
    ghost from_gives = { λ _ unmade. unmade ≡ NoMemory };

    fn from(_error: AllocError) -> Unmade {
        Unmade::NoMemory
    }
}

impl Memory {
    // A peer with a number and a start stamp, and an empty record: stamp 0 is declined 15, number 0 is declined 16.
    pub fn new(heap: Global, number: u32, stamp: u64) -> Result<Memory, Unmade>
        ensures { Made number stamp result }
    {
        if stamp == 0 {
            return Err(Unmade::from(Decline::Stamp));
        }
        if number == 0 {
            return Err(Unmade::from(Decline::Number));
        }
        let tables = Tables::new(heap)?;
        Ok(Memory {
            number,
            stamp,
            tables,
        })
    }
}

impl Peer for Memory {
    ghost state = { state_of };

    ghost kept = { Kept };

    ghost lined = { λ m k d g x h. sound_lined m.tables k.sound d g x h };

    fn number(&self) -> u32 {
        self.number
    }

    fn start_stamp(&mut self) -> Result<u64, Fault> {
        Ok(self.stamp)
    }

    fn row_after(&mut self, n: u32) -> Result<Option<Row>, Fault> {
        Ok(reads::row_after(&self.tables, n))
    }

    fn head_count(&mut self, id: &[u8]) -> Result<u32, Fault> {
        reads::head_count(&self.tables, id)
    }

    fn head_at(&mut self, id: &[u8], i: u32) -> Result<Option<Revision>, Fault> {
        reads::head_at(&self.tables, id, i)
    }

    fn is_held(&mut self, id: &[u8], revision: Revision) -> Result<bool, Fault> {
        reads::is_held(&self.tables, id, revision)
    }

    fn tags_of(&mut self, id: &[u8], revision: Revision, out: &mut [u8]) -> Result<usize, Fault> {
        reads::tags_of(&self.tables, id, revision, out)
    }

    fn body_of(&mut self, id: &[u8], revision: Revision, out: &mut [u8]) -> Result<Body, Fault> {
        reads::body_of(&self.tables, id, revision, out)
    }

    fn log_entry(&mut self, key: &[u8], i: u32) -> Result<Option<Entry>, Fault> {
        reads::log_entry(&self.tables, key, i)
    }

    fn log_write(&mut self, key: &[u8], entry: Entry) -> Result<(), Fault> {
        self.tables.log_write(key, entry)
    }

    fn commit(&mut self) -> Result<(), Fault> {
        Ok(())
    }

    fn wake(&mut self, stamp: u64) -> Result<(), Fault> {
        if stamp == 0 {
            return Err(Fault::from(Decline::Stamp));
        }
        self.stamp = stamp;
        Ok(())
    }
}

impl WritablePeer for Memory {
    fn path_write(
        &mut self,
        id: &[u8],
        generation: u8,
        tags: &[u8],
        mark: u8,
        body: &[u8],
    ) -> Result<u32, Fault> {
        self.tables.path_write(id, generation, tags, mark, body)
    }
}
