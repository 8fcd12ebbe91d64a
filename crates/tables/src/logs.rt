// Log writes.
ghost use Rattle.peer.specs.Peers.{entry as noted};
ghost use Rattle.peer.specs.Functions.{Function, note_given};
ghost use Rattle.peer.specs.Replies.{plain};
ghost use Rattle.tables.specs.Sound.{Sound};
ghost use Rattle.tables.specs.Calls.{Writes};

use crate::{LOGS, Tables};
use checkpoint::{Entry, Log};
use decline::{Decline, Fault};
use entries::{KeyedLog, place_in};
use keys::Key;

impl Tables {
    // Writes an entry, a stamp and a position, to the log of a key: declined 15, 16 or 19 for its input; 35 where it would need a
    // ninth log. One that is there already changes nothing.
    pub fn log_write(&mut self, key: &[u8], entry: Entry) -> Result<(), Fault>
        requires { Sound self.old }
        ensures sound { Sound self.new }
        ensures writes { Writes (Function.log_write key.now entry.stamp entry.position) plain (noted (note_given key.now entry.stamp entry.position)) self.old result self.new }
    {
        if entry.stamp == 0 {
            return Err(Decline::Stamp.into());
        }
        let key = Key::read(key)?;
        let Some(at) = place_in(self.logs.as_slice(), &key) else {
            if self.logs.len() >= LOGS {
                return Err(Decline::Full.into());
            }
            let mut log = Log::new();
            log.put(entry)?;
            self.logs.push_reserved(KeyedLog { key, log });
            return Ok(());
        };
        if !self.logs[at].log.holds(entry) {
            self.logs[at].log.put(entry)?;
        }
        Ok(())
    }
}
