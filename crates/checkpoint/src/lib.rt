// Replication logs: at most 8 entries, newest first; log writes, and the comparison of two logs.
#![tactic(auto)]

ghost use Rattle.std.specs.Prelude.{◌≡◌, ℕ, ◌<◌, ◌≤◌, max, Bool, true, false, List, [], ◌∷◌, length, take, MatchOption, nat_eq};
ghost use Rattle.std.specs.Option.{option_map};
ghost use Rattle.order.specs.Lists.{nth};
ghost use Rattle.order.specs.Order.{TotalOrder};
ghost use Rattle.checkpoint.specs.Logs.{Compared, listed, replaced, settled};
ghost use Rattle.checkpoint.specs.Values.{pair, pairs, entries_of, Put, Met};

use decline::{Decline, Fault};
use order::greatest;

// An entry of a log: the stamp of a replication, never 0, and the position that it had come to.
#[derive(Clone, Copy, PartialEq, Eq, Debug)]
pub struct Entry {
    pub stamp: u64,
    pub position: u32,
}

// A replication log. Of the 8 places the first ones are in use, as many as the count says.
// Kept: callers may copy a log, and with an ArrayVec inside "`Copy` cannot be implemented for this type"; it is a plain value without an invariant, so the count is cut to the places where it is read.
#[derive(Clone, Copy)]
pub struct Log {
    entries: [Entry; 8],
    count: usize,
}

impl Log {
    // A log without entries.
    pub fn new() -> Log
        ensures { entries_of result ≡ [] }
    {
        let none = Entry {
            stamp: 0,
            position: 0,
        };
        Log {
            entries: [none; 8],
            count: 0,
        }
    }

    // The entries, newest first.
    pub fn entries(&self) -> &[Entry]
        ensures { result.now ≡ entries_of self.now }
    {
        &self.entries[0..self.count.min(8)]
    }

    // Entry i, 0 the newest, or none.
    pub fn entry(&self, i: usize) -> Option<Entry>
        ensures { result ≡ nth (entries_of self.now) i }
    {
        self.entries().get(i).copied()
    }

    // Whether an entry's stamp is there with its position already, so that writing it would change nothing.
    pub fn holds(&self, entry: Entry) -> bool
        ensures { result ≡ settled nat_eq entry.stamp entry.position (pairs (entries_of self.now)) }
    {
        let found = self.entries().iter().find(|e| e.stamp == entry.stamp);
        found.is_some_and(|e| e.position == entry.position)
    }

    // An entry goes in front, and a ninth is dropped.
    fn push_front(&mut self, entry: Entry)
        ensures { entries_of self.new ≡ take 8 (entry ∷ entries_of self.old) }
    {
        self.entries.rotate_right(1);
        self.entries[0] = entry;
        self.count = self.count.saturating_add(1).min(8);
    }

    // A log write: the position of a stamp that is there is replaced; otherwise the entry goes in front, and a ninth is
    // dropped. Stamp 0 is declined 15.
    pub fn put(&mut self, entry: Entry) -> Result<(), Fault>
        ensures { Put self.old entry.stamp entry.position result self.new }
    {
        if entry.stamp == 0 {
            return Err(Fault::from(Decline::Stamp));
        }
        let n = self.count.min(8);
        if !replace(&mut self.entries[0..n], entry) {
            self.push_front(entry);
        }
        Ok(())
    }
}

// Replaces the position of a stamp, and says whether it is there.
fn replace(entries: &mut [Entry], entry: Entry) -> bool
    ensures there { result ≡ listed nat_eq entry.stamp (pairs entries.old) }
    ensures after { pairs entries.new ≡ replaced nat_eq entry.stamp entry.position (pairs entries.old) }
{
    // Kept: each entry with the stamp is set, so the walk goes on behind the first, where `find` would stop; the flag is its answer.
    let mut there = false;
    for e in entries.iter_mut() {
        if e.stamp == entry.stamp {
            e.position = entry.position;
            there = true;
        }
    }
    there
}

// The greater of two positions.
fn later(a: u32, b: u32) -> u32
    ensures { result ≡ max a b }
{
    let both = [a, b];
    greatest(&both).map_or(a, |i| both[i])
}

// Of an entry and the entries of another log with its stamp: the greatest of the smaller positions; none where no entry
// has its stamp.
fn meet(e: Entry, log: &[Entry]) -> Option<u32>
    ensures { Met (pair e) (pairs log.now) result }
{
    log.iter()
        .filter(|f| e.stamp == f.stamp)
        .map(|f| f.position.min(e.position))
        .reduce(later)
}

// Compares two logs: of each stamp in both, the smaller of its two positions; the greatest of these, else 0, together
// with the number of common stamps.
pub fn compare(ours: &[Entry], theirs: &[Entry]) -> (u32, usize)
    ensures positions { TotalOrder (λ (a b : ℕ). a < b) }
    ensures compared { Compared nat_eq (pairs ours.now) (pairs theirs.now) result.0 result.1 }
{
    let mut best = 0;
    let mut common = 0;
    // Kept: tried as one fold, whose closure has no bound for the count; two chains would compare each entry twice.
    for e in ours {
        if let Some(position) = meet(*e, theirs) {
            best = later(best, position);
            common += 1;
        }
    }
    (best, common)
}
