// Blocks in memory that fail by plan.
ghost use Rattle.std.specs.Prelude.{◌≡◌, ◌<◌, ◌^◌, ◌⊎◌, ⊤, true, false, length, IfOk, MatchResult, Some, vec_len, slice_set};
ghost use Rattle.block.specs.Disk.{disk_of, Proper, Improper, Reads, Writes};
ghost use Rattle.decline.specs.Faults.{block_fault};

use crate::{Device, admit};
use decline::{BlockFault, Decline};
use std::alloc::{AllocError, Global};

// What becomes of the block at a write at which power fails.
#[derive(Clone, Copy)]
pub enum Outcome {
    Old,
    New,
    Unreadable,
}

// The write at which power fails, counted from 0 over the writes that reach the array, and its outcome.
#[derive(Clone, Copy)]
pub struct Plan {
    pub write: u32,
    pub outcome: Outcome,
}

// Blocks in memory, got once at the making, each readable or not. Power fails only at the write that the plan names,
// which is counted down from the making on; behind it no plan is left. Block numbers fit 32 bits.
#[derive(Drop)]
pub struct BlockArray {
    blocks: Vec<Option<[u8; 512]>>,
    // Kept: on and off carry no value and go by no other field, so an enum would only respell the bool.
    on: bool,
    plan: Option<Plan>,
    pub ghost numbered: { vec_len blocks < 2 ^ 32 },
}

impl BlockArray {
    ghost use Rattle.block.specs.Plans.{array_disk, SameMemory, zeroed, struck_by, plan_after, failed, Reaches};

    // So many blocks of zeros, readable and on.
    pub fn new(heap: Global, count: u32, plan: Option<Plan>) -> Result<BlockArray, AllocError>
        ensures { IfOk result (λ a. (array_disk a ≡ zeroed count) × (a.plan ≡ plan)) }
    {
        Ok(BlockArray {
            blocks: vec![in heap; Some([0; 512]); count as usize]?,
            on: true,
            plan,
        })
    }

    // Admits a read or a write of block n that reaches the array: its input is in order, and the array is on.
    fn reach(&self, n: u32, memory: &[u8]) -> Result<(), BlockFault>
        ensures { MatchResult result
            (λ _. Reaches (array_disk self.now) n memory.now)
            (λ f. Improper (array_disk self.now) n memory.now f ⊎ ((f ≡ block_fault 51 n) × Proper (array_disk self.now) n memory.now × (self.now.on ≡ false))) }
    {
        admit(self.count(), n, memory)?;
        if !self.on {
            return Err(BlockFault::new(Decline::Off, n));
        }
        Ok(())
    }

    // Takes a write off the plan: its outcome, if power fails at it.
    fn strike(&mut self) -> Option<Outcome>
        ensures struck { result ≡ struck_by self.old.plan }
        ensures plan { self.new.plan ≡ plan_after self.old.plan }
        ensures same { (self.new.blocks ≡ self.old.blocks) × (self.new.on ≡ self.old.on) }
    {
        let Plan { write, outcome } = self.plan.take()?;
        if write == 0 {
            return Some(outcome);
        }
        self.plan = Some(Plan {
            write: write - 1,
            outcome,
        });
        None
    }

    // Sets block n to 512 bytes.
    // Kept: that memory is as large as before, and the plan the same, ties two states of an array, which no invariant of one value can say.
    fn put(&mut self, n: u32, from: &[u8])
        requires { (n < vec_len self.old.blocks) × (length from.now ≡ 512) }
        ensures blocks { self.new.blocks.items ≡ slice_set self.old.blocks.items n (Some from.now) }
        ensures memory { SameMemory self.old self.new }
        ensures same { (self.new.on ≡ self.old.on) × (self.new.plan ≡ self.old.plan) }
    {
        self.blocks[n as usize] = from.try_into().ok();
    }

    // Power fails at a write to block n, with an outcome.
    fn fail(&mut self, n: u32, from: &[u8], outcome: Outcome)
        requires { (n < vec_len self.old.blocks) × (length from.now ≡ 512) }
        ensures disk { array_disk self.new ≡ failed outcome (array_disk self.old) n from.now }
        ensures memory { SameMemory self.old self.new }
        ensures plan { self.new.plan ≡ self.old.plan }
    {
        self.on = false;
        match outcome {
            Outcome::Old => {}
            Outcome::New => self.put(n, from),
            Outcome::Unreadable => self.blocks[n as usize] = None,
        }
    }
}

impl Device for BlockArray {
    ghost use Rattle.block.specs.Plans.{array_disk, SameMemory, ByPlan};

    ghost disk = { array_disk };

    ghost kept = { λ _. ⊤ };

    fn count(&self) -> u32 {
        self.blocks.len() as u32
    }

    // A read never fails, and changes nothing.
    fn read(&mut self, n: u32, into: &mut [u8]) -> Result<(), BlockFault>
        ensures reads { Reads (array_disk self.old) n into.old into.new (array_disk self.new) result }
        ensures same { self.new ≡ self.old }
    {
        self.reach(n, into)?;
        let bytes = self.blocks[n as usize].ok_or(BlockFault::new(Decline::Unreadable, n))?;
        into.copy_from_slice(&bytes);
        Ok(())
    }

    // A write fails only if the plan names it.
    fn write(&mut self, n: u32, from: &[u8]) -> Result<(), BlockFault>
        ensures writes { Writes (array_disk self.old) n from.now (array_disk self.new) result }
        ensures plan { ByPlan self.old.plan self.new.plan (array_disk self.old) n from.now (array_disk self.new) result }
        ensures memory { SameMemory self.old self.new }
    {
        self.reach(n, from)?;
        match self.strike() {
            None => {
                self.put(n, from);
                Ok(())
            }
            Some(outcome) => {
                self.fail(n, from, outcome);
                Err(BlockFault::new(Decline::Off, n))
            }
        }
    }

    fn resume(&mut self)
        ensures resumes { array_disk self.new ≡ disk_of (array_disk self.old).blocks true }
        ensures plan { self.new.plan ≡ self.old.plan }
        ensures memory { SameMemory self.old self.new }
    {
        self.on = true;
    }
}
