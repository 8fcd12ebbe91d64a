// Block devices: the trait, an array of blocks in memory that fails by plan, and a part of any device.
#![tactic(auto)]

ghost use Rattle.std.specs.Prelude.{◌≡◌, ◌≢◌, ◌<◌, ◌≤◌, ◌⊎◌, true, length, MatchResult};
ghost use Rattle.block.specs.Disk.{Disk, disk_of, Reads, Writes, WritesTwo};
ghost use Rattle.decline.specs.Faults.{block_fault};

use decline::{BlockFault, Decline};

mod array;
mod part;

pub use array::{BlockArray, Outcome, Plan};
pub use part::Partition;

// Blocks of 512 bytes, numbered from 0. Power may fail at any read or write; the device is then off until it is resumed.
// Kept: memory of another length is declined by number, so it comes as a slice and not as an array of 512 bytes.
pub trait Device {
    // The blocks, and whether the device is on.
    ghost disk: { Self → Disk };

    // The condition that the calls of a type keep.
    // Kept: by a rule of the project a device's caller owes no condition but this, so each call asks and keeps it.
    ghost kept: { Self → Type 0 };

    // How many blocks there are. It answers while the device is off, too.
    fn count(&self) -> u32
        requires { kept self.now }
        ensures { result ≡ length (disk self.now).blocks };

    // Reads block n into memory of 512 bytes.
    fn read(&mut self, n: u32, into: &mut [u8]) -> Result<(), BlockFault>
        requires { kept self.old }
        ensures keeps { kept self.new }
        ensures reads { Reads (disk self.old) n into.old into.new (disk self.new) result };

    // Writes 512 bytes to block n.
    fn write(&mut self, n: u32, from: &[u8]) -> Result<(), BlockFault>
        requires { kept self.old }
        ensures keeps { kept self.new }
        ensures writes { Writes (disk self.old) n from.now (disk self.new) result };

    // Switches the device on.
    fn resume(&mut self)
        requires { kept self.old }
        ensures keeps { kept self.new }
        ensures resumes { disk self.new ≡ disk_of (disk self.old).blocks true };
}

// Admits a read or a write of block n, of so many, and of memory of one block.
fn admit(count: u32, n: u32, memory: &[u8]) -> Result<(), BlockFault>
    ensures { MatchResult result
        (λ _. (length memory.now ≡ 512) × (n < count))
        (λ f.
        ((f ≡ block_fault 18 n) × (length memory.now ≢ 512))
        ⊎ ((f ≡ block_fault 53 n) × (length memory.now ≡ 512) × (count ≤ n))) }
{
    if memory.len() != 512 {
        return Err(BlockFault::new(Decline::Memory, n));
    }
    if n >= count {
        return Err(BlockFault::new(Decline::Beyond, n));
    }
    Ok(())
}

// Writes two blocks in order, the second only if the first was accepted.
// Kept: a block's number and its bytes are two parameters here as in `write`: a struct of both would be made at each call only to be taken apart.
pub fn write_two<D: Device>(
    device: &mut D,
    m: u32,
    first: &[u8],
    n: u32,
    second: &[u8],
) -> Result<(), BlockFault>
    requires { D.Device.kept device.old }
    ensures keeps { D.Device.kept device.new }
    ensures writes { WritesTwo (D.Device.disk device.old) m first.now n second.now (D.Device.disk device.new) result }
{
    device.write(m, first)?;
    device.write(n, second)
}
