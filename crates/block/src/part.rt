// A part of any device.
ghost use Rattle.std.specs.Prelude.{◌≡◌, ◌+◌, ◌-◌, ◌^◌, ◌<◌, min, true, length, MatchResult};
ghost use Rattle.block.specs.Disk.{disk_of, Proper, Improper, Reads, Writes};
ghost use Rattle.block.specs.Parts.{part_of, Confined, about_block};

use crate::{Device, admit};
use decline::BlockFault;

// Up to `limit` blocks of a device from block `first` on, as far as they exist, numbered from 0.
#[derive(Drop)]
pub struct Partition<D: Device> {
    device: D,
    first: u32,
    limit: u32,
}

// The same answer, with a fault that names block n.
fn about_block(n: u32, answer: Result<(), BlockFault>) -> Result<(), BlockFault>
    ensures { result ≡ about_block n answer }
{
    answer.map_err(|fault| BlockFault { block: n, ..fault })
}

impl<D: Device> Partition<D> {
    pub fn new(device: D, first: u32, limit: u32) -> Partition<D>
        ensures { result ≡ record { device = device; first = first; limit = limit } }
    {
        Partition {
            device,
            first,
            limit,
        }
    }

    // The device, given back.
    pub fn into_inner(self) -> D
        ensures { result ≡ self.device }
    {
        let Partition { device, .. } = self;
        device
    }

    // The block of the device that is block n of the part, for a read or a write of so much memory.
    fn place(&self, n: u32, memory: &[u8]) -> Result<u32, BlockFault>
        requires { D.Device.kept self.now.device }
        ensures { MatchResult result
            (λ m. (m ≡ self.now.first + n) × Proper (part_of D.Device.disk self.now) n memory.now)
            (Improper (part_of D.Device.disk self.now) n memory.now) }
    {
        admit(self.count(), n, memory)?;
        Ok(self.first + n)
    }
}

// Kept: that no block outside the part changes ties two states, so it stands in the contract of each call and in no invariant.
impl<D: Device> Device for Partition<D> {
    ghost disk = { part_of D.Device.disk };

    ghost kept = { λ p. D.Device.kept p.device };

    fn count(&self) -> u32
        requires { D.Device.kept self.now.device }
        ensures blocks { result ≡ length (part_of D.Device.disk self.now).blocks }
        ensures least { result ≡ min self.now.limit (length (D.Device.disk self.now.device).blocks - self.now.first) }
        ensures numbered { self.now.first + result < 2 ^ 32 }
    {
        self.device
            .count()
            .saturating_sub(self.first)
            .min(self.limit)
    }

    fn read(&mut self, n: u32, into: &mut [u8]) -> Result<(), BlockFault>
        requires { D.Device.kept self.old.device }
        ensures keeps { D.Device.kept self.new.device }
        ensures reads { Reads (part_of D.Device.disk self.old) n into.old into.new (part_of D.Device.disk self.new) result }
        ensures confined { Confined D.Device.disk self.old self.new }
    {
        let at = self.place(n, into)?;
        about_block(n, self.device.read(at, into))
    }

    fn write(&mut self, n: u32, from: &[u8]) -> Result<(), BlockFault>
        requires { D.Device.kept self.old.device }
        ensures keeps { D.Device.kept self.new.device }
        ensures writes { Writes (part_of D.Device.disk self.old) n from.now (part_of D.Device.disk self.new) result }
        ensures confined { Confined D.Device.disk self.old self.new }
    {
        let at = self.place(n, from)?;
        about_block(n, self.device.write(at, from))
    }

    fn resume(&mut self)
        requires { D.Device.kept self.old.device }
        ensures keeps { D.Device.kept self.new.device }
        ensures resumes { part_of D.Device.disk self.new ≡ disk_of (part_of D.Device.disk self.old).blocks true }
        ensures confined { Confined D.Device.disk self.old self.new }
    {
        self.device.resume();
    }
}
