// Bytes as numbers, the highest first, and bytes laid into lent memory.
#![tactic(auto)]

ghost use Rattle.std.specs.Prelude.{◌≡◌, ◌+◌, ◌*◌, ◌<◌, ◌++◌, length, take, drop, MatchOption, MatchResult};
ghost use Rattle.octets.specs.BigEndian.{number, with_eight};
ghost use Rattle.octets.specs.Places.{place_of, FirstPlace};
ghost use Rattle.octets.specs.Packed.{sixteen, unpacked, Packs};

use arrayvec::ArrayVec;

// The number that the bytes write, of which the first 8 count.
pub fn number_of(bytes: &[u8]) -> u64
    ensures { result ≡ number (take 8 bytes.now) }
{
    let mut n: u64 = 0;
    // Kept: tried as a fold, whose closure has no bound for its product; and there may be fewer than the 8 bytes that `u64::from_be_bytes` takes.
    for b in &bytes[..bytes.len().min(8)] {
        n = n * 256 + u64::from(*b);
    }
    n
}

// The place of the first byte b, or none where there is none.
pub fn place_of(bytes: &[u8], b: u8) -> Option<usize>
    ensures place { result ≡ place_of b bytes.now }
    ensures first { FirstPlace b bytes.now result }
{
    bytes.iter().position(|c| *c == b)
}

// Lent memory is too short for what was to be laid into it.
#[derive(Clone, Copy, PartialEq, Eq, Debug)]
pub struct TooShort;

// Lays bytes over the front of lent memory; nothing is touched where the memory is too short.
pub fn lay(out: &mut [u8], bytes: &[u8]) -> Result<(), TooShort>
    ensures { MatchResult result (λ _. out.new ≡ bytes.now ++ drop (length bytes.now) out.old) (λ _. (length out.old < length bytes.now) × (out.new ≡ out.old)) }
{
    if out.len() < bytes.len() {
        return Err(TooShort);
    }
    out[..bytes.len()].copy_from_slice(bytes);
    Ok(())
}

// Lays a number in 8 bytes, the highest first, as number i of such numbers, counted from 0; nothing is touched where
// the memory ends before.
pub fn lay_eight(out: &mut [u8], i: usize, n: u64) -> Result<(), TooShort>
    ensures laid { MatchResult result (λ _. out.new ≡ with_eight out.old i n) (λ _. (length out.old < 8 * i + 8) × (out.new ≡ out.old)) }
    ensures long { length out.new ≡ length out.old }
{
    if i >= out.len() / 8 {
        return Err(TooShort);
    }
    out[8 * i..8 * i + 8].copy_from_slice(&n.to_be_bytes());
    Ok(())
}

// At most 16 bytes as two numbers and a length: the form in which an id or a prefix of ids stands in plain state.
// Kept: faults carry it in plain numbers, and nothing is allocated.
#[derive(Clone, Copy, PartialEq, Eq, Debug)]
pub struct Packed {
    pub first: u64,
    pub second: u64,
    pub length: u8,
}

impl Packed {
    // Packs bytes; none where there are more than 16.
    // Kept: a named function that answers an Option: callers give the error its number, 11 for an id and 19 for a rule.
    pub fn read(bytes: &[u8]) -> Option<Packed>
        ensures { MatchOption result (16 < length bytes.now) (λ p. Packs bytes.now p) }
    {
        if bytes.len() > 16 {
            return None;
        }
        let mut all = [0u8; 16];
        all[..bytes.len()].copy_from_slice(bytes);
        Some(Packed {
            first: number_of(&all[..8]),
            second: number_of(&all[8..]),
            length: bytes.len() as u8,
        })
    }

    // Kept: a named function, as std's `to_be_bytes`: beside it stands `unpacked`, and a From could not say which is meant.
    // The bytes of both numbers; those from the length on are no part of what is packed.
    pub fn bytes(&self) -> [u8; 16]
        ensures { result ≡ sixteen self.now }
    {
        let mut all = [0u8; 16];
        all[..8].copy_from_slice(&self.first.to_be_bytes());
        all[8..].copy_from_slice(&self.second.to_be_bytes());
        all
    }

    // Of the bytes of both numbers those that are packed.
    // Kept: beside `unpacked`, whose vector writes its unused places anew: looking through a table, that took many times as long.
    pub fn cut<'a>(&self, all: &'a [u8; 16]) -> &'a [u8]
        ensures { result.now ≡ take self.now.length all.now }
    {
        &all[..(self.length as usize).min(16)]
    }

    // The bytes that are packed.
    pub fn unpacked(&self) -> ArrayVec<u8, 16>
        ensures { result.items ≡ unpacked self.now }
    {
        let mut bytes = ArrayVec::from(self.bytes());
        bytes.truncate(self.length as usize);
        bytes
    }
}
