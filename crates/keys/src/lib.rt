// Rules, which pass the documents whose ids begin with a prefix, and the keys of replication logs.
#![tactic(auto)]

ghost use Rattle.std.specs.Prelude.{◌≡◌, ℕ, ◌<◌, ◌≤◌, ◌++◌, length, take, drop};
ghost use Rattle.octets.specs.BigEndian.{number};
ghost use Rattle.keys.specs.Keys.{passes, key_bytes, key_in};
ghost use Rattle.keys.specs.Values.{RuleRead, KeyMade, FormRead, KeyRead, prefix_of, key_of, NumberRead};

use decline::{Decline, Fault};
use octets::{Packed, number_of};
use revision::id_bytes;

// A rule in plain numbers: a prefix of 0 to 16 bytes.
#[derive(Clone, Copy, PartialEq, Eq, Debug)]
pub struct Rule {
    pub prefix: Packed,
}

impl Rule {
    // Reads a prefix of 0 to 16 bytes, each of which may stand in an id; anything else is declined 19.
    // Kept: a named function, as for ids; and of the two readings each has its own number and first test, which one function would have to be given.
    pub fn read(prefix: &[u8]) -> Result<Rule, Fault>
        ensures { RuleRead prefix.now result }
    {
        if !id_bytes(prefix) {
            return Err(Fault::from(Decline::Rule));
        }
        let prefix = Packed::read(prefix).ok_or(Decline::Rule)?;
        Ok(Rule { prefix })
    }

    // Whether an id begins with the prefix.
    pub fn passes(self, id: &[u8]) -> bool
        ensures { result ≡ passes (prefix_of self) id.now }
    {
        let all = self.prefix.bytes();
        id.starts_with(self.prefix.cut(&all))
    }
}

// The bytes from a place on, at most so many, as far as they are there.
fn part(bytes: &[u8], from: usize, many: u8) -> &[u8]
    requires { from ≤ 25 }
    ensures { result.now ≡ take many (drop from bytes.now) }
{
    let start = from.min(bytes.len());
    let end = (from + many as usize).min(bytes.len());
    &bytes[start..end]
}

// The number in the 4 bytes from a place on.
fn number_at(bytes: &[u8], from: usize) -> u32
    requires { from ≤ 25 }
    ensures { result ≡ number (take 4 (drop from bytes.now)) }
{
    number_of(part(bytes, from, 4)) as u32
}

// A peer's number as it stands in a key; 0 is declined 16.
fn peer_number(number: u32) -> Result<u32, Fault>
    ensures { NumberRead number result }
{
    if number == 0 {
        return Err(Fault::from(Decline::Number));
    }
    Ok(number)
}

// The key of a replication log: the numbers of source and target, and the rule.
#[derive(Clone, Copy, PartialEq, Eq, Debug)]
pub struct Key {
    pub source: u32,
    pub target: u32,
    pub rule: Rule,
}

impl Key {
    // A key; a number 0 is declined 16, a bad prefix 19.
    pub fn new(source: u32, target: u32, prefix: &[u8]) -> Result<Key, Fault>
        ensures { KeyMade source target prefix.now result }
    {
        let source = peer_number(source)?;
        let target = peer_number(target)?;
        let rule = Rule::read(prefix)?;
        Ok(Key {
            source,
            target,
            rule,
        })
    }

    // Kept: a named function, as std's `to_be_bytes`, since the name says which bytes these are.
    // The 25 bytes of a key: both numbers, the prefix's length, and the prefix filled with zeros to 16.
    pub fn bytes(self) -> [u8; 25]
        ensures { result ≡ key_bytes (key_of self) }
    {
        let all = self.rule.prefix.bytes();
        let prefix = self.rule.prefix.cut(&all);
        let mut filled = [0u8; 16];
        filled[..prefix.len()].copy_from_slice(prefix);
        let mut out = [0u8; 25];
        out[0..4].copy_from_slice(&self.source.to_be_bytes());
        out[4..8].copy_from_slice(&self.target.to_be_bytes());
        out[8] = prefix.len() as u8;
        out[9..25].copy_from_slice(&filled);
        out
    }

    // Reads the rule of a key whose numbers are read already; declined 19 where the bytes have another form.
    fn with_rule(source: u32, target: u32, bytes: &[u8]) -> Result<Key, Fault>
        requires { (source ≡ (key_in bytes.now).source) × (target ≡ (key_in bytes.now).target) }
        ensures { FormRead bytes.now result }
    {
        if bytes.len() != 25 {
            return Err(Fault::from(Decline::Rule));
        }
        let rule = Rule::read(part(bytes, 9, bytes[8]))?;
        let key = Key {
            source,
            target,
            rule,
        };
        let back = key.bytes();
        if bytes != &back[0..25] {
            return Err(Fault::from(Decline::Rule));
        }
        Ok(key)
    }

    // Kept: a named function, as for ids.
    // Reads a key's bytes. A number 0 is declined 16 (bytes that are not there count as none), any other form 19.
    pub fn read(bytes: &[u8]) -> Result<Key, Fault>
        ensures { KeyRead bytes.now result }
    {
        let source = peer_number(number_at(bytes, 0))?;
        let target = peer_number(number_at(bytes, 4))?;
        Key::with_rule(source, target, bytes)
    }
}
