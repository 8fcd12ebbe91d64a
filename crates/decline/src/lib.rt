// Why a call is declined: the table of the decline numbers, and the fault that a decline hands out.
#![tactic(auto)]

ghost use Rattle.std.specs.Prelude.{◌≡◌, ◌==◌, true, is_some};
ghost use Rattle.std.specs.List.{find};
ghost use Rattle.std.specs.Option.{option_map};
ghost use Rattle.decline.specs.Table.{rows, found, plain, number_of};
ghost use Rattle.decline.specs.Faults.{side_number, bare, beside, about, at, above, block_fault};

use octets::Packed;

// The layer that a decline speaks for.
#[derive(Clone, Copy, PartialEq, Eq, Debug)]
pub enum Layer {
    Peer,
    Replication,
    Device,
}

// The reasons for a decline, each with its number.
#[derive(Clone, Copy, PartialEq, Eq, Debug)]
pub enum Decline {
    Id = 11,
    Revision = 12,
    Mark = 13,
    Body = 14,
    Stamp = 15,
    Number = 16,
    Twin = 17,
    Memory = 18,
    Rule = 19,
    Size = 20,
    Down = 31,
    Contradiction = 34,
    Full = 35,
    Absent = 37,
    Used = 38,
    Restarted = 39,
    Rows = 40,
    End = 41,
    NoFile = 42,
    Off = 51,
    Unreadable = 52,
    Beyond = 53,
}

// The number of a reason. Each stands in the table.
impl From<Decline> for u8 {
    ghost from_gives = { λ decline n. (n ≡ number_of decline) × (is_some (found rows n) ≡ true) };

    fn from(decline: Decline) -> u8 {
        decline as u8
    }
}

// A row of the table: a number with its layer and word.
// Kept: by a rule of the project the table gives each number its layer and word, so a row shows the number and not the reason.
#[derive(Clone, Copy)]
pub struct Entry {
    pub number: u8,
    pub layer: Layer,
    pub word: &'static str,
}

pub const TABLE: [Entry; 22] = [
    Entry {
        number: Decline::Id as u8,
        layer: Layer::Peer,
        word: "id",
    },
    Entry {
        number: Decline::Revision as u8,
        layer: Layer::Peer,
        word: "revision",
    },
    Entry {
        number: Decline::Mark as u8,
        layer: Layer::Peer,
        word: "mark",
    },
    Entry {
        number: Decline::Body as u8,
        layer: Layer::Peer,
        word: "body",
    },
    Entry {
        number: Decline::Stamp as u8,
        layer: Layer::Peer,
        word: "stamp",
    },
    Entry {
        number: Decline::Number as u8,
        layer: Layer::Peer,
        word: "number",
    },
    Entry {
        number: Decline::Twin as u8,
        layer: Layer::Replication,
        word: "twin",
    },
    Entry {
        number: Decline::Memory as u8,
        layer: Layer::Peer,
        word: "memory",
    },
    Entry {
        number: Decline::Rule as u8,
        layer: Layer::Peer,
        word: "rule",
    },
    Entry {
        number: Decline::Size as u8,
        layer: Layer::Peer,
        word: "size",
    },
    Entry {
        number: Decline::Down as u8,
        layer: Layer::Peer,
        word: "down",
    },
    Entry {
        number: Decline::Contradiction as u8,
        layer: Layer::Peer,
        word: "contradiction",
    },
    Entry {
        number: Decline::Full as u8,
        layer: Layer::Peer,
        word: "full",
    },
    Entry {
        number: Decline::Absent as u8,
        layer: Layer::Peer,
        word: "absent",
    },
    Entry {
        number: Decline::Used as u8,
        layer: Layer::Replication,
        word: "used",
    },
    Entry {
        number: Decline::Restarted as u8,
        layer: Layer::Replication,
        word: "restarted",
    },
    Entry {
        number: Decline::Rows as u8,
        layer: Layer::Replication,
        word: "rows",
    },
    Entry {
        number: Decline::End as u8,
        layer: Layer::Replication,
        word: "end",
    },
    Entry {
        number: Decline::NoFile as u8,
        layer: Layer::Peer,
        word: "nofile",
    },
    Entry {
        number: Decline::Off as u8,
        layer: Layer::Device,
        word: "off",
    },
    Entry {
        number: Decline::Unreadable as u8,
        layer: Layer::Device,
        word: "unreadable",
    },
    Entry {
        number: Decline::Beyond as u8,
        layer: Layer::Device,
        word: "beyond",
    },
];

// The first row of a table with a number, or none.
fn find(table: &[Entry], number: u8) -> Option<Entry>
    ensures { result ≡ find (λ e. e.number == number) table.now }
{
    table.iter().copied().find(|e| e.number == number)
}

// The row of a number, or none.
pub fn lookup(number: u8) -> Option<Entry>
    ensures { option_map plain result ≡ found rows number }
{
    find(&TABLE, number)
}

// The side of a replication that a decline comes from.
#[derive(Clone, Copy, PartialEq, Eq, Debug)]
pub enum Side {
    Neither = 0,
    Source = 1,
    Target = 2,
}

// The number that stands for a side in a fault.
impl From<Side> for u8 {
    ghost from_gives = { λ side n. n ≡ side_number side };

    fn from(side: Side) -> u8 {
        side as u8
    }
}

// What a device declines: a number and the block that it was asked for. The number 0 says that there is none.
// Kept: it is a part of faults, which are plain numbers by a rule of the project; so 0 stands for none in place of an Option.
#[derive(Clone, Copy, PartialEq, Eq, Debug)]
pub struct BlockFault {
    pub number: u8,
    pub block: u32,
}

impl BlockFault {
    pub fn new(decline: Decline, block: u32) -> BlockFault
        ensures { result ≡ block_fault (number_of decline) block }
    {
        let number = u8::from(decline);
        BlockFault { number, block }
    }
}

// What a peer or a replication declines, in plain numbers: the number; the side (0 neither, 1 source, 2 target); the
// document, of length 0 if there is none; the block, all ones if there is none; and the device's fault below, whole.
#[derive(Clone, Copy, PartialEq, Eq, Debug)]
// Kept: a fault is plain numbers, by a rule of the project, so number, side, document and block are no enums and no Options here.
pub struct Fault {
    pub number: u8,
    pub side: u8,
    pub document: Packed,
    pub block: u32,
    pub below: BlockFault,
}

// A fault of which nothing but the reason is known.
impl From<Decline> for Fault {
    ghost from_gives = { λ decline fault. fault ≡ bare (number_of decline) };

    fn from(decline: Decline) -> Fault {
        Fault {
            number: u8::from(decline),
            side: u8::from(Side::Neither),
            document: Packed {
                first: 0,
                second: 0,
                length: 0,
            },
            block: u32::MAX,
            below: BlockFault {
                number: 0,
                block: u32::MAX,
            },
        }
    }
}

impl Fault {
    // The same fault, from a side of a replication.
    pub fn beside(self, side: Side) -> Fault
        ensures { result ≡ beside (side_number side) self }
    {
        Fault {
            side: u8::from(side),
            ..self
        }
    }

    // The same fault, about a document.
    pub fn about(self, document: Packed) -> Fault
        ensures { result ≡ about document self }
    {
        Fault { document, ..self }
    }

    // The same fault, at a block.
    pub fn at(self, block: u32) -> Fault
        ensures { result ≡ at block self }
    {
        Fault { block, ..self }
    }

    // The same fault, carrying the one of the device below.
    pub fn above(self, below: BlockFault) -> Fault
        ensures { result ≡ above below self }
    {
        Fault { below, ..self }
    }

    // The row of the fault's number, or none.
    pub fn entry(&self) -> Option<Entry>
        ensures { option_map plain result ≡ found rows self.now.number }
    {
        lookup(self.number)
    }
}
