// Tries every plan over a small scenario on an array of four blocks, and prints what each call answered and what the
// blocks hold after the device is resumed.
#![tactic(auto)]

ghost use Rattle.std.specs.Prelude.{◌≡◌, true};
ghost use Rattle.block.specs.Disk.{disk_of, Writes};
ghost use Rattle.block.specs.Parts.{part, SameOutside};
ghost use Rattle.block.specs.Plans.{array_disk};
ghost use Rattle.plans.specs.Scenario.{all, Ran, Finds, FindsAll, Reports};

use block::{BlockArray, Device, Outcome, Partition, Plan, write_two};
use decline::BlockFault;
use std::alloc::{AllocError, Global};
use std::iter::once;
use std::{fmt, io};

// What each call of the scenario answered.
#[derive(Clone, Copy)]
struct Answers {
    single: Result<(), BlockFault>,
    pair: Result<(), BlockFault>,
    part: Result<(), BlockFault>,
}

// What a block holds: the zeros of the making, what the scenario writes, or something else.
#[derive(Clone, Copy)]
enum Contents {
    Old,
    New,
    Other,
}

// Writes block n of the part of two blocks from block 2 on, and gives the device back.
fn write_part(device: BlockArray, n: u32, from: &[u8]) -> (BlockArray, Result<(), BlockFault>)
    ensures writes { Writes (part 2 2 (array_disk device)) n from.now (part 2 2 (array_disk result.0)) result.1 }
    ensures outside { SameOutside 2 2 (array_disk device) (array_disk result.0) }
{
    let mut partition = Partition::new(device, 2, 2);
    let answer = partition.write(n, from);
    (partition.into_inner(), answer)
}

// Writes block 0, then blocks 1 and 2 as a pair, then block 3 as block 1 of the part from block 2 on.
fn run(mut device: BlockArray, new: &[u8]) -> (BlockArray, Answers)
    ensures runs { Ran (array_disk device) new.now (array_disk result.0) result.1 }
{
    let single = device.write(0, new);
    let pair = write_two(&mut device, 1, new, 2, new);
    let (device, part) = write_part(device, 1, new);
    (device, Answers { single, pair, part })
}

// What is found in block n.
fn find(device: &mut BlockArray, n: u32) -> Result<Contents, BlockFault>
    ensures same { device.new ≡ device.old }
    ensures finds { Finds (array_disk device.old) n result }
{
    let mut bytes = [2; 512];
    device.read(n, &mut bytes)?;
    if bytes == [0; 512] {
        return Ok(Contents::Old);
    }
    if bytes == [1; 512] {
        return Ok(Contents::New);
    }
    Ok(Contents::Other)
}

// Resumes the device, and reads its four blocks back.
fn read_back(device: &mut BlockArray) -> [Result<Contents, BlockFault>; 4]
    ensures resumes { array_disk device.new ≡ disk_of (array_disk device.old).blocks true }
    ensures finds { FindsAll (array_disk device.new) result }
{
    device.resume();
    // Kept: `[0, 1, 2, 3].map(|n| find(device, n))` proves neither clause, as nothing is known of what its closure borrowed.
    [
        find(device, 0),
        find(device, 1),
        find(device, 2),
        find(device, 3),
    ]
}

// A run of the scenario: what its calls answered, and what the blocks held behind it.
#[derive(Clone, Copy)]
struct Report {
    answers: Answers,
    found: [Result<Contents, BlockFault>; 4],
}

// Runs the scenario, resumes the device and reads the blocks back.
fn run_and_read(device: BlockArray) -> (BlockArray, Report)
    ensures reports { Reports (array_disk device) (array_disk result.0) result.1 }
{
    let (mut device, answers) = run(device, &[1; 512]);
    let found = read_back(&mut device);
    (device, Report { answers, found })
}

// An answer in five places: ok, or the number of the decline and the block that it names.
#[derive(Clone, Copy)]
struct Answer(Result<(), BlockFault>);

impl fmt::Display for Answer {
    fn fmt<W: fmt::Write>(&self, f: &mut fmt::Formatter<W>) -> fmt::Result {
        match self.0 {
            Ok(()) => write!(f, "ok   "),
            Err(BlockFault { number, block }) => write!(f, "{number} @{block}"),
        }
    }
}

// What is found in a block, in three places: what it holds, or the number of the decline.
#[derive(Clone, Copy)]
struct Found(Result<Contents, BlockFault>);

impl fmt::Display for Found {
    fn fmt<W: fmt::Write>(&self, f: &mut fmt::Formatter<W>) -> fmt::Result {
        match self.0 {
            Ok(Contents::Old) => write!(f, "old"),
            Ok(Contents::New) => write!(f, "new"),
            Ok(Contents::Other) => write!(f, "???"),
            Err(BlockFault { number, block: _ }) => write!(f, "{number:3}"),
        }
    }
}

impl fmt::Display for Report {
    fn fmt<W: fmt::Write>(&self, f: &mut fmt::Formatter<W>) -> fmt::Result {
        let Answers { single, pair, part } = self.answers;
        let [a, b, c, d] = self.found.map(Found);
        write!(
            f,
            "{} {} {} | {a} {b} {c} {d}",
            Answer(single),
            Answer(pair),
            Answer(part)
        )
    }
}

// A plan in eighteen places.
#[derive(Clone, Copy)]
struct Label(Option<Plan>);

impl fmt::Display for Label {
    fn fmt<W: fmt::Write>(&self, f: &mut fmt::Formatter<W>) -> fmt::Result {
        let Some(Plan { write, outcome }) = self.0 else {
            return write!(f, "{:18}", "none");
        };
        let word = match outcome {
            Outcome::Old => "old",
            Outcome::New => "new",
            Outcome::Unreadable => "unreadable",
        };
        write!(f, "write {write} {word:10}")
    }
}

// Tries a plan: runs the scenario twice on a new array, and prints a row.
fn try_plan(rt: &HostRuntime, plan: Option<Plan>) -> io::Result<()> {
    let device = BlockArray::new(rt.alloc(), 4, plan)?;
    let (device, first) = run_and_read(device);
    let (_, second) = run_and_read(device);
    println!(rt; "{} | {first} | {second}", Label(plan))
}

// No plan, and each plan for the four writes of the scenario.
fn all_plans(heap: Global) -> Result<Vec<Option<Plan>>, AllocError> {
    let outcomes = [Outcome::Old, Outcome::New, Outcome::Unreadable];
    let plans = (0..4).flat_map(|write| outcomes.map(|outcome| Some(Plan { write, outcome })));
    once(None).chain(plans).collect(heap)
}

fn main(rt: HostRuntime) -> io::Result<()> {
    println!(rt;
        "plan               | one   pair  part  | block 0 1 2 3   | again             | block 0 1 2 3"
    )?;
    let plans = all_plans(rt.alloc())?;
    for plan in &plans {
        try_plan(&rt, *plan)?;
    }
    println!(rt; "plans tried: {}", plans.len())
}
