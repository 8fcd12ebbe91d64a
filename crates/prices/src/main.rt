// Reads the prices that were entered for products at several boards, a line each: product id, revision, mark (0 live,
// 1 deleted) and body, parted by one space. Shows for each product the price in force and the conflicting ones.
#![tactic(auto)]

ghost use Rattle.std.specs.Prelude.{◌≡◌};
ghost use Rattle.prices.specs.Lines.{front, behind, MarkField, LineRead, Found, Judged};

use decline::{Decline, Fault};
use examples::examples_hold;
use law::{replication_happens, replication_laws_hold};
use notation::{LONGEST, read, write};
use octets::place_of;
use revision::{DocumentId, Head, Mark, Revision, conflicts, winner};
use std::alloc::{AllocError, Global};
use std::io::{Read, Write};
use std::{fmt, io};

// How many prices are kept in all.
const ROOM: usize = 64;

// A price that was entered: the product, the head of its document, and what the head says.
#[derive(Clone, Copy, PartialEq, Eq)]
struct Price<'a> {
    product: DocumentId,
    head: Head,
    body: &'a [u8],
}

// What stands before the first byte b, and what stands behind it.
fn cut(text: &[u8], b: u8) -> (&[u8], &[u8])
    ensures before { result.0.now ≡ front b text.now }
    ensures after { result.1.now ≡ behind b text.now }
{
    match place_of(text, b) {
        Some(at) => (&text[..at], &text[at + 1..]),
        None => (text, &[]),
    }
}

// The mark that one decimal digit stands for; anything else is declined 13.
fn mark_in(text: &[u8]) -> Result<Mark, Fault>
    ensures { MarkField text.now result }
{
    let [digit] = text else {
        return Err(Fault::from(Decline::Mark));
    };
    Mark::try_from(digit.wrapping_sub(b'0'))
}

// Reads a line: declined 11, 12, 13 or 14 for the first part that is bad.
fn price_in(line: &[u8]) -> Result<Price<'_>, Fault>
    ensures { LineRead line.now result }
{
    let (id, rest) = cut(line, b' ');
    let product = DocumentId::read(id)?;
    let (text, rest) = cut(rest, b' ');
    let revision = read(text)?;
    let (digit, body) = cut(rest, b' ');
    let mark = mark_in(digit)?;
    if body.len() > 96 {
        return Err(Fault::from(Decline::Body));
    }
    Ok(Price {
        product,
        head: Head { mark, revision },
        body,
    })
}

// The place of a price for the same revision of the same product, or none.
fn find(prices: &[Price<'_>], product: DocumentId, revision: Revision) -> Option<usize>
    ensures { Found prices.now product revision result }
{
    prices
        .iter()
        .position(|p| p.product == product && p.head.revision == revision)
}

// Whether a price is new. One for a revision that is known is declined 34 if it says something else, and a new one
// where there is no room 35.
fn is_new(prices: &[Price<'_>], price: Price<'_>) -> Result<bool, Fault>
    ensures { Judged prices.now price.entry result }
{
    match find(prices, price.product, price.head.revision) {
        Some(i) if prices[i] == price => Ok(false),
        Some(_) => Err(Fault::from(Decline::Contradiction)),
        None if prices.len() < ROOM => Ok(true),
        None => Err(Fault::from(Decline::Full)),
    }
}

// The price that a line adds to those that are kept, or none where it is known.
fn added<'a>(prices: &[Price<'_>], line: &'a [u8]) -> Result<Option<Price<'a>>, Fault> {
    let price = price_in(line)?;
    Ok(is_new(prices, price)?.then_some(price))
}

// Adds a product's id.
// Kept: here and below bytes are copied: the body of a price may be no text, and what stands around it goes to the same buffer.
fn add_id(out: &mut Vec<u8>, product: DocumentId) -> io::Result<()> {
    let mut text = [0u8; 16];
    if let Ok(n) = product.lay(&mut text) {
        out.write_all(&text[..n])?;
    }
    Ok(())
}

// The prices that are kept, in the order in which they came.
// Kept: at most 64 in a list: they are shown in this order, which a map by product would lose.
#[derive(Drop)]
struct Prices<'a> {
    heap: Global,
    kept: Vec<Price<'a>>,
}

impl<'a> Prices<'a> {
    // Adds what a head says, - for nothing, with its revision.
    fn add_head(&self, out: &mut Vec<u8>, product: DocumentId, head: Head) -> io::Result<()> {
        if let Some(i) = find(&self.kept, product, head.revision) {
            let body = self.kept[i].body;
            out.write_all(if body.is_empty() { b"-" } else { body })?;
        }
        out.write_all(b" (")?;
        let mut text = [0u8; LONGEST];
        if let Ok(n) = write(head.revision, &mut text) {
            out.write_all(&text[..n])?;
        }
        out.write_all(b")")
    }

    // The heads of a product.
    fn heads_of(&self, product: DocumentId) -> Result<Vec<Head>, AllocError> {
        self.kept
            .iter()
            .filter(|p| p.product == product)
            .map(|p| p.head)
            .collect(self.heap)
    }

    // Adds a product's line: the price in force and the conflicting ones, greatest first.
    fn add_product(&self, out: &mut Vec<u8>, product: DocumentId) -> io::Result<()> {
        let mut heads = self.heads_of(product)?;
        add_id(out, product)?;
        out.write_all(b": ")?;
        if let Some(head) = winner(&heads) {
            if head.mark == Mark::Deleted {
                out.write_all(b"deleted, ")?;
            }
            self.add_head(out, product, head)?;
        }
        let many = conflicts(&mut heads);
        for head in heads.iter().skip(1).take(many) {
            out.write_all(b"; conflict ")?;
            self.add_head(out, product, *head)?;
        }
        out.write_all(b"\n")
    }

    // Adds the lines of all products, in the order in which they came.
    fn add_products(&self, out: &mut Vec<u8>) -> io::Result<()> {
        for (i, price) in self.kept.iter().enumerate() {
            let product = price.product;
            if !self.kept[..i].iter().any(|p| p.product == product) {
                self.add_product(out, product)?;
            }
        }
        Ok(())
    }
}

// A line that was declined, by its number from 1, and why.
#[derive(Drop)]
struct Declined {
    line: usize,
    fault: Fault,
}

impl fmt::Display for Declined {
    fn fmt<W: fmt::Write>(&self, f: &mut fmt::Formatter<W>) -> fmt::Result {
        let line = self.line;
        let number = self.fault.number;
        let word = self.fault.entry().map_or("", |row| row.word);
        write!(f, "line {line}: no {number} {word}")
    }
}

// The whole task: all lines of the input, and what became of them.
fn report(heap: Global, input: &[u8]) -> io::Result<Vec<u8>> {
    let mut out = Vec::new(heap);
    // The text of a declined line or of the last one, which goes to the output in one piece: so that grows by whole lines.
    let mut text = Vec::new(heap);
    let mut prices = Prices {
        heap,
        kept: Vec::new(heap),
    };
    // Kept: both counts are wanted behind the loop, too.
    let mut lines = 0usize;
    let mut declined = 0usize;
    for line in input.split_inclusive(|b| *b == b'\n') {
        lines = lines.saturating_add(1);
        match added(&prices.kept, line.strip_suffix(b"\n").unwrap_or(line)) {
            Ok(Some(price)) => prices.kept.push(price)?,
            Ok(None) => {}
            Err(fault) => {
                declined = declined.saturating_add(1);
                text.clear();
                writeln!(text, "{}", Declined { line: lines, fault })?;
                out.write_all(&text)?;
            }
        }
    }
    prices.add_products(&mut out)?;
    let taken = lines.saturating_sub(declined);
    let kept = prices.kept.len();
    text.clear();
    writeln!(
        text,
        "{lines} lines read, {taken} taken, {declined} declined, {kept} prices kept"
    )?;
    out.write_all(&text)?;
    Ok(out)
}

fn main(rt: HostRuntime) -> anyhow::Result<()> {
    let mut input = Vec::new(rt.alloc());
    rt.stdin().read_to_end(&mut input)?;
    // All that is written there goes to memory, so nothing but the lack of it can go wrong.
    let out = report(rt.alloc(), &input).map_err(|_| AllocError)?;
    rt.stdout().write_all(&out)?;
    let examples = examples_hold();
    let laws = replication_laws_hold();
    let finished = replication_happens();
    println!(rt;
        "proved: {examples} examples, {laws} laws of runs, a run in which {finished} replications finish"
    )?;
    Ok(())
}
