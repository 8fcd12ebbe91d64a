// The text form of revisions: the generation in decimal, a dash, and the tag in hexadecimal.
#![tactic(auto)]

ghost use Rattle.std.specs.Prelude.{◌≡◌, ◌+◌, ◌^◌, ◌<◌, ◌≤◌, true, ◌∷◌, ◌++◌, ◌==◌, take, length, drop, Some, None, MatchOption};
ghost use Rattle.std.specs.List.{prefix_len};
ghost use Rattle.std.specs.Char.{digit_char};
ghost use Rattle.notation.specs.Text.{numeral, dash, parse, stripped, digits_in};
ghost use Rattle.revision.specs.Ids.{good_generation};
ghost use Rattle.notation.specs.Outcomes.{Reads, Writes, Wrote};

use decline::{Decline, Fault};
use octets::place_of;
use revision::Revision;

// The length of the longest text: 3 decimal digits, a dash and 16 hexadecimal digits.
pub const LONGEST: usize = 20;

// The number that 1 to so many digits of a base write; none where the text is no such numeral.
fn numeral(base: u32, most: usize, text: &[u8]) -> Option<u64>
    requires bases { (2 ≤ base) × (base ≤ 36) }
    requires room { base ^ most ≤ 2 ^ 64 }
    ensures { result ≡ numeral base most text.now }
{
    if text.is_empty() || text.len() > most {
        return None;
    }
    let mut n: u64 = 0;
    // Kept: a byte that is no digit ends it with none, which a `for` with `?` says more plainly than a try_fold.
    for c in text {
        let digit = (*c as char).to_digit(base)?;
        n = n * base as u64 + digit as u64;
    }
    Some(n)
}

// The revision that a text writes; none where it writes none.
fn parse(text: &[u8]) -> Option<Revision>
    ensures { MatchOption result (parse text.now ≡ None) (λ p. parse text.now ≡ Some (p.generation, p.tag)) }
{
    let dash = place_of(text, b'-')?;
    let generation = numeral(10, 3, &text[..dash])?;
    let tag = numeral(16, 16, &text[dash + 1..])?;
    Revision::new(u8::try_from(generation).ok()?, tag).ok()
}

// Reads the text of a revision; declined as no revision where it is none.
// Kept: a named function, since the type is of another crate, for which this one may write no FromStr or TryFrom.
pub fn read(text: &[u8]) -> Result<Revision, Fault>
    ensures { Reads text.now result }
{
    parse(text).ok_or(Fault::from(Decline::Revision))
}

// The lower-case byte of a digit.
fn digit_char(digit: u32) -> u8
    requires { digit < 36 }
    ensures { result ≡ digit_char digit }
{
    char::from_digit(digit, 36).unwrap() as u8
}

// A number in so many digits of a base, in lower case.
fn digits<const N: usize>(base: u64, n: u64) -> [u8; N]
    requires { (2 ≤ base) × (base ≤ 36) }
    ensures { result ≡ digits_in base N n }
{
    let mut out = [0u8; N];
    let mut rest = n;
    // Kept: tried as `out.iter_mut().rev()`, behind which a proof knows nothing of the bytes that were written.
    for i in (0..N).rev() {
        out[i] = digit_char((rest % base) as u32);
        rest /= base;
    }
    out
}

// How many zeros stand in front, among so many bytes.
fn zeros_in(most: usize, text: &[u8]) -> usize
    ensures many { result ≡ prefix_len (λ c. c == 48) (take most text.now) }
    ensures within { result ≤ length text.now }
{
    text.iter().take(most).take_while(|c| **c == b'0').count()
}

// A text without its leading zeros, of which at most so many go.
fn stripped(most: usize, text: &[u8]) -> &[u8]
    ensures rest { result.now ≡ stripped most text.now }
    ensures within { length result.now ≤ length text.now }
{
    &text[zeros_in(most, text)..]
}

// Lays two texts and a dash between them over the front of lent memory, and gives their length in all.
fn lay_parts(before: &[u8], behind: &[u8], out: &mut [u8]) -> usize
    requires { length before.now + 1 + length behind.now ≤ length out.old }
    ensures laid { out.new ≡ (before.now ++ dash ∷ behind.now) ++ drop result out.old }
    ensures many { result ≡ length (before.now ++ dash ∷ behind.now) }
{
    let at = before.len();
    let end = at + 1 + behind.len();
    out[..at].copy_from_slice(before);
    out[at] = b'-';
    out[at + 1..end].copy_from_slice(behind);
    end
}

// Lays the text of a revision over the front of lent memory, and gives its length.
fn lay_text(revision: Revision, out: &mut [u8]) -> usize
    requires { (good_generation revision.generation ≡ true) × (20 ≤ length out.old) }
    ensures { Wrote revision.generation revision.tag out.old out.new result }
{
    // Kept: tried as `write!(memory, "{generation}-{tag:02x}")`, which promises nothing of the bytes in lent memory.
    let generation: [u8; 3] = digits(10, revision.generation as u64);
    let tag: [u8; 16] = digits(16, revision.tag);
    lay_parts(stripped(2, &generation), stripped(14, &tag), out)
}

// Writes the text of a revision over the front of lent memory, and gives its length. A generation outside 1 to 200 is
// declined as no revision, then memory shorter than the longest text; a decline leaves the memory untouched.
// Kept: by the rule of lent memory the host's memory takes the text, and how many bytes it has is the answer.
pub fn write(revision: Revision, out: &mut [u8]) -> Result<usize, Fault>
    ensures { Writes revision.generation revision.tag out.old out.new result }
{
    Revision::new(revision.generation, revision.tag)?;
    if out.len() < LONGEST {
        return Err(Fault::from(Decline::Memory));
    }
    Ok(lay_text(revision, out))
}
