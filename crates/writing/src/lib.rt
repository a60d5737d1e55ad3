// Writing two names in lent words as a packed stamp, lawful or not: behind what is written, into the buffer itself.
#![tactic(auto)]

ghost use Rattle.std.specs.Prelude.{◌≡◌, true, cond, map, ◌≤◌, length, take};
ghost use Rattle.std.specs.declared.option.Option.TheVariants.{None, Some};
ghost use Rattle.rules.specs.Limits.{narrow};
ghost use Rattle.rules.specs.Strings.{field, str_of};
ghost use Rattle.rules.specs.Packed.{name_bits, packed, over, pack_bits};
ghost use Rattle.layout.specs.Words.{stamp_of};
ghost use Rattle.writing.specs.Cursors.{Ready, Put, written};
ghost use Rattle.writing.specs.Fits.{fits_name, fits, written_names, written_both};

use layout::{COUNT_BITS, LENGTH_BITS};
use names::STRINGS;
use rules::{Refusal, StampWords};
use strings::DIGITS;

// The bytes of two names in words at the front of out, and the rest kept: refused 2 where they cannot be laid out, 10 where out is too short; then
// nothing is written.
pub fn write_from(n: StampWords<'_>, out: &mut [u8]) -> Result<usize, Refusal>
    ensures { (result ≡ (written_names narrow n.entry.update.now n.entry.id.now out.old).answer)
        × (out.new ≡ (written_names narrow n.entry.update.now n.entry.id.now out.old).out) }
{
    let size = size_of(n).ok_or(Refusal::Unlawful)?;
    if out.len() < size {
        return Err(Refusal::Short);
    }
    put_stamp(n, out);
    Ok(size)
}

// Two stamps of one update, with the ids x and y, at the front of zero and of one, and the rest kept: refused 2 where either cannot be laid out,
// 10 where either buffer is too short; then neither is written.
pub fn write_both(
    update: &[u64],
    x: &[u64],
    y: &[u64],
    zero: &mut [u8],
    one: &mut [u8],
) -> Result<usize, Refusal>
    ensures { (result ≡ (written_both narrow update.now x.now y.now zero.old one.old).answer)
        × (zero.new ≡ (written_both narrow update.now x.now y.now zero.old one.old).zero)
        × (one.new ≡ (written_both narrow update.now x.now y.now zero.old one.old).one) }
{
    let first = StampWords { update, id: x };
    let second = StampWords { update, id: y };
    let size = size_of(first).ok_or(Refusal::Unlawful)?;
    let other = size_of(second).ok_or(Refusal::Unlawful)?;
    if zero.len() < size || one.len() < other {
        return Err(Refusal::Short);
    }
    put_stamp(first, zero);
    put_stamp(second, one);
    Ok(size)
}

// How many bytes two names in words take; none where they cannot be laid out.
pub fn size_of(n: StampWords<'_>) -> Option<usize>
    ensures { result ≡ cond (fits narrow n.entry.update.now n.entry.id.now) (Some (length (packed narrow (stamp_of n.entry.update.now n.entry.id.now)))) None }
{
    let bits = bits_of(n.update)? + bits_of(n.id)?;
    Some((bits + 7) / 8)
}

// How many bits the name of these words takes: its count, and each string behind its length; none where it cannot be laid out.
fn bits_of(n: &[u64]) -> Option<usize>
    ensures { result ≡ cond (fits_name narrow n.now) (Some (length (name_bits narrow (map str_of n.now)))) None }
{
    if n.is_empty() || STRINGS < n.len() {
        return None;
    }
    let mut sum = COUNT_BITS + LENGTH_BITS * n.len();
    let mut longest = 0;
    for s in n {
        let k = s % 64;
        longest = longest.max(k);
        sum += k as usize;
    }
    (longest <= DIGITS).then_some(sum)
}

// Both names at the front of out, and zeros up to a whole byte.
fn put_stamp(n: StampWords<'_>, out: &mut [u8])
    requires { (fits narrow n.update.now n.id.now ≡ true) × (length (packed narrow (stamp_of n.update.now n.id.now)) ≤ length out.old) }
    ensures { out.new ≡ over (packed narrow (stamp_of n.entry.update.now n.entry.id.now)) out.old }
{
    let mut pen = Pen {
        out,
        at: 0,
        held: 0,
        acc: 0,
    };
    pen.put_name(n.update);
    pen.put_name(n.id);
    pen.end();
}

// Where a writer stands: so many bytes of out are written, and behind them come the `held` low bits of `acc`.
// stays: `Ready` stands in each clause, since each method asks for room of its own; what is the same in each is in that one word.
#[derive(Drop)]
struct Pen<'a> {
    out: &'a mut [u8],
    at: usize,
    held: usize,
    acc: u64,
}

impl Pen<'_> {
    // A name: its count, and its strings, each behind its length. A word ends with the length; turned by its five bits, it begins with it.
    fn put_name(&mut self, n: &[u64])
        requires { (fits_name narrow n.now ≡ true) × Ready self.old (length (name_bits narrow (map str_of n.now))) }
        ensures { Put self.old (name_bits narrow (map str_of n.now)) self.new }
    {
        self.put(COUNT_BITS as u64, (n.len() as u64 - 1) << (64 - COUNT_BITS));
        for s in n {
            self.put(
                s % 64 + LENGTH_BITS as u64,
                s.rotate_right(LENGTH_BITS as u32),
            );
        }
    }

    // The w highest bits of v. Four bytes go out where so many bits are held.
    fn put(&mut self, w: u64, v: u64)
        requires { (1 ≤ w) × (w ≤ 29) × Ready self.old w }
        ensures { Put self.old (take w (field 64 v)) self.new }
    {
        self.acc = (self.acc << w) | (v >> (64 - w));
        self.held += w as usize;
        if 32 <= self.held {
            self.held -= 32;
            let four = ((self.acc >> self.held) % (1 << 32)) as u32;
            self.out[self.at..self.at + 4].copy_from_slice(&four.to_be_bytes());
            self.at += 4;
        }
    }

    // The bits that are held, and zeros up to a whole byte: moved to the top of a word, whose first bytes go out.
    fn end(self)
        requires { Ready self 0 }
        ensures { self.exit.0.now ≡ over (pack_bits (written self.entry)) self.entry.out.now }
    {
        let Pen { out, at, held, acc } = self;
        let mut rest = (acc << 24) << (40 - held);
        // stays: a byte at a time: a copy of the word's bytes was tried, and misses the bar of the instructions before (10 more for a stamp)
        for byte in &mut out[at..at + (held + 7) / 8] {
            *byte = (rest >> 56) as u8;
            rest <<= 8;
        }
    }
}
