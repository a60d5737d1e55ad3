// Reading a packed stamp, of any bytes, into lent words: from a bit of the bytes to the bit behind what was read.
#![tactic(auto)]

ghost use Rattle.std.specs.Prelude.{◌≡◌, ◌≤◌, ◌+◌, length, take, drop};
ghost use Rattle.rules.specs.Limits.{narrow};
ghost use Rattle.rules.specs.Strings.{field};
ghost use Rattle.rules.specs.Stamps.{lawful};
ghost use Rattle.rules.specs.Packed.{bits_of, is_filling, read_stamp};
ghost use Rattle.layout.specs.Words.{stamp_of};
ghost use Rattle.reading.specs.Reading.{counts_of, update_in, id_in, rest, AreNames, StringRead, NameRead, NamesRead};

use layout::{BYTES, COUNT_BITS, LENGTH_BITS};
use rules::{Counts, Refusal, StampWords};
use strings::{DIGITS, precedes};
use walks::{has_twins, is_below};

// The stamp that b packs, into lent words: each name's at the front, and the rest kept. Refused 1 where the layout does not read, 2 where the stamp
// is not lawful; then nothing is written.
pub fn read_in(b: &[u8], update: &mut [u64; 16], id: &mut [u64; 16]) -> Result<Counts, Refusal>
    ensures { (result ≡ counts_of (read_stamp narrow b.now))
        × (update.new ≡ update_in (read_stamp narrow b.now) update.old)
        × (id.new ≡ id_in (read_stamp narrow b.now) id.old) }
{
    let mut u = [0; 16];
    let mut i = [0; 16];
    let counts = names_in(b, &mut u, &mut i).ok_or(Refusal::Malformed)?;
    let names = StampWords {
        update: &u[..counts.update],
        id: &i[..counts.id],
    };
    if !is_lawful_read(names) {
        return Err(Refusal::Unlawful);
    }
    update[..counts.update].copy_from_slice(names.update);
    id[..counts.id].copy_from_slice(names.id);
    Ok(counts)
}

// Whether two names that were read, an update and an id, are a lawful stamp.
fn is_lawful_read(n: StampWords<'_>) -> bool
    requires { AreNames n.update.now n.id.now }
    ensures { result ≡ lawful narrow (stamp_of n.entry.update.now n.entry.id.now) }
{
    is_below(n.update, n.id) && !has_twins(n.id)
}

// The names that b packs, lawful or not: their words at the front of u and i; none where the layout does not read.
fn names_in(b: &[u8], u: &mut [u64; 16], i: &mut [u64; 16]) -> Option<Counts>
    ensures { NamesRead b.now result u.new i.new }
{
    if BYTES < b.len() {
        return None;
    }
    let mut bytes = [0; 128];
    bytes[..b.len()].copy_from_slice(b);
    let bits = Bits {
        bytes: &bytes,
        count: b.len() * 8,
    };
    let (update, next) = bits.name_at(0, u)?;
    let (id, end) = bits.name_at(next, i)?;
    bits.is_filling_at(end).then_some(Counts { update, id })
}

// The bits of a packed stamp: its bytes, with zeros behind them, and how many bits are to be read.
// stays: a position beside them, within them by each clause: a cursor that holds it was tried, and misses the bar of the instructions before (9 % more).
#[derive(Clone, Copy)]
struct Bits<'a> {
    bytes: &'a [u8; 128],
    count: usize,
    ghost padded: { length bytes.now ≡ 128 },
    ghost fits: { count ≤ 936 },
}

impl Bits<'_> {
    // The name at bit pos, its words at the front of out, each string after the one before it: how many there are, and the bit behind them.
    fn name_at(self, pos: usize, out: &mut [u64; 16]) -> Option<(usize, usize)>
        requires { pos ≤ self.count }
        ensures { NameRead self.entry.bytes.now self.entry.count pos result out.new }
    {
        let count = (self.word_at(pos) >> 60) as usize + 1;
        let (mut prior, mut next) = self.string_at(pos + COUNT_BITS)?;
        out[0] = prior;
        for slot in &mut out[1..count] {
            let (word, behind) = self.string_at(next)?;
            if !precedes(prior, word) {
                return None;
            }
            *slot = word;
            prior = word;
            next = behind;
        }
        Some((count, next))
    }

    // The string at bit pos, its length and then its digits: its word, and the bit behind it.
    fn string_at(self, pos: usize) -> Option<(u64, usize)>
        requires { pos ≤ self.count + 4 }
        ensures { StringRead self.entry.bytes.now self.entry.count pos result }
    {
        let v = self.word_at(pos);
        let n = v >> 59;
        let next = pos + LENGTH_BITS + n as usize;
        if DIGITS < n || self.count < next {
            return None;
        }
        let digits = v << 5;
        let behind = digits & (u64::MAX >> n);
        Some((digits - behind + n, next))
    }

    // Whether the bits from pos on are a filling: fewer than a byte has, and all zero.
    fn is_filling_at(self, pos: usize) -> bool
        requires { pos ≤ self.count }
        ensures { result ≡ is_filling (rest self.entry.bytes.now self.entry.count pos) }
    {
        let left = self.count - pos;
        left < 8 && (self.word_at(pos) >> 1) >> (63 - left) == 0
    }

    // The bits from pos on, from the top of a word down: 57 of them, or more.
    fn word_at(self, pos: usize) -> u64
        requires { pos ≤ self.count + 4 }
        ensures { take 57 (field 64 result) ≡ take 57 (drop pos (bits_of self.entry.bytes.now)) }
    {
        let bytes = self.bytes;
        let at = pos / 8;
        let eight = bytes[at..at + 8].first_chunk().unwrap();
        u64::from_be_bytes(*eight) << (pos % 8)
    }
}
