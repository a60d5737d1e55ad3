// Bundles: entries back to back, each one length byte and that many bytes of packed stamp. Entry k counts from 0.
#![tactic(auto)]

ghost use Rattle.std.specs.Prelude.{◌≡◌, drop};
ghost use Rattle.rules.specs.Limits.{narrow};
ghost use Rattle.rules.specs.Bundles.{front_entry, read_entry};
ghost use Rattle.bundles.specs.Places.{placed, Inside, Begins};

use layout::BYTES;
use packed::read;
use rules::{Record, Refusal};

// A bundle has at most so many bytes.
const MOST_BYTES: usize = 65536;

// A packed stamp has at least so many bytes.
const LEAST_BYTES: usize = 3;

// Where an entry's bytes lie.
// stays: two places and no slice: `entry` makes the part that starts in the middle of the bundle, a form that was asked for (docs/DECISIONS.md)
#[derive(Clone, Copy)]
struct Place {
    from: usize,
    to: usize,
}

// Entry k of b, read as a stamp: refused 1 where b is too large; then, entry by entry up to k, 13 where b ends before it, 1 where it does
// not read; then 1 and 2 of its stamp.
#[tactic(auto, unfolding(rules::specs::Bundles::read_entry))]
pub fn entry(b: &[u8], k: usize) -> Result<Record, Refusal>
    ensures { result ≡ read_entry narrow k b.now }
{
    let p = find(b, k)?;
    read(&b[p.from..p.to])
}

// The place of entry k, behind k others. Each has a byte at least, so b ends the search whatever k is.
fn find(b: &[u8], k: usize) -> Result<Place, Refusal>
    ensures { (placed b.now result ≡ Rattle.rules.specs.Bundles.entry narrow k b.now) × Inside b.now result }
{
    if MOST_BYTES < b.len() {
        return Err(Refusal::Malformed);
    }
    let mut at = 0;
    for _ in 0..k {
        at = front(b, at)?.to;
    }
    front(b, at)
}

// The place of the entry whose length byte is at `at`.
fn front(b: &[u8], at: usize) -> Result<Place, Refusal>
    ensures { (placed b.now result ≡ front_entry narrow (drop at b.now)) × Inside b.now result × Begins at result }
{
    if b.len() <= at {
        return Err(Refusal::Ended);
    }
    let n = b[at] as usize;
    let from = at + 1;
    if n < LEAST_BYTES || BYTES < n || b.len() - from < n {
        return Err(Refusal::Malformed);
    }
    Ok(Place { from, to: from + n })
}
