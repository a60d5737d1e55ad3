// Names as lent words in rising order: below and the first uncovered string, what 8 asks, siblings, and the longest strings, each by one
// walk. And of the words of two stamps, each of an update and an id: what they are refused for where they meet, and how they stand.
#![tactic(auto)]

ghost use Rattle.std.specs.Prelude.{◌≡◌, cond};
ghost use Rattle.rules.specs.Refusals.{and_then};
ghost use Rattle.rules.specs.declared.Refusal.TheVariants.{Unseen};
ghost use Rattle.walks.specs.Walks.{at_least, below_walk, uncovered_in, overlap_walk, unknown_walk, unknown_in, has_twins, is_long, meet_walk, compare_walk};
ghost use Rattle.walks.specs.Walks.{judged_by};

use rules::{Refusal, StampWords, Standing, Uncovered};
use std::slice;
use strings::{DIGITS, are_siblings, begins};

// What two lawful stamps are refused for where they meet: 8, then 9.
#[tactic(auto, unfolding(crate::specs::Walks::compare_walk))]
pub fn meet<'a>(a: StampWords<'a>, b: StampWords<'a>) -> Result<(), Refusal>
    ensures { result ≡ meet_walk a.entry.update.now a.entry.id.now b.entry.update.now b.entry.id.now }
{
    compare(a, b)?;
    Ok(())
}

// How the first stands to the second, or what the two are refused for.
#[tactic(auto, unfolding(crate::specs::Walks::compare_walk, crate::specs::Walks::meet_walk, rules::specs::Refusals::first))]
pub fn compare<'a>(a: StampWords<'a>, b: StampWords<'a>) -> Result<Standing, Refusal>
    ensures { result ≡ compare_walk a.entry.update.now a.entry.id.now b.entry.update.now b.entry.id.now }
{
    if is_overlapping(a.id, b.id) {
        return Err(Refusal::Overlap);
    }
    let first = beyond(a, b)?;
    let second = beyond(b, a)?;
    Ok(judged(first, second))
}

// Whether each string of m is a prefix of some string of n.
#[tactic(auto, using(crate::proofs::Steps::finding))]
pub fn is_below(m: &[u64], n: &[u64]) -> bool
    ensures { result ≡ below_walk m.now n.now }
{
    uncovered(m, n).is_none()
}

// The first string of m that no string of n extends.
#[tactic(auto, using(crate::proofs::Steps::uncovering))]
pub fn uncovered(m: &[u64], n: &[u64]) -> Option<Uncovered>
    ensures { result ≡ uncovered_in m.now n.now }
{
    let mut first = None;
    let mut rest = n;
    // stays: nested loops over two names, left by a label at the first uncovered string, are a rule of the project.
    'each: for (place, s) in m.iter().enumerate() {
        loop {
            match rest {
                [t, more @ ..] if t < s => rest = more,
                [t, ..] if begins(*s, *t) => break,
                _ => {
                    first = Some(Uncovered { place, word: *s });
                    break 'each;
                }
            }
        }
    }
    first
}

// Whether a string of one is a prefix of a string of the other: one merge of both, where the lower word is held against the other and passed.
#[tactic(auto, using(crate::proofs::Steps::overlapping))]
pub fn is_overlapping(m: &[u64], n: &[u64]) -> bool
    ensures { result ≡ overlap_walk m.now n.now }
{
    let mut ours = m;
    let mut theirs = n;
    while let ([s, more @ ..], [t, others @ ..]) = (ours, theirs) {
        if s < t {
            if begins(*s, *t) {
                return true;
            }
            ours = more;
        } else {
            if begins(*t, *s) {
                return true;
            }
            theirs = others;
        }
    }
    false
}

// Whether two neighbours differ in the last digit only.
pub fn has_twins(n: &[u64]) -> bool
    ensures { result ≡ has_twins n.now }
{
    n.array_windows::<2>().any(|[s, t]| are_siblings(*s, *t))
}

// Whether some string has as many digits as a string may have.
pub fn is_long(n: &[u64]) -> bool
    ensures { result ≡ is_long n.now }
{
    n.iter().any(|w| w % 64 == DIGITS)
}

// What a has beyond b: the first uncovered string of its update. 9 is asked from there on.
#[tactic(auto, using(crate::proofs::Steps::finding))]
fn beyond<'a>(a: StampWords<'a>, b: StampWords<'a>) -> Result<Option<Uncovered>, Refusal>
    ensures { result
        ≡ cond (unknown_in a.entry.update.now b.entry.id.now b.entry.update.now) (Err Unseen)
        (Ok (uncovered_in a.entry.update.now b.entry.update.now)) }
{
    let first = uncovered(a.update, b.update);
    match first {
        Some(x) if is_unknown(&a.update[x.place..], b) => Err(Refusal::Unseen),
        _ => Ok(first),
    }
}

// Whether some string of u is below the other's id and not below the other's update.
#[tactic(auto, using(crate::proofs::Steps::asking))]
fn is_unknown<'a>(u: &'a [u64], other: StampWords<'a>) -> bool
    ensures { result ≡ unknown_walk u.now other.entry.id.now other.entry.update.now }
{
    let mut ids = other.id;
    let mut updates = other.update;
    for r in u {
        ids = reach(ids, *r);
        let [t, ..] = ids else {
            return false;
        };
        if begins(*r, *t) {
            updates = reach(updates, *r);
            if !is_below(slice::from_ref(r), updates) {
                return true;
            }
        }
    }
    false
}

// How an update stands to another, by the first uncovered string of each.
fn judged(first: Option<Uncovered>, second: Option<Uncovered>) -> Standing
    ensures { result ≡ judged_by first second }
{
    match (first, second) {
        (None, None) => Standing::Equal,
        (None, Some(y)) => Standing::Obsolete(y),
        (Some(x), None) => Standing::Newer(x),
        (Some(x), Some(y)) => Standing::Conflict(x, y),
    }
}

// The rest of n from the first word on that is not below s.
#[tactic(auto, using(crate::proofs::Steps::passing))]
fn reach(n: &[u64], s: u64) -> &[u64]
    ensures { result.now ≡ at_least s n.now }
{
    let mut rest = n;
    while let [t, more @ ..] = rest
        && *t < s
    {
        rest = more;
    }
    rest
}
