// The table's rules: what is asked of numbers alone, and what a call on the table makes of the records that it names, or refuses. A rule is
// total: it takes records of any content, and copies none before it is asked whether it is absent. What a rule on stamps refuses as unlawful, 2,
// is 12 here.
#![tactic(auto, using(crate::proofs::Zeros::zeros, std::proofs::lemmas::Bool::Decides::nat_tests), unfolding(crate::specs::Rules::gate, crate::specs::Rules::update_rule, crate::specs::Rules::fork_rule, crate::specs::Rules::join_rule, crate::specs::Rules::compare_rule, rules::specs::Refusals::first, rules::specs::Stored::unlawful, rules::specs::Values::updated, rules::specs::Values::forked, rules::specs::Values::joined, rules::specs::Values::compared, rules::specs::Values::standing))]

ghost use Rattle.std.specs.Prelude.{◌≡◌, []};
ghost use Rattle.rules.specs.Limits.{narrow};
ghost use Rattle.rules.specs.Refusals.{first};
ghost use Rattle.rules.specs.Stamps.{start};
ghost use Rattle.rules.specs.Stored.{absent, same_words, stored, words_of};
ghost use Rattle.slots.specs.Rules.{gate, refused_at, slot_tests, update_rule, fork_rule, join_rule, compare_rule};

use names::is_zero_from;
use rules::{Branches, Record, Refusal, Standing, Words};
use stamps::{blank, lawful};

// A table has at most so many records.
const RECORDS: usize = 32;

// What can be refused without a look at a record: a table of n records, and two of its slots.
pub fn gate(n: usize, a: usize, b: usize) -> Result<(), Refusal>
    ensures { result ≡ gate n a b }
{
    if n == 0 || RECORDS < n {
        return Err(Refusal::Unfit);
    }
    if n <= a || n <= b {
        return Err(Refusal::NoSlot);
    }
    Ok(())
}

// The copy that a fresh table has in slot 0.
pub fn start() -> Record
    ensures { result ≡ stored narrow start }
{
    let mut one = blank().update;
    one.count = 1;
    Record {
        update: one,
        id: one,
    }
}

// Whether there is no copy in the record: it is all zeros.
// stays: two tests: `*r == blank()`, by a derived equality, was tried; its goal `returns` did not close, and it makes a record of zeros at each look.
pub fn is_absent(r: &Record) -> bool
    ensures { result ≡ absent narrow r.now }
{
    is_zero(&r.update) && is_zero(&r.id)
}

// What is asked of a slot's record first.
pub fn asked(r: &Record) -> Result<(), Refusal>
    ensures { result ≡ first (slot_tests r.now []) }
{
    if is_absent(r) {
        return Err(Refusal::NoSlot);
    }
    lawful(r).map_err(refused_at)
}

// What update makes of a slot's record.
// stays: not by `stamps::update`, which was tried: it takes a copy of the record, and gives back one more.
pub fn update_rule(s: &Record) -> Result<Record, Refusal>
    ensures { result ≡ update_rule s.now }
{
    asked(s)?;
    Ok(Record {
        update: s.id,
        id: s.id,
    })
}

// What fork makes of a slot's record, of which one branch goes to the lowest absent slot, if there is one. Never in line: the compiler would
// see the record stored where it lies, and an archive would need memmove.
#[inline(never)]
pub fn fork_rule(s: &Record, to: Option<usize>) -> Result<Branches, Refusal>
    ensures { result ≡ fork_rule s.now to }
{
    if to.is_none() {
        asked(s)?;
        return Err(Refusal::Full);
    }
    if is_absent(s) {
        return Err(Refusal::NoSlot);
    }
    stamps::fork(*s).map_err(refused_at)
}

// What join makes of the records of slots a and b.
pub fn join_rule(a: usize, b: usize, s: &Record, u: &Record) -> Result<Record, Refusal>
    ensures { result ≡ join_rule a b s.now u.now }
{
    if is_absent(s) || is_absent(u) {
        return Err(Refusal::NoSlot);
    }
    if a == b {
        return Err(Refusal::OneSlot);
    }
    joins::join(*s, *u).map_err(refused_at)
}

// How the record of slot a stands to that of slot b: a slot is equal to itself.
pub fn compare_rule(a: usize, b: usize, s: &Record, u: &Record) -> Result<Standing, Refusal>
    ensures { result ≡ compare_rule a b s.now u.now }
{
    if a == b {
        asked(s)?;
        return Ok(Standing::Equal);
    }
    if is_absent(s) || is_absent(u) {
        return Err(Refusal::NoSlot);
    }
    stamps::compare(*s, *u).map_err(refused_at)
}

// Whether the name's record is all zeros.
fn is_zero(w: &Words) -> bool
    ensures { result ≡ same_words w.now (words_of narrow []) }
{
    w.count == 0 && is_zero_from(&w.words, 0)
}

// What a rule on stamps refuses, as the table says it.
fn refused_at(r: Refusal) -> Refusal
    ensures { result ≡ refused_at r }
{
    match r {
        Refusal::Unlawful => Refusal::Unfit,
        _ => r,
    }
}
