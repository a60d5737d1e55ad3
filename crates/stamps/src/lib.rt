// Stamps by value, on records of any content: lawful, update, fork, compare, and what 2, 8 and 9 ask of two stamps that meet.
#![tactic(auto)]

ghost use Rattle.std.specs.Prelude.{◌≡◌, [], ◌∷◌};
ghost use Rattle.rules.specs.Limits.{narrow};
ghost use Rattle.rules.specs.Stored.{blank, is_stored, unlawful};
ghost use Rattle.rules.specs.Refusals.{first};
ghost use Rattle.rules.specs.Values.{updated, forked, standing, meeting};
ghost use Rattle.rules.specs.declared.Refusal.TheVariants.{Unlawful};

use names::{STRINGS, counted, grow, is_name_in, lent};
use rules::{Branches, Record, Refusal, Standing, Words};
use walks::{has_twins, is_below, is_long};

// All zeros: no copy.
pub fn blank() -> Record
    ensures { result ≡ blank narrow }
{
    let n = Words {
        count: 0,
        words: [0; STRINGS],
    };
    Record { update: n, id: n }
}

// Whether the record is the stored shape of a lawful stamp.
#[tactic(auto, unfolding(rules::specs::Refusals::first, rules::specs::Stored::unlawful))]
pub fn is_lawful(r: Record) -> bool
    ensures { result ≡ is_stored narrow r }
{
    lawful(&r).is_ok()
}

// Whether the two names are a lawful stamp.
// stays: public, of slices of any length and a count beside each, which no `Words` and no `StampWords` holds.
pub fn is_lawful_in<'a>(u: &'a [u64], uc: usize, i: &'a [u64], ic: usize) -> bool
    ensures { result ≡ is_stored narrow (record { update = record { count = uc; words = u.now }; id = record { count = ic; words = i.now } }) }
{
    if !is_name_in(u, uc) || !is_name_in(i, ic) {
        return false;
    }
    let id = counted(i, ic);
    is_below(counted(u, uc), id) && !has_twins(id)
}

// What a record is refused for that is not the stored shape of a lawful stamp.
pub fn lawful(r: &Record) -> Result<(), Refusal>
    ensures { result ≡ first ((unlawful narrow r.now, Unlawful) ∷ []) }
{
    if is_lawful_in(&r.update.words, r.update.count, &r.id.words, r.id.count) {
        Ok(())
    } else {
        Err(Refusal::Unlawful)
    }
}

// [u|i] becomes [i|i].
pub fn update(r: Record) -> Result<Record, Refusal>
    ensures { result ≡ updated narrow r }
{
    lawful(&r)?;
    Ok(Record {
        update: r.id,
        id: r.id,
    })
}

// [u|i] becomes [u|i0] and [u|i1]; refused too where an id string can grow no longer.
pub fn fork(r: Record) -> Result<Branches, Refusal>
    ensures { result ≡ forked narrow r }
{
    lawful(&r)?;
    let id = counted(&r.id.words, r.id.count);
    if is_long(id) {
        return Err(Refusal::Long);
    }
    let mut zero = [0; STRINGS];
    let mut one = [0; STRINGS];
    grow(id, &mut zero, &mut one);
    Ok(Branches {
        zero: with_id(&r, zero),
        one: with_id(&r, one),
    })
}

// The record with these words in the place of its id's.
fn with_id(r: &Record, words: [u64; STRINGS]) -> Record
    ensures { result ≡ record { update = r.now.update; id = record { count = r.now.id.count; words = words } } }
{
    Record {
        update: r.update,
        id: Words {
            count: r.id.count,
            words,
        },
    }
}

// What two stamps that meet are refused for: 2 for the first, 2 for the second, 8, 9.
pub fn meet(a: Record, b: Record) -> Result<(), Refusal>
    ensures { result ≡ first (meeting narrow a b []) }
{
    lawful(&a)?;
    lawful(&b)?;
    walks::meet(lent(&a), lent(&b))
}

// How the first stands to the second, and which string of its update each has beyond the other.
pub fn compare(a: Record, b: Record) -> Result<Standing, Refusal>
    ensures { result ≡ standing narrow a b }
{
    lawful(&a)?;
    lawful(&b)?;
    walks::compare(lent(&a), lent(&b))
}
