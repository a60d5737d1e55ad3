// Questions that go over a run of records, each by one pass from the first slot on: which is the lowest absent, and whether a copy is
// obsolete relative to that of another slot. Records are looked at where they lie.
#![tactic(auto, using(crate::proofs::Turns::turns), unfolding(crate::specs::Scans::obsolete_beside, rules::specs::Refusals::first, rules::specs::Stored::unlawful))]

ghost use Rattle.std.specs.Prelude.{◌≡◌, [], ◌∷◌, position};
ghost use Rattle.rules.specs.Limits.{narrow};
ghost use Rattle.rules.specs.Refusals.{first};
ghost use Rattle.rules.specs.Stored.{absent, unlawful, held};
ghost use Rattle.rules.specs.Tables.{spare_from, spared_after};
ghost use Rattle.rules.specs.declared.Refusal.TheVariants.{NoSlot, Unfit};
ghost use Rattle.scans.specs.Scans.{obsolete_beside};

use names::lent;
use rules::{Record, Refusal, Spared, Standing};
use slots::{asked, is_absent};

// The lowest absent slot.
pub fn lowest_absent(t: &[Record]) -> Option<usize>
    ensures { result ≡ position (absent narrow) t.now }
{
    t.iter().position(is_absent)
}

// Whether m, which is the record of slot a, is obsolete relative to the copy in some other slot.
pub fn spare_in(t: &[Record], a: usize, m: &Record) -> Result<Spared, Refusal>
    ensures { result ≡ spared_after (first ((absent narrow m.now, NoSlot) ∷ (unlawful narrow m.now, Unfit) ∷ [])) (spare_from narrow (held m.now) a 0 t.now) }
{
    asked(m)?;
    for (k, r) in t.iter().enumerate() {
        if k != a && is_obsolete(m, r)? {
            return Ok(Spared::Spare);
        }
    }
    Ok(Spared::Kept)
}

// Whether m, which is lawful, is obsolete relative to r.
fn is_obsolete(m: &Record, r: &Record) -> Result<bool, Refusal>
    ensures { result ≡ obsolete_beside m.now r.now }
{
    if is_absent(r) {
        return Ok(false);
    }
    asked(r)?;
    match walks::compare(lent(m), lent(r))? {
        Standing::Obsolete(_) => Ok(true),
        _ => Ok(false),
    }
}
