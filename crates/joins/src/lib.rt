// Join of two stamps by value: the unions of both names and reduction in buffers of twice the room, and only then the limit.
#![tactic(auto)]

ghost use Rattle.std.specs.Prelude.{◌≡◌, true, [], ◌∷◌, ◌≤◌, length};
ghost use Rattle.rules.specs.Limits.{narrow};
ghost use Rattle.rules.specs.Stamps.{join};
ghost use Rattle.rules.specs.Stored.{held, is_stored};
ghost use Rattle.rules.specs.Refusals.{first, many};
ghost use Rattle.rules.specs.Values.{given, joined};
ghost use Rattle.rules.specs.declared.Refusal.TheVariants.{Many};
ghost use Rattle.joins.specs.Buffers.{words};

use names::{STRINGS, UNION, lent};
use rules::{Record, Refusal, Words};

// The unions of both update names and of both ids, then reduction; refused where the two may not meet or the reduced id has too many strings.
pub fn join(a: Record, b: Record) -> Result<Record, Refusal>
    ensures { result ≡ joined narrow a b }
{
    stamps::meet(a, b)?;
    merged(&a, &b)
}

// The join of two lawful stamps, where the reduced id has no more strings than a name has.
fn merged(a: &Record, b: &Record) -> Result<Record, Refusal>
    requires { (is_stored narrow a.now ≡ true) × (is_stored narrow b.now ≡ true) }
    ensures { result ≡ given narrow (first ((many narrow (join (held a.now) (held b.now)), Many) ∷ [])) (join (held a.now) (held b.now)) }
{
    let mut u = [0; UNION];
    let mut i = [0; UNION];
    let counts = unions::join(lent(a), lent(b), &mut u, &mut i).unwrap();
    // The update never has more strings than the id.
    if STRINGS < counts.id {
        return Err(Refusal::Many);
    }
    let update = narrowed(&u[..counts.update]);
    let id = narrowed(&i[..counts.id]);
    Ok(Record { update, id })
}

// These words as a name: no more of them than a name has strings.
fn narrowed(w: &[u64]) -> Words
    requires { length w.now ≤ narrow.strings }
    ensures { result ≡ words w.now }
{
    let mut words = [0; STRINGS];
    words[..w.len()].copy_from_slice(w);
    Words {
        count: w.len(),
        words,
    }
}
