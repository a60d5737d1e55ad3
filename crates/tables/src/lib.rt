// The table of copies: a lent run of records. A function over the run is thin: a gate about numbers alone, then a rule, and what it makes of
// the records is stored; or a question about the run. On a refusal nothing is stored.
#![tactic(auto, using(crate::proofs::Tied::tied))]

ghost use Rattle.std.specs.Prelude.{◌≡◌};
ghost use Rattle.rules.specs.Limits.{narrow};
ghost use Rattle.rules.specs.Tables.{make_fresh, update_at, fork_at, join_at, standing_at, spare_at};

use rules::{Record, Refusal, Spared, Standing};
use scans::{lowest_absent, spare_in};
use slots::{compare_rule, fork_rule, gate, join_rule, start, update_rule};
use stamps::blank;

// A fresh table: [e|e] in slot 0 and nothing else. Slot 0, or 12.
pub fn fresh(t: &mut [Record]) -> Result<usize, Refusal>
    ensures { (result ≡ (make_fresh narrow t.old).answer) × (t.new ≡ (make_fresh narrow t.old).table) }
{
    gate(t.len(), 0, 0)?;
    t.fill(blank());
    t[0] = start();
    Ok(0)
}

// Slot a's copy was edited.
// stays: a `match`: `?` was tried, and moves the record once more.
pub fn update(t: &mut [Record], a: usize) -> Result<usize, Refusal>
    ensures { (result ≡ (update_at narrow t.old a).answer) × (t.new ≡ (update_at narrow t.old a).table) }
{
    gate(t.len(), a, a)?;
    match update_rule(&t[a]) {
        Ok(edited) => {
            t[a] = edited;
            Ok(a)
        }
        Err(why) => Err(why),
    }
}

// A copy of slot a in the lowest absent slot, which the answer names.
// stays: a `match`: `?` was tried, and moves both branches once more.
pub fn fork(t: &mut [Record], a: usize) -> Result<usize, Refusal>
    ensures { (result ≡ (fork_at narrow t.old a).answer) × (t.new ≡ (fork_at narrow t.old a).table) }
{
    gate(t.len(), a, a)?;
    let to = lowest_absent(t);
    match fork_rule(&t[a], to) {
        Ok(branches) => {
            let b = to.unwrap();
            t[a] = branches.zero;
            t[b] = branches.one;
            Ok(b)
        }
        Err(why) => Err(why),
    }
}

// The copies of a and b become one, in slot a.
pub fn join(t: &mut [Record], a: usize, b: usize) -> Result<usize, Refusal>
    ensures { (result ≡ (join_at narrow t.old a b).answer) × (t.new ≡ (join_at narrow t.old a b).table) }
{
    gate(t.len(), a, b)?;
    t[a] = join_rule(a, b, &t[a], &t[b])?;
    t[b] = blank();
    Ok(a)
}

// How the copy in slot a stands to that in slot b, and which string of its update each has beyond the other.
pub fn compare(t: &[Record], a: usize, b: usize) -> Result<Standing, Refusal>
    ensures { result ≡ standing_at narrow t.now a b }
{
    gate(t.len(), a, b)?;
    compare_rule(a, b, &t[a], &t[b])
}

// Whether slot a's copy is obsolete relative to some other.
pub fn spare(t: &[Record], a: usize) -> Result<Spared, Refusal>
    ensures { result ≡ spare_at narrow t.now a }
{
    gate(t.len(), a, a)?;
    spare_in(t, a, &t[a])
}
