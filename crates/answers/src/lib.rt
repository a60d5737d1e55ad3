// The answers as numbers, for callers that take numbers alone: what was written, a verdict, whether a copy may go, or 1,000 plus a refusal's number.
#![tactic(auto)]

ghost use Rattle.std.specs.Prelude.{◌≡◌, ℕ, ◌+◌};
ghost use Rattle.rules.specs.Refusals.{number};
ghost use Rattle.rules.specs.Values.{compared_of};
ghost use Rattle.rules.specs.Packed.{written_number, compared_number};
ghost use Rattle.rules.specs.Tables.{spared_number};

use rules::{Refusal, Spared, Standing, Verdict};

// A refusal: 1,000 and its number.
// stays: numbers, here and below: the C interface takes them, and a trace's buffer (`lines::Command`); no `From`, as a `Result` and `u64` are std's.
pub fn refusal_code(r: Refusal) -> u64
    ensures { result ≡ 1000 + number r }
{
    1000 + u64::from(r)
}

// What a comparison says: 0 equal, 1 obsolete, 2 newer, 3 conflict.
pub fn compared_code(s: Result<Standing, Refusal>) -> u64
    ensures { result ≡ compared_number (compared_of s) }
{
    match s {
        Ok(standing) => u64::from(Verdict::from(standing)),
        Err(why) => refusal_code(why),
    }
}

// How many bytes a packed call wrote, or which slot a call on the table names.
pub fn written_code(w: Result<usize, Refusal>) -> u64
    ensures { result ≡ written_number w }
{
    w.map_or_else(refusal_code, |n| n as u64)
}

// Whether a copy may go: 1 spare, 0 kept.
pub fn spared_code(s: Result<Spared, Refusal>) -> u64
    ensures { result ≡ spared_number s }
{
    match s {
        Ok(spared) => u64::from(spared),
        Err(r) => refusal_code(r),
    }
}
