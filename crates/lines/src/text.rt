// What a line says: its letter, and one space before each slot.
ghost use Rattle.std.specs.Prelude.{◌≡◌};
ghost use Rattle.rules.specs.Traces.{read_line, slot_of};
ghost use Rattle.lines.specs.Inner.{digit_of, first_space, given, said};

use crate::{COMPARE, Command, FORK, JOIN, SPARE, UPDATE};

// What stands before each slot.
const SPACE: u8 = b' ';

// The command of a line, its newline left out, where the line reads.
pub(crate) fn command(line: &[u8]) -> Option<Command>
    ensures { result ≡ said (read_line line.now) }
{
    let [letter, SPACE, slots @ ..] = line else {
        return None;
    };
    let op = u64::from(*letter);
    // stays: the letters are numbers (`UPDATE`)
    match (op, first_space(slots)) {
        (UPDATE | FORK | SPARE, None) => Some(Command {
            op,
            a: slot(slots)?,
            b: 0,
        }),
        (JOIN | COMPARE, Some(cut)) => Some(Command {
            op,
            a: slot(&slots[..cut])?,
            b: slot(&slots[cut + 1..])?,
        }),
        _ => None,
    }
}

// Where the first space stands.
fn first_space(s: &[u8]) -> Option<usize>
    ensures { result ≡ first_space s.now }
{
    s.iter().position(|x| *x == SPACE)
}

// The slot that some bytes name: one digit, or two of which the first is not 0.
fn slot(digits: &[u8]) -> Option<usize>
    ensures { result ≡ given (slot_of digits.now) }
{
    match digits {
        [x] => digit(*x),
        [b'0', _] => None,
        [x, y] => Some(10 * digit(*x)? + digit(*y)?),
        _ => None,
    }
}

// The digit that a byte is.
fn digit(x: u8) -> Option<usize>
    ensures { result ≡ digit_of x }
{
    match x {
        b'0'..=b'9' => Some(usize::from(x - b'0')),
        _ => None,
    }
}
