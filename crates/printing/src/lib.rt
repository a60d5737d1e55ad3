// A trace's answers as text. A command in the buffer has been answered: the number of its answer stands in the place of its first slot, or,
// where two copies are in conflict, both slots give way to the words of their uncovered strings.
#![tactic(auto)]

mod answers;

ghost use Rattle.std.specs.Prelude.{◌≡◌};
ghost use Rattle.printing.specs.Answers.{printed, printed_in};

use answers::Page;
use lines::Command;

// No answer is longer than so many bytes: `conflict` and two strings, of 63 digits at most, as many as a word can say.
const LONGEST: usize = 137;

// How many answers were written, and the length of their text.
#[derive(Clone, Copy)]
pub struct Printed {
    pub count: usize,
    pub len: usize,
}

// The text of the answers that the commands hold, from the first on, at the front of the buffer; the rest of it stays. An answer is
// written where the longest would have room, so a buffer of that size takes at least one: print what is left again.
pub fn print(commands: &[Command], out: &mut [u8]) -> Printed
    ensures { (result ≡ printed commands.now out.old)
        × (out.new ≡ printed_in commands.now out.old) }
{
    let mut page = Page { out, len: 0 };
    // stays: a count beside what it counts, and gives back, as in `lines::gather`
    let mut count = 0;
    for c in commands {
        if page.out.len() - page.len < LONGEST {
            break;
        }
        page.answer(*c);
        count += 1;
    }
    Printed {
        count,
        len: page.len,
    }
}
