// A whole input, piece after piece. Between two pieces stand the line that is unfinished and the table; each piece answers the lines that
// end in it. However an input is cut, the answers are the same.
#![tactic(auto)]

ghost use Rattle.std.specs.Prelude.{◌≡◌};
ghost use Rattle.inputs.specs.Pieces.{started, fed, fed_commands, closed, closed_commands};

use lines::{Command, Gathered, Unfinished};
use rules::Record;

// Where a trace stands between two pieces of its input, and how many bytes more it takes. Only the functions here make one, so that
// whoever loops over the pieces ends because the trace that a piece leaves takes fewer bytes: dropping it is no loop that ends.
#[derive(Clone, Copy)]
pub struct Trace {
    line: Unfinished,
    table: [Record; 32],
    budget: u64,
}

// What a piece leaves: where the trace stands, and how many answered commands stand in the buffer.
#[derive(Clone, Copy)]
pub struct Fed {
    pub trace: Trace,
    pub count: usize,
}

// Before the first piece: no line, a fresh table, and more bytes to take than any input has.
#[tactic(auto, unfolding(crate::specs::Pieces::started))]
pub fn start() -> Trace
    ensures { result ≡ started }
{
    Trace {
        line: lines::begin(),
        table: traces::fresh_in(),
        budget: u64::MAX,
    }
}

// One piece more: its answered commands at the front of `commands`; the rest of it stays. `commands` has to have a command for each byte
// of the piece. Where it has not, or the trace takes not so many bytes more, nothing is taken or written.
pub fn feed(trace: Trace, piece: &[u8], commands: &mut [Command]) -> Option<Fed>
    ensures { (result ≡ fed trace piece.now commands.old)
        × (commands.new ≡ fed_commands trace piece.now commands.old) }
{
    let budget = trace.budget.checked_sub(piece.len() as u64)?;
    let Gathered { line, count } = lines::gather(trace.line, piece, commands)?;
    let table = traces::run(&mut commands[..count], trace.table);
    Some(Fed {
        trace: Trace {
            line,
            table,
            budget,
        },
        count,
    })
}

// The end of the input: a last line without newline is answered as if it had one.
#[tactic(auto, unfolding(crate::specs::Pieces::closed, crate::specs::Pieces::closed_commands))]
pub fn close(trace: Trace, commands: &mut [Command]) -> Option<Fed>
    ensures { (result ≡ closed trace commands.old)
        × (commands.new ≡ closed_commands trace commands.old) }
{
    if trace.line.len == 0 {
        return Some(Fed { trace, count: 0 });
    }
    feed(trace, b"\n", commands)
}
