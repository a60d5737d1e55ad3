// Trace commands at the table. The table's run is lent on to its functions.
#![tactic(auto)]

ghost use Rattle.std.specs.Prelude.{◌≡◌};
ghost use Rattle.rules.specs.Limits.{narrow, records};
ghost use Rattle.rules.specs.Tables.{fresh_table};
ghost use Rattle.rules.specs.Traces.{line_table};
ghost use Rattle.lines.specs.Runs.{meant, answer, numbered, stood};
ghost use Rattle.traces.specs.Serves.{ran_table, ran_in};

use answers::{compared_code, refusal_code, spared_code, written_code};
use lines::{COMPARE, CONFLICT, Command, FORK, JOIN, NONE, SPARE, UPDATE};
use rules::{Record, Refusal, Standing};

// One command, with its answer. A letter that is none does nothing and is refused.
// stays: a letter is a number, and so is an answer: `serve` answers every number (`answer`, `meant`).
#[tactic(auto, unfolding(lines::specs::Runs::meant, lines::specs::Runs::answer_to, rules::specs::Traces::line_table))]
pub fn serve(t: &mut [Record], c: Command) -> Command
    ensures { (result ≡ answer narrow t.old c) × (t.new ≡ line_table narrow t.old (meant c)) }
{
    match c.op {
        UPDATE => numbered(c, written_code(tables::update(t, c.a))),
        FORK => numbered(c, written_code(tables::fork(t, c.a))),
        JOIN => numbered(c, written_code(tables::join(t, c.a, c.b))),
        COMPARE => stood(c, tables::compare(t, c.a, c.b)),
        SPARE => numbered(c, spared_code(tables::spare(t, c.a))),
        _ => numbered(Command { op: NONE, ..c }, refusal_code(Refusal::Unread)),
    }
}

// All commands that the buffer holds, one after the other, from a table by value: each gives way to itself with its answer. The table
// that is left.
pub fn run(commands: &mut [Command], table: [Record; 32]) -> [Record; 32]
    ensures { (result ≡ ran_table table commands.old) × (commands.new ≡ ran_in table commands.old) }
{
    let mut t = table;
    for c in commands.iter_mut() {
        *c = serve(&mut t, *c);
    }
    t
}

// A fresh table of 32: [e|e] in slot 0 and nothing else.
pub fn fresh_in() -> [Record; 32]
    ensures fresh { result ≡ fresh_table narrow records }
{
    let mut t = [stamps::blank(); 32];
    let _ = tables::fresh(&mut t);
    t
}

// A command with the number of its answer in the place of the first slot.
fn numbered(c: Command, n: u64) -> Command
    ensures { result ≡ numbered c n }
{
    Command { a: n as usize, ..c }
}

// A compare with its answer: its number, or of a conflict the words of both uncovered strings.
fn stood(c: Command, s: Result<Standing, Refusal>) -> Command
    ensures { result ≡ stood c s }
{
    match s {
        Ok(Standing::Conflict(x, y)) => Command {
            op: CONFLICT,
            a: x.word as usize,
            b: y.word as usize,
        },
        _ => numbered(c, compared_code(s)),
    }
}
