// The trace tool: answers the lines of standard input on standard output. What is answered stands in `inputs`, as text in `printing`; here
// are the loops over the pieces and over their text.
#![tactic(auto)]

ghost use Rattle.std.specs.Prelude.{◌≡◌, ◌≤◌, ◌<◌, length, max, MatchResult};
ghost use Rattle.printing.specs.Answers.{longest};

use inputs::Trace;
use lines::{Command, UNREADABLE};
use std::io::{Eprint, Input, Print, Read, Write};
use std::{env, io};

// Why the tool stops before the end of its input.
#[derive(Drop)]
enum Stop {
    // more bytes than a trace takes; no input has so many
    TooLong,
    Read(io::Error),
    Write(io::Error),
}

// A piece is at most 4,096 bytes, so there are at most as many commands. Their text is written as often as `out` is full.
fn main(rt: HostRuntime) {
    if is_mistyped(&rt) {
        let _ = rt.stderr().write_all(b"usage: trace < FILE\n");
        let _ = rt.stderr().write_all(
            b"Each line of FILE is one of: U a, F a, J a b, C a b, S a (slots 0 to 31).\n",
        );
        return;
    }
    let mut piece = [0u8; 4096];
    let mut commands = [UNREADABLE; 4096];
    let mut out = [0u8; 16384];
    if let Err(stop) = answer(&rt, &mut piece, &mut commands, &mut out) {
        tell(&rt, stop);
    }
}

// Whether there is an argument: the tool takes none.
fn is_mistyped<R: env::Env>(rt: &R) -> bool {
    let mut first = [0u8; 1];
    !matches!(rt.arg(1, &mut first), Err(env::FillError::NotPresent))
}

// Why the tool stops, on standard error. A reader that has gone away is not told.
fn tell<R: Eprint>(rt: &R, stop: Stop) {
    let _ = match stop {
        Stop::TooLong => eprintln!(rt; "trace: too long"),
        Stop::Read(e) => eprintln!(rt; "trace: read: {e}"),
        Stop::Write(e) if e.kind() == io::ErrorKind::BrokenPipe => Ok(()),
        Stop::Write(e) => eprintln!(rt; "trace: write: {e}"),
    };
}

// Piece after piece to the end of the input, then a last line without newline. A read or a write that fails ends it.
// A proved loop has to end: this one does because the trace that a piece leaves takes fewer bytes more.
fn answer<R: Input + Print>(
    rt: &R,
    piece: &mut [u8],
    commands: &mut [Command],
    out: &mut [u8],
) -> Result<(), Stop>
    requires piece_nonzero { 0 < length piece.old }
    requires piece_in_bounds { length piece.old ≤ length commands.old }
    requires longest_in_bounds { longest ≤ length out.old }
{
    let mut input = rt.reader();
    let mut trace = inputs::start();
    loop {
        let n = input.read(piece).map_err(Stop::Read)?;
        let count = take(&mut trace, &piece[..n], commands)?;
        write(rt, &commands[..count], out).map_err(Stop::Write)?;
        if n == 0 {
            return Ok(());
        }
    }
}

// A piece taken by the trace, in place: how many answers it has; an empty one is the end of the input. Only a piece of more bytes than the
// trace still takes is not taken, where the end counts as one.
fn take(trace: &mut Trace, piece: &[u8], commands: &mut [Command]) -> Result<usize, Stop>
    requires piece_in_bounds { length piece.now ≤ length commands.old }
    requires commands_nonzero { 0 < length commands.old }
    ensures { MatchResult result
        (λ count. (count ≤ length commands.new) × (0 < length piece.now → trace.new.budget < trace.old.budget))
        (λ stop. (stop ≡ Stop.TooLong) × (trace.old.budget < max 1 (length piece.now))) }
{
    let fed = if piece.is_empty() {
        inputs::close(*trace, commands)
    } else {
        inputs::feed(*trace, piece, commands)
    };
    let Some(fed) = fed else {
        return Err(Stop::TooLong);
    };
    *trace = fed.trace;
    Ok(fed.count)
}

// The text of all answers on standard output, as much of it at a time as `out` takes.
#[tactic(auto, using(crate::proofs::Portions::some, crate::proofs::Portions::few, crate::proofs::Portions::short, crate::proofs::Portions::cut))]
fn write<R: Print>(rt: &R, commands: &[Command], out: &mut [u8]) -> io::Result<()>
    requires { longest ≤ length out.old }
{
    let mut rest = commands;
    while !rest.is_empty() {
        let p = printing::print(rest, out);
        io::writer(rt).write_all(&out[..p.len])?;
        rest = &rest[p.count..];
    }
    Ok(())
}
