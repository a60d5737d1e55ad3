// A trace's lines. The bytes of the input become commands, however the input is cut into pieces. The table is for another crate, which puts
// each answer's number in the place of `a`.
#![tactic(auto)]

mod text;

ghost use Rattle.std.specs.Prelude.{◌≡◌};
ghost use Rattle.lines.specs.Commands.{begun, pushed, parsed, gathered, gathered_in};

// The letters, as a command has them.
// stays: numbers and no enum, here and in `Command`: `traces::serve`, `traces::run` and `printing::print` answer any number (`meant`, `answer_text`).
pub const UPDATE: u64 = b'U' as u64;

pub const FORK: u64 = b'F' as u64;

pub const JOIN: u64 = b'J' as u64;

pub const COMPARE: u64 = b'C' as u64;

pub const SPARE: u64 = b'S' as u64;

// The letter of a line that does not read: none.
pub const NONE: u64 = 0;

// The letter of an answered compare that told a conflict: no line has it.
pub const CONFLICT: u64 = b'c' as u64;

// The byte that ends a line.
const NEWLINE: u8 = b'\n';

// A line that is not ended yet: how many bytes are kept of it, and those bytes. No line of eight bytes or more reads.
// stays: a length beside its bytes: a trace keeps it from piece to piece, so it is of fixed size and borrows nothing.
#[derive(Clone, Copy)]
pub struct Unfinished {
    pub len: usize,
    pub bytes: [u8; 8],
}

// What a line says: its letter, and the slots that it names, else 0. An unreadable line has no letter, 0.
#[derive(Clone, Copy)]
pub struct Command {
    pub op: u64,
    pub a: usize,
    pub b: usize,
}

// What a piece leaves: the line that is unfinished behind it, and how many lines ended in it.
#[derive(Clone, Copy)]
pub struct Gathered {
    pub line: Unfinished,
    pub count: usize,
}

// The command of a line that does not read.
pub const UNREADABLE: Command = Command {
    op: NONE,
    a: 0,
    b: 0,
};

// The line before its first byte.
#[tactic(auto, unfolding(crate::specs::Commands::begun))]
pub fn begin() -> Unfinished
    ensures { result ≡ begun }
{
    Unfinished {
        len: 0,
        bytes: [0; 8],
    }
}

// The line with one byte more; behind the eighth no byte is kept.
#[tactic(auto, unfolding(crate::specs::Commands::pushed))]
pub fn push(line: Unfinished, x: u8) -> Unfinished
    ensures { result ≡ pushed line x }
{
    if line.len >= line.bytes.len() {
        return line;
    }
    let mut more = line;
    more.bytes[more.len] = x;
    more.len += 1;
    more
}

// The command of a whole line.
pub fn parse(line: Unfinished) -> Command
    ensures { result ≡ parsed line }
{
    let kept = line.len.min(line.bytes.len());
    text::command(&line.bytes[..kept]).unwrap_or(UNREADABLE)
}

// The commands of the lines that end in the piece, at the front of the buffer; the rest of it stays.
// The buffer has to have a command for each byte of the piece. Where it has not, the piece is not taken: nothing is read or written.
pub fn gather(line: Unfinished, piece: &[u8], commands: &mut [Command]) -> Option<Gathered>
    ensures { (result ≡ gathered line piece.now commands.old)
        × (commands.new ≡ gathered_in line piece.now commands.old) }
{
    if commands.len() < piece.len() {
        return None;
    }
    let mut held = line;
    // stays: a count beside the buffer that it fills, and gives back: an iterator over its places is no plainer
    let mut count = 0;
    for x in piece {
        if *x == NEWLINE {
            commands[count] = parse(held);
            count += 1;
            held = begin();
        } else {
            held = push(held, *x);
        }
    }
    Some(Gathered { line: held, count })
}
