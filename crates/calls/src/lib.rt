// The packed calls: update, fork, join and compare on lent bytes, and which of two to keep.
// Refusals come in the order 1 and 2 for the first stamp, 1 and 2 for the second, 8, 9, 6, 7, 10. Without a lawful first stamp each call ends there:
// `Pad::read` takes the answer of the reader apart by `let .. else` and passes the refusal out, and `?` passes it on.
#![tactic(auto)]

mod lengths;

ghost use Rattle.std.specs.Prelude.{◌≡◌};
ghost use Rattle.rules.specs.Limits.{narrow};
ghost use Rattle.rules.specs.Packed.{packed_update, packed_fork, packed_join, packed_compare, packed_standing, side_of};
ghost use Rattle.rules.specs.Room.{room_in, room_number};
ghost use Rattle.layout.specs.Words.{stamp_of};
ghost use Rattle.calls.specs.Joins.{Lent, Reads, wrote_join};
ghost use Rattle.calls.specs.Keep.{kept_is};

use lengths::longest;
use names::{STRINGS, UNION, grow};
use reading::read_in;
use rules::{Refusal, Room, StampWords, Standing};
use walks::is_long;
use writing::{write_both, write_from};

// The stamp after an edit, into out: its update is its id.
pub fn update(stamp: &[u8], out: &mut [u8]) -> Result<usize, Refusal>
    ensures { (result ≡ (packed_update narrow stamp.now out.old).answer) × (out.new ≡ (packed_update narrow stamp.now out.old).out) }
{
    let mut pad = Pad::new();
    let s = pad.read(stamp)?;
    let alike = StampWords {
        update: s.id,
        id: s.id,
    };
    write_from(alike, out)
}

// The 0 branch into zero and the 1 branch into one, or neither.
pub fn fork(stamp: &[u8], zero: &mut [u8], one: &mut [u8]) -> Result<usize, Refusal>
    ensures { (result ≡ (packed_fork narrow stamp.now zero.old one.old).answer) × (zero.new ≡ (packed_fork narrow stamp.now zero.old one.old).zero) × (one.new ≡ (packed_fork narrow stamp.now zero.old one.old).one) }
{
    let mut pad = Pad::new();
    let s = pad.read(stamp)?;
    if is_long(s.id) {
        return Err(Refusal::Long);
    }
    let mut x = [0; STRINGS];
    let mut y = [0; STRINGS];
    grow(s.id, &mut x, &mut y);
    let n = s.id.len();
    write_both(s.update, &x[..n], &y[..n], zero, one)
}

// The join of the two, into out.
pub fn join(first: &[u8], second: &[u8], out: &mut [u8]) -> Result<usize, Refusal>
    ensures { (result ≡ (packed_join narrow first.now second.now out.old).answer) × (out.new ≡ (packed_join narrow first.now second.now out.old).out) }
{
    let mut ours = Pad::new();
    let a = ours.read(first)?;
    let mut theirs = Pad::new();
    let b = theirs.read(second)?;
    walks::meet(a, b)?;
    write_joined(a, b, out)
}

// How the first stands to the second, and which string of its update each has beyond the other.
pub fn compare(first: &[u8], second: &[u8]) -> Result<Standing, Refusal>
    ensures { result ≡ packed_standing narrow first.now second.now }
{
    let mut pad = Pad::new();
    let a = pad.read(first)?;
    let mut other = Pad::new();
    walks::compare(a, other.read(second)?)
}

// The one to keep, itself: the first if equal or newer, the second if the first is obsolete; an empty part of the first on conflict or refusal.
pub fn keep<'a>(first: &'a [u8], second: &'a [u8]) -> &'a [u8]
    ensures { kept_is (side_of (packed_compare narrow first.now second.now)) first.entry second.entry result }
{
    // stays: an arm for each standing: joined by `|` was tried, and the goals of those arms did not close; the empty part for neither was asked for
    match compare(first, second) {
        Ok(Standing::Equal) => first,
        Ok(Standing::Obsolete(_)) => second,
        Ok(Standing::Newer(_)) => first,
        Ok(Standing::Conflict(_, _)) => &first[..0],
        Err(_) => &first[..0],
    }
}

// How much of the limits the stamp takes up, as one number: 100 times the number of its id strings, and the digits of the longest; 0 where it
// is refused.
// stays: a number, and 0 for none: it was told to refuse nothing (docs/CONTRACTS.md), and a function that could not fail still can't.
pub fn room(stamp: &[u8]) -> u64
    ensures { result ≡ room_number narrow stamp.now }
{
    match room_in(stamp) {
        Ok(room) => room.strings as u64 * 100 + room.digits,
        Err(_) => 0,
    }
}

// How much of the limits the stamp takes up, or what it is refused for.
pub fn room_in(stamp: &[u8]) -> Result<Room, Refusal>
    ensures { result ≡ room_in narrow stamp.now }
{
    let mut pad = Pad::new();
    let s = pad.read(stamp)?;
    Ok(Room {
        strings: s.id.len(),
        digits: longest(s.id),
    })
}

// Where the words of one stamp have room.
// stays: two runs of words, of which so many count: fixed memory, and no heap
#[derive(Drop)]
struct Pad {
    update: [u64; STRINGS],
    id: [u64; STRINGS],
}

impl Pad {
    // With zeros for words.
    #[inline]
    fn new() -> Pad {
        Pad {
            update: [0; STRINGS],
            id: [0; STRINGS],
        }
    }

    // The stamp that these bytes pack, in its words. In line everywhere: the compiler then sees whose words they are (see `unions::unite`).
    #[inline(always)]
    fn read(&mut self, packed: &[u8]) -> Result<StampWords<'_>, Refusal>
        ensures { Reads packed.now result }
    {
        // stays: taken apart by `let .. else`, a form that was asked for (docs/DECISIONS.md)
        let read = read_in(packed, &mut self.update, &mut self.id);
        let Ok(counts) = read else {
            return Err(read.unwrap_err());
        };
        Ok(StampWords {
            update: &self.update[..counts.update],
            id: &self.id[..counts.id],
        })
    }
}

// The join of two lawful stamps that may meet, for whose words there is always room: 7 and 10 are left to refuse.
fn write_joined(a: StampWords<'_>, b: StampWords<'_>, out: &mut [u8]) -> Result<usize, Refusal>
    requires { Lent a.update.now a.id.now × Lent b.update.now b.id.now }
    ensures { (result ≡ (wrote_join (stamp_of a.entry.update.now a.entry.id.now) (stamp_of b.entry.update.now b.entry.id.now) out.old).answer)
        × (out.new ≡ (wrote_join (stamp_of a.entry.update.now a.entry.id.now) (stamp_of b.entry.update.now b.entry.id.now) out.old).out) }
{
    let mut update = [0; UNION];
    let mut id = [0; UNION];
    let counts = unions::join(a, b, &mut update, &mut id).unwrap();
    if STRINGS < counts.id {
        return Err(Refusal::Many);
    }
    let joined = StampWords {
        update: &update[..counts.update],
        id: &id[..counts.id],
    };
    write_from(joined, out)
}
