// The C synchroniser's side: the packed calls over numbers and byte slices. include/ebbmuslin.h declares them for C.
// stays: numbers for answers, which are the C interface.
#![tactic(auto)]

ghost use Rattle.std.specs.Prelude.{◌≡◌};
ghost use Rattle.rules.specs.Limits.{narrow};
ghost use Rattle.rules.specs.Packed.{packed_update, packed_fork, packed_join, packed_compare, written_number, compared_number};
ghost use Rattle.rules.specs.Room.{room_number};

use answers::{compared_code, written_code};

// The stamp after an edit, into out: the bytes written, or 1,000 and the refusal.
#[unsafe(no_mangle)]
pub extern "C" fn ebbmuslin_update(stamp: &[u8], out: &mut [u8]) -> u64
    ensures { (result ≡ written_number (packed_update narrow stamp.now out.old).answer) × (out.new ≡ (packed_update narrow stamp.now out.old).out) }
{
    written_code(calls::update(stamp, out))
}

// The 0 branch into zero and the 1 branch into one, or neither: the bytes of one of them, or 1,000 and the refusal.
#[unsafe(no_mangle)]
pub extern "C" fn ebbmuslin_fork(stamp: &[u8], zero: &mut [u8], one: &mut [u8]) -> u64
    ensures { (result ≡ written_number (packed_fork narrow stamp.now zero.old one.old).answer) × (zero.new ≡ (packed_fork narrow stamp.now zero.old one.old).zero) × (one.new ≡ (packed_fork narrow stamp.now zero.old one.old).one) }
{
    written_code(calls::fork(stamp, zero, one))
}

// The join of the two, into out: the bytes written, or 1,000 and the refusal.
#[unsafe(no_mangle)]
pub extern "C" fn ebbmuslin_join(first: &[u8], second: &[u8], out: &mut [u8]) -> u64
    ensures { (result ≡ written_number (packed_join narrow first.now second.now out.old).answer) × (out.new ≡ (packed_join narrow first.now second.now out.old).out) }
{
    written_code(calls::join(first, second, out))
}

// How the first stands to the second: 0 equal, 1 obsolete, 2 newer, 3 conflict, or 1,000 and the refusal.
#[unsafe(no_mangle)]
pub extern "C" fn ebbmuslin_compare(first: &[u8], second: &[u8]) -> u64
    ensures { result ≡ compared_number (packed_compare narrow first.now second.now) }
{
    compared_code(calls::compare(first, second))
}

// How much of the limits the stamp takes up: 100 times the number of its id strings, and the digits of the longest; 0 where it is refused.
#[unsafe(no_mangle)]
pub extern "C" fn ebbmuslin_room(stamp: &[u8]) -> u64
    ensures { result ≡ room_number narrow stamp.now }
{
    calls::room(stamp)
}
