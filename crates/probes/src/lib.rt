// What the tests in C call beside the functions of the header: the table's functions on a lent run of any length and content, and
// the functions by value with a record as 34 words, of the update name and of the id a count and 16. An answer is a number:
// 0, a slot's, a verdict's, 1 for spare, how many bytes, or 1,000 plus the refusal's. Nothing of the product uses this crate.
// stays: numbers for answers, and words for records, which are the C interface.
#![tactic(auto)]

mod words;

ghost use Rattle.std.specs.Prelude.{◌≡◌, [], length};
ghost use Rattle.rules.specs.Limits.{narrow};
ghost use Rattle.rules.specs.Refusals.{first};
ghost use Rattle.rules.specs.Stored.{is_stored};
ghost use Rattle.rules.specs.Values.{updated, forked, joined, compared, compared_of, standing, meeting};
ghost use Rattle.rules.specs.Packed.{read_stamp, written_stamp, packed_compare, packed_standing, side_of, written_number, compared_number};
ghost use Rattle.rules.specs.Bundles.{read_entry};
ghost use Rattle.rules.specs.Tables.{make_fresh, update_at, fork_at, join_at, compare_at, spare_at, slot_number, spared_number};
ghost use Rattle.calls.specs.Keep.{kept_is};
ghost use Rattle.probes.specs.Handed.{record_in, record_words, given_words, zero_words, one_words, done_number, kept_bytes, standing_words};

use answers::{compared_code, refusal_code, spared_code, written_code};
use rules::{Record, Refusal, Standing};
use words::{put_record, record_in};

// `tables::fresh`.
#[unsafe(no_mangle)]
pub extern "C" fn probe_fresh(t: &mut [Record]) -> u64
    ensures { (result ≡ slot_number (make_fresh narrow t.old).answer) × (t.new ≡ (make_fresh narrow t.old).table) }
{
    written_code(tables::fresh(t))
}

// `tables::update`.
#[unsafe(no_mangle)]
pub extern "C" fn probe_update(t: &mut [Record], a: usize) -> u64
    ensures { (result ≡ slot_number (update_at narrow t.old a).answer) × (t.new ≡ (update_at narrow t.old a).table) }
{
    written_code(tables::update(t, a))
}

// `tables::fork`.
#[unsafe(no_mangle)]
pub extern "C" fn probe_fork(t: &mut [Record], a: usize) -> u64
    ensures { (result ≡ slot_number (fork_at narrow t.old a).answer) × (t.new ≡ (fork_at narrow t.old a).table) }
{
    written_code(tables::fork(t, a))
}

// `tables::join`.
#[unsafe(no_mangle)]
pub extern "C" fn probe_join(t: &mut [Record], a: usize, b: usize) -> u64
    ensures { (result ≡ slot_number (join_at narrow t.old a b).answer) × (t.new ≡ (join_at narrow t.old a b).table) }
{
    written_code(tables::join(t, a, b))
}

// `tables::compare`.
#[unsafe(no_mangle)]
pub extern "C" fn probe_compare(t: &[Record], a: usize, b: usize) -> u64
    ensures { result ≡ compared_number (compare_at narrow t.now a b) }
{
    compared_code(tables::compare(t, a, b))
}

// `tables::spare`.
#[unsafe(no_mangle)]
pub extern "C" fn probe_spare(t: &[Record], a: usize) -> u64
    ensures { result ≡ spared_number (spare_at narrow t.now a) }
{
    spared_code(tables::spare(t, a))
}

// `packed::read`.
#[unsafe(no_mangle)]
pub extern "C" fn probe_read(b: &[u8], out: &mut [u64; 34]) -> u64
    ensures { (result ≡ done_number (read_stamp narrow b.now))
        × (out.new ≡ given_words (read_stamp narrow b.now)) }
{
    give(packed::read(b), out)
}

// `packed::write`.
#[unsafe(no_mangle)]
pub extern "C" fn probe_write(r: &[u64; 34], out: &mut [u8]) -> u64
    ensures { (result ≡ written_number (written_stamp narrow (record_in r.now) out.old).answer)
        × (out.new ≡ (written_stamp narrow (record_in r.now) out.old).out) }
{
    written_code(packed::write(record_in(r), out))
}

// `bundles::entry`.
#[unsafe(no_mangle)]
pub extern "C" fn probe_entry(b: &[u8], k: usize, out: &mut [u64; 34]) -> u64
    ensures { (result ≡ done_number (read_entry narrow k b.now))
        × (out.new ≡ given_words (read_entry narrow k b.now)) }
{
    give(bundles::entry(b, k), out)
}

// `calls::keep`: how many bytes it gives back.
#[unsafe(no_mangle)]
pub extern "C" fn probe_keep<'a>(s: &'a [u8], t: &'a [u8]) -> u64
    ensures { result ≡ length (kept_bytes (side_of (packed_compare narrow s.now t.now)) s.now t.now) }
{
    let given = calls::keep(s, t);
    given.len() as u64
}

// `calls::keep`: the bytes it gives back, into out, so that C sees where they stand.
#[unsafe(no_mangle)]
pub extern "C" fn probe_kept<'a>(s: &'a [u8], t: &'a [u8], out: &mut &'a [u8])
    ensures { kept_is (side_of (packed_compare narrow s.now t.now)) s.entry t.entry out.new }
{
    *out = calls::keep(s, t);
}

// `stamps::is_lawful`.
#[unsafe(no_mangle)]
pub extern "C" fn probe_is_lawful(r: &[u64; 34]) -> bool
    ensures { result ≡ is_stored narrow (record_in r.now) }
{
    stamps::is_lawful(record_in(r))
}

// `stamps::update`.
#[unsafe(no_mangle)]
pub extern "C" fn probe_updated(r: &[u64; 34], out: &mut [u64; 34]) -> u64
    ensures { (result ≡ done_number (updated narrow (record_in r.now)))
        × (out.new ≡ given_words (updated narrow (record_in r.now))) }
{
    give(stamps::update(record_in(r)), out)
}

// `stamps::fork`.
#[unsafe(no_mangle)]
pub extern "C" fn probe_forked(r: &[u64; 34], zero: &mut [u64; 34], one: &mut [u64; 34]) -> u64
    ensures { (result ≡ done_number (forked narrow (record_in r.now)))
        × (zero.new ≡ zero_words (forked narrow (record_in r.now)))
        × (one.new ≡ one_words (forked narrow (record_in r.now))) }
{
    match stamps::fork(record_in(r)) {
        Ok(f) => {
            put_record(f.zero, zero);
            put_record(f.one, one);
            0
        }
        Err(e) => {
            put_record(stamps::blank(), zero);
            put_record(stamps::blank(), one);
            refusal_code(e)
        }
    }
}

// `joins::join`.
#[unsafe(no_mangle)]
pub extern "C" fn probe_joined(r: &[u64; 34], s: &[u64; 34], out: &mut [u64; 34]) -> u64
    ensures { (result ≡ done_number (joined narrow (record_in r.now) (record_in s.now)))
        × (out.new ≡ given_words (joined narrow (record_in r.now) (record_in s.now))) }
{
    give(joins::join(record_in(r), record_in(s)), out)
}

// `stamps::meet`.
#[unsafe(no_mangle)]
pub extern "C" fn probe_met(r: &[u64; 34], s: &[u64; 34]) -> u64
    ensures { result ≡ done_number (first (meeting narrow (record_in r.now) (record_in s.now) [])) }
{
    match stamps::meet(record_in(r), record_in(s)) {
        Ok(()) => 0,
        Err(e) => refusal_code(e),
    }
}

// `stamps::compare`.
#[unsafe(no_mangle)]
pub extern "C" fn probe_compared(r: &[u64; 34], s: &[u64; 34], out: &mut [u64; 4]) -> u64
    ensures { (result ≡ compared_number (compared narrow (record_in r.now) (record_in s.now)))
        × (out.new ≡ standing_words (standing narrow (record_in r.now) (record_in s.now))) }
{
    stood(stamps::compare(record_in(r), record_in(s)), out)
}

// `calls::compare`.
#[unsafe(no_mangle)]
pub extern "C" fn probe_stood(a: &[u8], b: &[u8], out: &mut [u64; 4]) -> u64
    ensures { (result ≡ compared_number (packed_compare narrow a.now b.now))
        × (out.new ≡ standing_words (packed_standing narrow a.now b.now)) }
{
    stood(calls::compare(a, b), out)
}

// Of the first and of the second the place and the word of its uncovered string into out, and the standing's number.
fn stood(s: Result<Standing, Refusal>, out: &mut [u64; 4]) -> u64
    ensures { (result ≡ compared_number (compared_of s)) × (out.new ≡ standing_words s) }
{
    let w = standing_words(s);
    *out = w;
    compared_code(s)
}

// The place and the word of the first's uncovered string, then of the second's; 0 and 0 where there is none.
fn standing_words(s: Result<Standing, Refusal>) -> [u64; 4]
    ensures { result ≡ standing_words s }
{
    match s {
        Ok(Standing::Obsolete(y)) => [0, 0, y.place as u64, y.word],
        Ok(Standing::Newer(x)) => [x.place as u64, x.word, 0, 0],
        Ok(Standing::Conflict(x, y)) => [x.place as u64, x.word, y.place as u64, y.word],
        _ => [0, 0, 0, 0],
    }
}

// A stamp's words into out, or zeros, and its answer's number.
fn give(g: Result<Record, Refusal>, out: &mut [u64; 34]) -> u64
    ensures { (result ≡ done_number g) × (out.new ≡ given_words g) }
{
    match g {
        Ok(r) => {
            put_record(r, out);
            0
        }
        Err(e) => {
            put_record(stamps::blank(), out);
            refusal_code(e)
        }
    }
}
