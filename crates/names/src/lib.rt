// Names of any content, as lent words and a count: the one stored shape.
#![tactic(auto)]

ghost use Rattle.std.specs.Prelude.{◌≡◌, ◌&&◌, length, take, drop, map, nat_eq, nat_le};
ghost use Rattle.rules.specs.Limits.{narrow};
ghost use Rattle.rules.specs.Strings.{str_of, is_word};
ghost use Rattle.rules.specs.Names.{all, rising};
ghost use Rattle.rules.specs.Stored.{is_stored_name};
ghost use Rattle.names.specs.Lent.{counted_is, counted_words, grown_in};

use rules::{Record, StampWords};
use strings::{is_word, precedes};

// A name has at most so many strings.
pub const STRINGS: usize = 16;

// The union of two names has at most so many strings.
pub const UNION: usize = 32;

// Whether so many strings in these words would be the record of a name: never in fewer or more words than a record has.
// stays: words and a count, since `stamps::is_lawful_in`, a public function, asks it of slices of any length with a count beside each.
pub fn is_name_in(words: &[u64], count: usize) -> bool
    ensures { result ≡ is_stored_name narrow (record { count = count; words = words.now }) }
{
    if words.len() != STRINGS || STRINGS < count {
        return false;
    }
    rises(&words[..count]) && is_zero_from(words, count)
}

// Whether the words from index c on are 0: no bit is set in any of them.
// stays: an index where the words begin, and a loop: `all` was tried, and misses the bar of the instructions before (34 more on 15 words).
pub fn is_zero_from(w: &[u64], c: usize) -> bool
    ensures { result ≡ all (nat_eq 0) (drop c w.now) }
{
    let mut bits = 0;
    for x in &w[c.min(w.len())..] {
        bits |= *x;
    }
    bits == 0
}

// Whether there is a word, each is that of a string, and each string comes before the next.
fn rises(w: &[u64]) -> bool
    ensures { result ≡ (nat_le 1 (length w.now) && all (is_word narrow.digits) w.now && rising (map str_of w.now)) }
{
    let [first, more @ ..] = w else {
        return false;
    };
    let mut prior = *first;
    if !is_word(prior) {
        return false;
    }
    for s in more {
        if !is_word(*s) || !precedes(prior, *s) {
            return false;
        }
        prior = *s;
    }
    true
}

// The words that are counted, in their place: all where there are no more.
// stays: words and a count: what callers may give, slices of any length.
pub fn counted(w: &[u64], c: usize) -> &[u64]
    ensures { counted_is c w.entry result }
{
    &w[..c.min(w.len())]
}

// The words that count of both names of a record, in their place.
pub fn lent(r: &Record) -> StampWords<'_>
    ensures { (result.update.now ≡ counted_words r.now.update) × (result.id.now ≡ counted_words r.now.id) }
{
    StampWords {
        update: counted(&r.update.words, r.update.count),
        id: counted(&r.id.words, r.id.count),
    }
}

// The words of an id with 0 appended to each string, and with 1, over the front of zero and of one: no more of them than a name has.
pub fn grow(id: &[u64], zero: &mut [u64; STRINGS], one: &mut [u64; STRINGS])
    ensures { (zero.new ≡ grown_in 0 (take narrow.strings id.now) zero.old)
        × (one.new ≡ grown_in 1 (take narrow.strings id.now) one.old) }
{
    for (k, s) in counted(id, STRINGS).iter().enumerate() {
        let t = s.wrapping_add(1);
        zero[k] = t;
        one[k] = t.wrapping_add(1 << (63 - s % 64));
    }
}
