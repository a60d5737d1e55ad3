// Union and reduction of names in rising order, as lent words: each function goes once over its words.
#![tactic(auto)]

ghost use Rattle.std.specs.Prelude.{◌≡◌, ◌≤◌, ◌<◌, ◌+◌, length, drop};
ghost use Rattle.rules.specs.Packed.{over};
ghost use Rattle.unions.specs.Unions.{stack, cleared, merge, push, reduced, seek, root, once_on, lifted, joined_counts, joined_update_in, joined_id_in};

use rules::{Counts, StampWords};
use strings::{are_siblings, begins};

// The join of two stamps: the union of both ids, reduced, at the front of `id`, and the union of both updates, lifted beside it, at the
// front of `update`; zeros in the place of what reduction takes away, and the rest of both buffers stays. Gives how many words each has.
// Each buffer has to have room for the words of both names. Where one has not, nothing is given, and both stay as they are.
pub fn join<'a>(
    a: StampWords<'a>,
    b: StampWords<'a>,
    update: &mut [u64],
    id: &mut [u64],
) -> Option<Counts>
    ensures { (result ≡ joined_counts a.entry.update.now a.entry.id.now b.entry.update.now b.entry.id.now update.old id.old)
        × (update.new ≡ joined_update_in a.entry.update.now a.entry.id.now b.entry.update.now b.entry.id.now update.old id.old)
        × (id.new ≡ joined_id_in a.entry.update.now a.entry.id.now b.entry.update.now b.entry.id.now update.old id.old) }
{
    if update.len() < a.update.len() + b.update.len() || id.len() < a.id.len() + b.id.len() {
        return None;
    }
    let both_ids = unite(a.id, b.id, id);
    let ids = reduce(&mut id[..both_ids]);
    let both_updates = unite(a.update, b.update, update);
    let updates = lift(&id[..ids], &mut update[..both_updates]);
    Some(Counts {
        update: updates,
        id: ids,
    })
}

// The union of m and n at the front of the buffer, the lower word first, and none that another begins with; the rest of the buffer stays. Gives how many
// words are written.
fn unite(m: &[u64], n: &[u64], out: &mut [u64]) -> usize
    requires { length m.now + length n.now ≤ length out.old }
    ensures { (result ≡ length (merge m.now n.now)) × (out.new ≡ over (merge m.now n.now) out.old) }
{
    let mut ours = m;
    let mut theirs = n;
    // stays: a count beside the buffer that it fills, as in `lines::gather`
    let mut count = 0;
    while let ([s, more @ ..], [t, others @ ..]) = (ours, theirs) {
        let (low, high) = if s < t {
            ours = more;
            (*s, *t)
        } else {
            theirs = others;
            (*t, *s)
        };
        if !begins(low, high) {
            out[count] = low;
            count += 1;
        }
    }
    // Counted from the name's end: the compiler then sees that it lies apart from the buffer, and an archive needs no memmove.
    let rest = if ours.is_empty() {
        &n[n.len() - theirs.len()..]
    } else {
        &m[m.len() - ours.len()..]
    };
    let end = count + rest.len();
    out[count..end].copy_from_slice(rest);
    end
}

// The words as reduction leaves an id, and zeros in the place of those that are gone. Gives how many are left.
fn reduce(id: &mut [u64]) -> usize
    ensures { (result ≡ length (reduced id.old)) × (id.new ≡ cleared (length id.old) (reduced id.old)) }
{
    let mut count = 0;
    // stays: an index is no plainer otherwise: words are stored at the front of those that are read, so no iterator may hold them
    for i in 0..id.len() {
        let s = id[i];
        count = push(id, count, s);
    }
    id[count..].fill(0);
    count
}

// The words of an update as reduction leaves them beside the reduced id, and zeros in the place of those that are gone. Gives how many are left.
fn lift(id: &[u64], update: &mut [u64]) -> usize
    ensures { (result ≡ length (lifted id.now update.old)) × (update.new ≡ cleared (length update.old) (lifted id.now update.old)) }
{
    let mut rest = id;
    let mut count = 0;
    // stays: an index, as in `reduce`
    for i in 0..update.len() {
        let r = update[i];
        rest = seek(rest, r);
        count = push_once(update, count, root(rest, r));
    }
    update[count..].fill(0);
    count
}

// The id's words without those at the front that come before r and are no prefix of it.
fn seek(id: &[u64], r: u64) -> &[u64]
    ensures { result.now ≡ seek id.now r }
{
    let mut rest = id;
    while let [t, more @ ..] = rest {
        if *t >= r || begins(*t, r) {
            break;
        }
        rest = more;
    }
    rest
}

// The first of the id's words where it is below r; else r.
fn root(id: &[u64], r: u64) -> u64
    ensures { result ≡ root id.now r }
{
    match id {
        [t, ..] if *t < r => *t,
        _ => r,
    }
}

// The word s on the stack of the first words: while the last of them is its sibling, both give way to what they share. Gives how many there are then.
// stays: words and a count, here and below: tried, and a struct of both is no plainer: `reduce` and `lift` build it, take it apart, and show its buffer the same
fn push(words: &mut [u64], count: usize, s: u64) -> usize
    requires { count < length words.old }
    ensures { (result ≤ count + 1) × (stack words.new result ≡ push s (stack words.old count))
        × (drop (count + 1) words.new ≡ drop (count + 1) words.old) }
{
    let mut x = s;
    let mut below = &words[..count];
    while let [under @ .., t] = below {
        if !are_siblings(*t, x) {
            break;
        }
        x = *t - 1;
        below = under;
    }
    let top = below.len();
    words[top] = x;
    top + 1
}

// The word x on the stack of the first words, unless it is the last of them. Gives how many there are then.
fn push_once(words: &mut [u64], count: usize, x: u64) -> usize
    requires { count < length words.old }
    ensures { (result ≤ count + 1) × (stack words.new result ≡ once_on x (stack words.old count))
        × (drop (count + 1) words.new ≡ drop (count + 1) words.old) }
{
    if words[..count].last() == Some(&x) {
        return count;
    }
    words[count] = x;
    count + 1
}
