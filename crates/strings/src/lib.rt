// Strings, each in a word: its digits from the top down, its length in the six low bits.
#![tactic(auto)]

ghost use Rattle.std.specs.Prelude.{◌≡◌};
ghost use Rattle.rules.specs.Limits.{narrow};
ghost use Rattle.rules.specs.Strings.{common, field, siblings, str_of, is_word};
ghost use Rattle.strings.specs.Words.{begins, precedes};

// A string has at most so many digits.
pub const DIGITS: u64 = 24;

// How many leading digits of their 64 two words share.
pub fn shared(a: u64, b: u64) -> u32
    ensures { result ≡ common (field 64 a) (field 64 b) }
{
    (a ^ b).leading_zeros()
}

// Whether t begins with the digits of s: where the words stand in order, s at or before t, its string is then a prefix of that of t.
pub fn begins(s: u64, t: u64) -> bool
    ensures { result ≡ begins s t }
{
    let digits = (s % 64) as u32;
    digits <= shared(s, t)
}

// Whether s is the lower word, and t does not begin with its digits: of the words of strings, whether s comes before t and is no prefix of it.
pub fn precedes(s: u64, t: u64) -> bool
    ensures { result ≡ precedes s t }
{
    s < t && !begins(s, t)
}

// Whether the two strings differ in the last digit only.
pub fn are_siblings(a: u64, b: u64) -> bool
    ensures { result ≡ siblings (str_of a) (str_of b) }
{
    let m = (a % 64) as u32;
    let n = (b % 64) as u32;
    m == n && shared(a, b) + 1 == m
}

// Whether w is the word of a string within the limit: nothing stands behind the digits but the length.
pub fn is_word(w: u64) -> bool
    ensures { result ≡ is_word narrow.digits w }
{
    let length = w % 64;
    length <= DIGITS && (w - length) << length == 0
}
