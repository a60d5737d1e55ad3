// How long the strings of a name are, on lent words.
ghost use Rattle.std.specs.Prelude.{◌≡◌, map};
ghost use Rattle.rules.specs.Strings.{str_of};
ghost use Rattle.rules.specs.Room.{longest_of};

// The digits of the longest of these strings.
pub(crate) fn longest(id: &[u64]) -> u64
    ensures { result ≡ longest_of (map str_of id.now) }
{
    id.iter().map(|w| w % 64).max().unwrap_or(0)
}
