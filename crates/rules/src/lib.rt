// The records, the refusals and the answers that the rules speak of. What they mean stands in specs/.
#![tactic(auto)]

ghost use Rattle.std.specs.Prelude.{◌≡◌};
ghost use Rattle.rules.specs.Refusals.{number, verdict_number};
ghost use Rattle.rules.specs.Values.{verdict_of};
ghost use Rattle.rules.specs.Tables.{spare_number};

// A name as it is stored: how many strings, and each of them in a word; the words behind them are 0.
// A word has a string's digits from the top down, and its length in the six low bits.
// stays: a count beside its words, in fixed memory: C lends runs of these, and a record of any content has an answer (`is_stored`).
#[repr(C)]
#[derive(Clone, Copy)]
pub struct Words {
    pub count: usize,
    pub words: [u64; 16],
}

// A copy record: a stamp's update name and id name. All zeros where there is no copy. Its layout is that of C, so that C can lend a run.
#[repr(C)]
#[derive(Clone, Copy)]
pub struct Record {
    pub update: Words,
    pub id: Words,
}

// The words that count of a stamp's update name and of its id, where they stand.
#[derive(Clone, Copy)]
pub struct StampWords<'a> {
    pub update: &'a [u64],
    pub id: &'a [u64],
}

// How many words count of an update and of an id that stand at the front of two buffers.
#[derive(Clone, Copy)]
pub struct Counts {
    pub update: usize,
    pub id: usize,
}

// Why a call is refused, under the numbers of `number` in specs/Refusals.antt.
#[derive(Clone, Copy)]
pub enum Refusal {
    // these bytes are no packed stamp, or no bundle's entry
    Malformed = 1,
    // not the stored shape of a lawful stamp
    Unlawful = 2,
    // no such slot, or no copy in it
    NoSlot = 3,
    // one slot named twice
    OneSlot = 4,
    // no slot is absent
    Full = 5,
    // an id string can grow no longer
    Long = 6,
    // the reduced id has too many strings
    Many = 7,
    // two ids that are not apart
    Overlap = 8,
    // an update that the other's id would know, and its update does not
    Unseen = 9,
    // an output buffer is too short
    Short = 10,
    // an unreadable trace line
    Unread = 11,
    // a table of no allowed size, or an unlawful stamp in it
    Unfit = 12,
    // the bundle ends before this entry
    Ended = 13,
}

// The number that the rules give a refusal.
impl From<Refusal> for u64 {
    fn from(r: Refusal) -> u64
        ensures { result ≡ number r }
    {
        r as u64
    }
}

// How the first of two copies stands to the second, under the numbers of `verdict_number`.
#[derive(Clone, Copy)]
pub enum Verdict {
    Equal = 0,
    Obsolete = 1,
    Newer = 2,
    Conflict = 3,
}

// The number that the rules give a verdict.
impl From<Verdict> for u64 {
    fn from(v: Verdict) -> u64
        ensures { result ≡ verdict_number v }
    {
        v as u64
    }
}

// The first string of a copy's update name, in rising order, that no string of the other's extends: its place, from 0, and its word.
#[derive(Clone, Copy)]
pub struct Uncovered {
    pub place: usize,
    pub word: u64,
}

// How the first of two copies stands to the second, with the uncovered string of each that has one: obsolete the second's, newer the first's.
#[derive(Clone, Copy)]
pub enum Standing {
    Equal,
    Obsolete(Uncovered),
    Newer(Uncovered),
    Conflict(Uncovered, Uncovered),
}

// A standing without its strings.
impl From<Standing> for Verdict {
    fn from(s: Standing) -> Verdict
        ensures { result ≡ verdict_of s }
    {
        match s {
            Standing::Equal => Verdict::Equal,
            Standing::Obsolete(_) => Verdict::Obsolete,
            Standing::Newer(_) => Verdict::Newer,
            Standing::Conflict(_, _) => Verdict::Conflict,
        }
    }
}

// How much of the limits a stamp takes up: how many strings its id has, and the digits of the longest of them.
#[derive(Clone, Copy)]
pub struct Room {
    pub strings: usize,
    pub digits: u64,
}

// The two copies that a fork makes of one.
#[derive(Clone, Copy)]
pub struct Branches {
    pub zero: Record,
    pub one: Record,
}

// Whether a copy may go, under the numbers of `spare_number`.
#[derive(Clone, Copy)]
pub enum Spared {
    Kept = 0,
    Spare = 1,
}

// The number that the rules give the answer whether a copy may go.
impl From<Spared> for u64 {
    fn from(s: Spared) -> u64
        ensures { result ≡ spare_number s }
    {
        s as u64
    }
}
