// What an answer's number prints: a page is the front of a lent buffer, and each of its functions writes one text more on it.
ghost use Rattle.std.specs.Prelude.{◌≡◌, ◌+◌, ◌%◌, ◌≤◌, [], ◌∷◌, length};
ghost use Rattle.rules.specs.Strings.{str_of};
ghost use Rattle.rules.specs.Traces.{digits_text, conflict_text};
ghost use Rattle.printing.specs.Answers.{longest, answer_text, slot_answer, compared_answer, spared_answer, refused_number, number_text};
ghost use Rattle.printing.specs.Inner.{Writes};

use lines::{COMPARE, CONFLICT, Command, FORK, JOIN, SPARE, UPDATE};
use rules::Refusal;

// From here on a number is a refusal.
// stays: a number, as in `Page::slot`.
const REFUSED: usize = 1000;

// What has been written of a buffer: `len` bytes at its front.
// stays: the room that is left stands in each clause: the longest answer asks for 137 bytes, a refusal for 11, a number for 3, the rest for their own.
// stays: the words are byte strings, not formatted text, by a rule of the project: its forms name `print` for them (docs/DECISIONS.md).
#[derive(Drop)]
pub(crate) struct Page<'a> {
    pub(crate) out: &'a mut [u8],
    pub(crate) len: usize,
}

impl Page<'_> {
    // The answer to a command with this letter: `a` is its number, but of a conflict `a` and `b` are the words of two strings.
    // stays: the letter is a number, since `print` answers every number (`answer_text`).
    #[tactic(auto, unfolding(crate::specs::Answers::answer_text))]
    pub(crate) fn answer(&mut self, c: Command)
        requires { self.old.len + longest ≤ length self.old.out.now }
        ensures { Writes self.old (answer_text c) self.new }
    {
        match c.op {
            UPDATE | FORK | JOIN => self.slot(c.a),
            COMPARE => self.compared(c.a),
            SPARE => self.spared(c.a),
            CONFLICT => self.conflict(c.a as u64, c.b as u64),
            _ => self.refused(u64::from(Refusal::Unread) as usize),
        }
    }

    // The answer to an update, a fork or a join.
    // stays: a number, not a slot or a refusal, since `print` answers every number (`slot_answer`).
    #[tactic(auto, using(crate::proofs::Stores::then), unfolding(crate::specs::Answers::slot_answer, crate::specs::Answers::ok_number))]
    fn slot(&mut self, code: usize)
        requires { self.old.len + 11 ≤ length self.old.out.now }
        ensures { Writes self.old (slot_answer code) self.new }
    {
        if code >= REFUSED {
            return self.refused(code);
        }
        self.word(b"ok ");
        self.number(code);
    }

    // The answer to a comparison.
    // stays: a verdict's number, not a verdict, since `print` answers every number (`compared_answer`).
    #[tactic(auto, unfolding(crate::specs::Answers::compared_answer, rules::specs::Traces::verdict_text))]
    fn compared(&mut self, code: usize)
        requires { self.old.len + 11 ≤ length self.old.out.now }
        ensures { Writes self.old (compared_answer code) self.new }
    {
        match code {
            0 => self.word(b"equal\n"),
            1 => self.word(b"obsolete\n"),
            2 => self.word(b"newer\n"),
            _ => self.refused(code),
        }
    }

    // Whether a copy may go.
    // stays: a number, not a `Spared`, since `print` answers every number (`spared_answer`).
    #[tactic(auto, unfolding(crate::specs::Answers::spared_answer))]
    fn spared(&mut self, code: usize)
        requires { self.old.len + 11 ≤ length self.old.out.now }
        ensures { Writes self.old (spared_answer code) self.new }
    {
        match code {
            0 => self.word(b"kept\n"),
            1 => self.word(b"spare\n"),
            _ => self.refused(code),
        }
    }

    // A conflict: the word, then the strings that the words say.
    #[tactic(auto, using(crate::proofs::Digits::digits_count))]
    fn conflict(&mut self, a: u64, b: u64)
        requires { self.old.len + longest ≤ length self.old.out.now }
        ensures { Writes self.old (conflict_text (str_of a) (str_of b)) self.new }
    {
        self.word(b"conflict ");
        self.digits(a);
        self.word(b" ");
        self.digits(b);
        self.word(b"\n");
    }

    // The digits of the string that a word says.
    fn digits(&mut self, word: u64)
        requires { self.old.len + word % 64 ≤ length self.old.out.now }
        ensures { Writes self.old (digits_text (str_of word)) self.new }
    {
        let mut rest = word;
        for _i in 0..word % 64 {
            self.byte(b'0' + (rest >> 63) as u8);
            rest <<= 1;
        }
    }

    // A refusal, whose number stands in the two last digits.
    // stays: a number, not a refusal, as in `slot`.
    #[tactic(auto, using(crate::proofs::Stores::then), unfolding(crate::specs::Answers::refused_number))]
    fn refused(&mut self, code: usize)
        requires { self.old.len + 11 ≤ length self.old.out.now }
        ensures { Writes self.old (refused_number code) self.new }
    {
        self.word(b"refused ");
        self.number(code);
    }

    // The two last digits of a number, without a leading zero, and a newline.
    // stays: digits by hand, since of the text that `fmt` makes a proof knows nothing.
    fn number(&mut self, n: usize)
        requires { self.old.len + 3 ≤ length self.old.out.now }
        ensures { Writes self.old (number_text n) self.new }
    {
        let last = (n % 100) as u8;
        if last >= 10 {
            self.byte(b'0' + last / 10);
        }
        self.byte(b'0' + last % 10);
        self.byte(b'\n');
    }

    // A word.
    fn word(&mut self, word: &[u8])
        requires { self.old.len + length word.now ≤ length self.old.out.now }
        ensures { Writes self.old word.now self.new }
    {
        let end = self.len + word.len();
        self.out[self.len..end].copy_from_slice(word);
        self.len = end;
    }

    // One byte.
    fn byte(&mut self, x: u8)
        requires { self.old.len + 1 ≤ length self.old.out.now }
        ensures { Writes self.old (x ∷ []) self.new }
    {
        self.out[self.len] = x;
        self.len += 1;
    }
}
