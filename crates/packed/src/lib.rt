// One packed stamp by value: read from bytes of any content, and written into a lent buffer.
#![tactic(auto)]

ghost use Rattle.std.specs.Prelude.{◌≡◌};
ghost use Rattle.rules.specs.Limits.{narrow};
ghost use Rattle.rules.specs.Packed.{read_stamp, written_stamp};

use names::lent;
use reading::read_in;
use rules::{Record, Refusal, Words};
use stamps::is_lawful;
use writing::write_from;

// The stamp that b packs: refused 1 where the layout does not read, 2 where the stamp is not lawful.
pub fn read(b: &[u8]) -> Result<Record, Refusal>
    ensures { result ≡ read_stamp narrow b.now }
{
    // stays: two runs of words, of which so many count: they become the records of the names, which are just that
    let mut u = [0; 16];
    let mut i = [0; 16];
    let counts = read_in(b, &mut u, &mut i)?;
    let update = Words {
        count: counts.update,
        words: u,
    };
    let id = Words {
        count: counts.id,
        words: i,
    };
    Ok(Record { update, id })
}

// The bytes of r at the front of out, and the rest kept: refused 2 where r is unlawful, 10 where out is too short; then nothing is written.
pub fn write(r: Record, out: &mut [u8]) -> Result<usize, Refusal>
    ensures { (result ≡ (written_stamp narrow r out.old).answer) × (out.new ≡ (written_stamp narrow r out.old).out) }
{
    if !is_lawful(r) {
        return Err(Refusal::Unlawful);
    }
    write_from(lent(&r), out)
}
