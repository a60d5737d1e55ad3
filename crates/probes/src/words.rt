// A record as 34 words: of the update name and of the id a count and 16 words.
ghost use Rattle.std.specs.Prelude.{◌≡◌, ◌+◌, ◌≤◌, length};
ghost use Rattle.std.proofs.lemmas.List.Edits.{sets};
ghost use Rattle.std.proofs.Math.Seq.{slice};
ghost use Rattle.probes.specs.Handed.{record_in, record_words};

use rules::{Record, Words};

// The record that the words say.
pub(crate) fn record_in(words: &[u64; 34]) -> Record
    ensures { result ≡ record_in words.now }
{
    let mut u = [0; 16];
    let mut i = [0; 16];
    u.copy_from_slice(&words[1..17]);
    i.copy_from_slice(&words[18..34]);
    let update = Words {
        count: words[0] as usize,
        words: u,
    };
    let id = Words {
        count: words[17] as usize,
        words: i,
    };
    Record { update, id }
}

// The words of a record.
pub(crate) fn put_record(r: Record, out: &mut [u64; 34])
    ensures { out.new ≡ record_words r }
{
    out[0] = r.update.count as u64;
    out[1..17].copy_from_slice(&r.update.words);
    out[17] = r.id.count as u64;
    out[18..34].copy_from_slice(&r.id.words);
}
