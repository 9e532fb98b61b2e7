// What samples give one after the other, by a bundle and any table beside it, in which their judgements are kept.
ghost use Rattle.std.specs.Prelude.{◌≡◌, ◌+◌, ◌≤◌, ◌<◌, length};
ghost use Rattle.words.specs.Buffers.{write_at, overwrite};
ghost use Rattle.bundles.specs.Recordings.{sample_count};
ghost use Rattle.tables.specs.Tables.{recording_in, kept_count_in};
ghost use Rattle.resolution_rules.specs.Calls.{resolve};
ghost use Rattle.resolution_rules.specs.Ranges.{between, given, joined};
ghost use Rattle.judging.specs.Steps.{judgement};
ghost use Rattle.verdicts.specs.Kept.{judgement_word, JudgedBetween};

use crate::writing::{Framing, write_units_from};
use numbers::SampleNumber;

// What sample n gives, by the judgement kept beside it, over a buffer that has room, from a place on; the place after it. A refused sample
// gives nothing.
fn write_sample(out: &mut [u8], from: usize, b: &[u8], t: &[u64], n: SampleNumber) -> usize
    requires { (kept_count_in t.now n.0 ≡ judgement_word (judgement (recording_in b.now t.now) n.0))
        × (0 < n.0) × (n.0 ≤ sample_count (recording_in b.now t.now).layout)
        × (from + length (given (resolve (recording_in b.now t.now) n.0)) ≤ length out.old) }
    ensures { (result ≡ from + length (given (resolve (recording_in b.now t.now) n.0)))
        × (out.new ≡ write_at out.old from (given (resolve (recording_in b.now t.now) n.0))) }
{
    match verdicts::kept_verdict(t, n) {
        Err(_) => from,
        Ok(_) => {
            let k = delivery::track_of(t, n);
            let x = sample_tables::sample_bytes(b, t, n);
            write_units_from(out, from, b, t, Framing::Lengths, n, k, x)
        }
    }
}

// What samples first to last give, one after the other, over the start of a buffer that has room.
pub(crate) fn write_samples(out: &mut [u8], b: &[u8], t: &[u64], first: usize, last: usize)
    requires { JudgedBetween b.now t.now first last × (0 < first) × (first ≤ last) × (last ≤ sample_count (recording_in b.now t.now).layout)
        × (length (joined (recording_in b.now t.now) (between first last)) ≤ length out.old) }
    ensures { out.new ≡ overwrite out.old (joined (recording_in b.now t.now) (between first last)) }
{
    let mut at = 0;
    for n in first - 1..last {
        at = write_sample(out, at, b, t, SampleNumber(n + 1));
    }
}
