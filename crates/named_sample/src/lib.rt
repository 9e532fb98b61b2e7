// Which sample the extractor at a place of a sample names.
#![tactic(auto)]

ghost use Rattle.std.specs.Prelude.{◌≡◌};
ghost use Rattle.words.specs.Refusals.{ok};
ghost use Rattle.units.specs.Units.{sample};
ghost use Rattle.samples.specs.Check.{check};
ghost use Rattle.bundles.specs.Readers.{first_layout};
ghost use Rattle.tables.specs.Tables.{layout_in, recording_in};
ghost use Rattle.resolution_rules.specs.Calls.{named_in, named_call};
ghost use Rattle.named_sample.specs.Answers.{named_answer_of, extractor_in, name_with};

use numbers::{ByteOffset, Fault, Refusal, SampleNumber};
use unit_steps::Item;
use units::{Extractor, Track};

// The fields of the extractor at a place of a well-formed sample; nothing where none stands there. The walk over its units, included ones
// too, ends where it has reached or passed the place.
fn extractor_in(k: Track, x: &[u8], at: ByteOffset) -> Option<Extractor>
    requires { check (sample k x.now) ≡ ok tt }
    ensures { result ≡ extractor_in (sample k x.now) at.0 }
{
    if x.len() <= at.0 {
        return None;
    }
    let mut p: usize = 0;
    while p < at.0 {
        match unit_steps::item_at(k, x, ByteOffset(p)) {
            // does not come: the sample is well formed
            Item::Nothing => {
                return None;
            }
            Item::Aggregator(included) => {
                p = included.0;
            }
            Item::Extractor(next) => {
                p = next.0;
            }
            Item::Unit(u) => {
                p = u.next.0;
            }
        }
    }
    if p != at.0 {
        return None;
    }
    unit_steps::extractor_at(k, x, at, ByteOffset(x.len()))
}

// The sample that an extractor at a place of sample n names, by its fields: 23, 24 there, or the sample.
fn name_with(
    t: &[u64],
    n: SampleNumber,
    at: ByteOffset,
    f: Extractor,
) -> Result<SampleNumber, Refusal>
    ensures { named_answer_of result ≡ name_with (layout_in t.now) n.0 at.0 f }
{
    let named = links::name(t, n, f.track_ref_index, f.sample_offset);
    numbers::at_place(named, at.0)
}

// The sample that the extractor at a place of sample n names, by any table: 30, 14 to 22 of the sample, 30 where no extractor stands there,
// 23, 24.
fn name_at(b: &[u8], t: &[u64], n: SampleNumber, at: ByteOffset) -> Result<SampleNumber, Refusal>
    ensures { named_answer_of result ≡ named_in (recording_in b.now t.now) n.0 at.0 }
{
    judging::check_number(sample_tables::sample_count(t), n.0)?;
    let k = delivery::track_of(t, n);
    let x = sample_tables::sample_bytes(b, t, n);
    samples::check_sample(k, x)?;
    let f = extractor_in(k, x, at).ok_or(Refusal::at(Fault::NoSuchNumber, 0))?;
    name_with(t, n, at, f)
}

// The sample that the extractor at a place of a sample names: 1 to 13, 30, 14 to 22 of the sample, 30 where no extractor stands there,
// 23, 24.
pub fn named_sample(b: &[u8], n: SampleNumber, at: ByteOffset) -> Result<SampleNumber, Refusal>
    ensures { named_answer_of result ≡ named_call first_layout b.now n.0 at.0 }
{
    let mut t = [0u64; tables::TABLE_SIZE];
    filling::fill_table(b, &mut t)?;
    name_at(b, &t, n, at)
}
