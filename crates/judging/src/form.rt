// The form of a sample, by its number, a bundle and any table beside it.
ghost use Rattle.std.specs.Prelude.{◌≡◌};
ghost use Rattle.samples.specs.Check.{answer_of};
ghost use Rattle.judging.specs.Steps.{form_in};

use crate::check_number;
use numbers::{Fault, Refusal, SampleNumber};

// 30 for the number, 14 to 22 of sample n, or none of them. A bundle too long is refused first.
pub fn check_form(b: &[u8], t: &[u64], n: SampleNumber) -> Result<(), Refusal>
    ensures { answer_of result ≡ form_in b.now t.now n.0 }
{
    if bundles::BUNDLE_MOST < b.len() {
        return Err(Refusal::at(Fault::BundleTooLong, 0));
    }
    check_number(sample_tables::sample_count(t), n.0)?;
    samples::check_sample(
        delivery::track_of(t, n),
        sample_tables::sample_bytes(b, t, n),
    )
}
