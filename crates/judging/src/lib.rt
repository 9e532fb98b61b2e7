// What is judged of a sample by a bundle and any table beside it: 30, 14 to 28, or how much it delivers. Here are its number, 30, the two
// numbers of a range, and its form, up to 22; the crate verdicts has the rest.
#![tactic(auto)]

pub mod form;

ghost use Rattle.std.specs.Prelude.{◌≡◌};
ghost use Rattle.words.specs.Refusals.{◌at_place◌};
ghost use Rattle.samples.specs.Check.{answer_of};
ghost use Rattle.resolution_rules.specs.Calls.{number_fault};
ghost use Rattle.resolution_rules.specs.Ranges.{range_fault};

use numbers::{Fault, Refusal, SampleNumber};

// How many units a sample delivers, and how many bytes they have: of its own, and copied by its extractors.
#[derive(Clone, Copy)]
pub struct Amount {
    pub count: usize,
    pub own_bytes: usize,
    pub copied_bytes: usize,
}

// 30 at 0: a number 0 or past the last.
pub fn check_number(count: usize, n: usize) -> Result<(), Refusal>
    ensures { answer_of result ≡ (number_fault count n at_place 0) }
{
    if n == 0 || count < n {
        return Err(Refusal::at(Fault::NoSuchNumber, 0));
    }
    Ok(())
}

// 30 at 0: first is 0, last is past the last sample, of which there are count, or first exceeds last.
pub fn check_range(count: usize, first: SampleNumber, last: SampleNumber) -> Result<(), Refusal>
    ensures { answer_of result ≡ (range_fault count first.0 last.0 at_place 0) }
{
    if first.0 == 0 || count < last.0 || last.0 < first.0 {
        return Err(Refusal::at(Fault::NoSuchNumber, 0));
    }
    Ok(())
}
