// Where in the bundle all units stand that a sample delivers.
#![tactic(auto)]

mod writing;

ghost use Rattle.std.specs.Prelude.{length};
ghost use Rattle.words.specs.Buffers.{Wrote};
ghost use Rattle.numbers.specs.Answers.{answer_of};
ghost use Rattle.bundles.specs.Readers.{first_layout};
ghost use Rattle.resolution_rules.specs.Calls.{parts_call};

use numbers::{Refusal, SampleNumber};

// Where the units that a sample delivers stand in the bundle: 1 to 13, 30, 14 to 28, 29; or start and size of each, two numbers a unit,
// over the start of the lent numbers, and how many numbers that is. After a refusal they are as they were.
pub fn unit_parts(b: &[u8], n: SampleNumber, out: &mut [u64]) -> Result<usize, Refusal>
    ensures { Wrote out.old out.new (answer_of result) (parts_call first_layout b.now n.0 (length out.old)) }
{
    let mut t = [0u64; tables::TABLE_SIZE];
    filling::fill_table(b, &mut t)?;
    writing::place_units(b, &t, n, out)
}
