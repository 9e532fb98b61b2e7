// Samples resolved to plain NAL units: each after its length, or as a byte stream; several one after the other.
#![tactic(auto)]

mod joining;
mod streaming;
mod writing;

ghost use Rattle.std.specs.Prelude.{◌≡◌, length};
ghost use Rattle.words.specs.Buffers.{within, Wrote};
ghost use Rattle.numbers.specs.Answers.{answer_of};
ghost use Rattle.bundles.specs.Readers.{first_layout};
ghost use Rattle.resolution_rules.specs.Calls.{resolve_call, stream_call};
ghost use Rattle.verdicts.specs.Kept.{with_range};
ghost use Rattle.resolution.specs.Ranges.{resolve_range_in};

use numbers::{Fault, Refusal, SampleNumber};

// A sample resolved: 1 to 13, 30, 14 to 28, 29; or each delivered unit after a 4-byte length, over the start of the buffer, and how many
// bytes that is. After a refusal the buffer is as it was.
pub fn resolve(b: &[u8], n: SampleNumber, out: &mut [u8]) -> Result<usize, Refusal>
    ensures { Wrote out.old out.new (answer_of result) (resolve_call first_layout b.now n.0 (length out.old)) }
{
    let mut t = [0u64; tables::TABLE_SIZE];
    filling::fill_table(b, &mut t)?;
    writing::resolve_sample(b, &t, n, out)
}

// A sample as a byte stream: 1 to 13, 30, 14 to 28, 32, 29; or each delivered unit after 00 00 00 01, over the start of the buffer, and how
// many bytes that is. After a refusal the buffer is as it was.
pub fn stream(b: &[u8], n: SampleNumber, out: &mut [u8]) -> Result<usize, Refusal>
    ensures { Wrote out.old out.new (answer_of result) (stream_call first_layout b.now n.0 (length out.old)) }
{
    let mut t = [0u64; tables::TABLE_SIZE];
    filling::fill_table(b, &mut t)?;
    streaming::stream_sample(b, &t, n, out)
}

// Samples first to last resolved one after the other, by a bundle and any table beside it: 30, 29; or what they give, joined over the start of
// the buffer, and how many bytes that is. A refused sample gives nothing. Their judgements are kept in the table then, also where it is 29. A
// bundle too long, or a table too short for any bundle, is refused first. After a refusal the buffer is as it was, and after any but 29 the
// table.
pub fn resolve_range(
    b: &[u8],
    t: &mut [u64],
    first: SampleNumber,
    last: SampleNumber,
    out: &mut [u8],
) -> Result<usize, Refusal>
    ensures { Wrote out.old out.new (answer_of result) (within (length out.old) (resolve_range_in b.now t.old first.0 last.0))
        × (t.new ≡ with_range b.now t.old first.0 last.0) }
{
    let size = verdicts::judge_range(b, t, first, last)?;
    if out.len() < size {
        return Err(Refusal::at(Fault::OutputTooLong, 0));
    }
    joining::write_samples(out, b, t, first.0, last.0);
    Ok(size)
}
