// Samples first to last of a bundle in one call: resolved into one buffer, with a line of the audit for each.
#![tactic(auto)]

ghost use Rattle.std.specs.Prelude.{◌≡◌, [], ◌∷◌, ◌≤◌, length};
ghost use Rattle.words.specs.Refusals.{refused};
ghost use Rattle.words.specs.Buffers.{within_all, WroteAll};
ghost use Rattle.bundles.specs.Limits.{bundle_most};
ghost use Rattle.bundles.specs.Readers.{first_layout};
ghost use Rattle.tables.specs.Tables.{table_most, recording_in};
ghost use Rattle.range_rules.specs.Ranges.{range, range_call};
ghost use Rattle.range.specs.Answers.{counts_of};

use audit_lines::LINE_SIZE;
use numbers::{Fault, Refusal, SampleNumber};

// How many bytes of the joined output and of the lines are written.
#[derive(Clone, Copy)]
pub struct Counts {
    pub output: usize,
    pub lines: usize,
}

// Samples first to last of an accepted bundle by its table: 30, 29 if either buffer lacks room, or both outputs. The room for the lines is
// judged first; then the samples are judged, each once, and by their sizes the room for the output, before a byte is written. The lines are
// written by the judgements that the table keeps.
fn range_accepted(
    b: &[u8],
    t: &mut [u64],
    first: SampleNumber,
    last: SampleNumber,
    out: &mut [u8],
    lines: &mut [u8],
) -> Result<Counts, Refusal>
    requires { (length b.now ≤ bundle_most) × (table_most ≤ length t.old) }
    ensures { WroteAll (out.old ∷ lines.old ∷ []) (out.new ∷ lines.new ∷ []) (counts_of result)
        (within_all (length out.old ∷ length lines.old ∷ [])
        (range (recording_in b.now t.old) first.0 last.0)) }
{
    judging::check_range(sample_tables::sample_count(t), first, last)?;
    let skipped = first.0 - 1;
    let size = LINE_SIZE * (last.0 - skipped);
    if lines.len() < size {
        return Err(Refusal::at(Fault::OutputTooLong, 0));
    }
    let count = resolution::resolve_range(b, t, first, last, out)?;
    audit::write_lines(t, skipped, last, lines);
    Ok(Counts {
        output: count,
        lines: size,
    })
}

// Samples first to last of a bundle: 1 to 13, 30, then 29 if either buffer lacks room; or what resolving gives for each, joined, and their
// lines of the audit, each over the start of its buffer, and how many bytes these are. After a refusal both are as they were.
pub fn range(
    b: &[u8],
    first: SampleNumber,
    last: SampleNumber,
    out: &mut [u8],
    lines: &mut [u8],
) -> Result<Counts, Refusal>
    ensures { WroteAll (out.old ∷ lines.old ∷ []) (out.new ∷ lines.new ∷ []) (counts_of result)
        (range_call first_layout b.now first.0 last.0 (length out.old) (length lines.old)) }
{
    let mut t = [0u64; tables::TABLE_SIZE];
    filling::fill_table(b, &mut t)?;
    range_accepted(b, &mut t, first, last, out, lines)
}
