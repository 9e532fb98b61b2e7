// Buffers that are enough for the table and the audit of any bundle.
#![tactic(auto)]

ghost use Rattle.std.specs.Prelude.{◌≡◌, length};
ghost use Rattle.words.specs.Refusals.{ok};
ghost use Rattle.words.specs.Buffers.{Wrote};
ghost use Rattle.bundles.specs.Bundles.{bundle_verdict, recording_of};
ghost use Rattle.bundles.specs.Readers.{first_layout};
ghost use Rattle.tables.specs.Tables.{recording_in};
ghost use Rattle.filling.specs.Filling.{table_after};
ghost use Rattle.resolution_rules.specs.Calls.{on_bundle};
ghost use Rattle.audit_rules.specs.Auditing as rules;
ghost use Rattle.audit.specs.Answers.{lines_answer, tally_answer};

use audit::Report;
use audit_lines::LINE_SIZE;
use bundles::SAMPLE_MOST;
use numbers::Refusal;

// Room for the lines of any bundle.
pub const LINES_SIZE: usize = LINE_SIZE * SAMPLE_MOST;

// The table of a bundle. It holds that of any bundle that is accepted.
pub fn fill(b: &[u8], t: &mut [u64; tables::TABLE_SIZE])
    ensures { (t.new ≡ table_after first_layout b.now t.old)
        × (bundle_verdict b.now ≡ ok tt → recording_in b.now t.new ≡ recording_of b.now) }
{
    let _ = filling::fill_table(b, t);
}

// The audit of any bundle: there is room for all lines, so it is never 29.
pub fn audit_whole(b: &[u8], lines: &mut [u8; LINES_SIZE]) -> Result<Report, Refusal>
    ensures { Wrote lines.old lines.new (lines_answer result) (on_bundle first_layout b.now (λ x. ok (rules.lines x)))
        × (tally_answer result ≡ rules.tally_call first_layout b.now (length lines.old)) }
{
    audit::audit(b, lines)
}
