// The audit of a bundle.
ghost use Rattle.std.specs.Prelude.{length};
ghost use Rattle.bundles.specs.Readers.{first_layout};
ghost use Rattle.audit_rules.specs.Auditing.{audit_call, tally_call};
ghost use Rattle.puddockle.specs.Returns.{ReturnedOutput, ReturnedTally};

use crate::answer;

pub fn puddockle_audit(
    bundle: &[u8],
    lines: &mut [u8],
    place: &mut u64,
    count: &mut u64,
    passed: &mut u64,
    empty: &mut u64,
    refused: &mut u64,
) -> u32
    ensures { ReturnedOutput result place.new count.new lines.old lines.new
        (audit_call first_layout bundle.now (length lines.old))
        × ReturnedTally passed.new empty.new refused.new (tally_call first_layout bundle.now (length lines.old)) }
{
    *place = 0;
    *count = 0;
    *passed = 0;
    *empty = 0;
    *refused = 0;
    match audit::audit(bundle, lines) {
        Err(f) => answer::refused(f, place),
        Ok(report) => {
            let tally = report.tally;
            *count = report.count as u64;
            *passed = tally.passed;
            *empty = tally.empty;
            *refused = tally.refused;
            0
        }
    }
}
