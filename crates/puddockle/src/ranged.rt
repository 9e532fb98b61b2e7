// A range of samples in one call.
ghost use Rattle.std.specs.Prelude.{[], ◌∷◌, length};
ghost use Rattle.bundles.specs.Readers.{first_layout};
ghost use Rattle.range_rules.specs.Ranges.{range_call};
ghost use Rattle.puddockle.specs.Returns.{ReturnedOutputs};

use crate::answer;
use numbers::SampleNumber;

pub fn puddockle_range(
    bundle: &[u8],
    first: u64,
    last: u64,
    out: &mut [u8],
    lines: &mut [u8],
    place: &mut u64,
    count: &mut u64,
    lines_count: &mut u64,
) -> u32
    ensures { ReturnedOutputs result place.new (count.new ∷ lines_count.new ∷ [])
        (out.old ∷ lines.old ∷ []) (out.new ∷ lines.new ∷ [])
        (range_call first_layout bundle.now first last (length out.old) (length lines.old)) }
{
    *place = 0;
    *count = 0;
    *lines_count = 0;
    let ranged = range::range(
        bundle,
        SampleNumber(first as usize),
        SampleNumber(last as usize),
        out,
        lines,
    );
    match ranged {
        Err(f) => answer::refused(f, place),
        Ok(c) => {
            *count = c.output as u64;
            *lines_count = c.lines as u64;
            0
        }
    }
}
