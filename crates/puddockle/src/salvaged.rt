// What is whole of a damaged sample.
ghost use Rattle.std.specs.Prelude.{[], ◌∷◌, length};
ghost use Rattle.bundles.specs.Readers.{first_layout};
ghost use Rattle.salvage_rules.specs.Calls.{salvage_alone, salvage_call};
ghost use Rattle.puddockle.specs.Returns.{ReturnedOutputs};

use crate::answer;
use numbers::SampleNumber;

pub fn puddockle_salvage(
    bundle: &[u8],
    sample: u64,
    out: &mut [u8],
    changes: &mut [u8],
    names: &mut [u8],
    place: &mut u64,
    count: &mut u64,
    changes_count: &mut u64,
    names_count: &mut u64,
) -> u32
    ensures { ReturnedOutputs result place.new (count.new ∷ changes_count.new ∷ names_count.new ∷ [])
        (out.old ∷ changes.old ∷ names.old ∷ []) (out.new ∷ changes.new ∷ names.new ∷ [])
        (salvage_call first_layout bundle.now sample (length out.old) (length changes.old) (length names.old)) }
{
    *place = 0;
    *count = 0;
    *changes_count = 0;
    *names_count = 0;
    match salvage::salvage(bundle, SampleNumber(sample as usize), out, changes, names) {
        Err(f) => answer::refused(f, place),
        Ok(c) => {
            *count = c.sample as u64;
            *changes_count = c.changes as u64;
            *names_count = c.names as u64;
            0
        }
    }
}

pub fn puddockle_salvage_sample(
    kind: u32,
    length_size: u32,
    sample: &[u8],
    out: &mut [u8],
    changes: &mut [u8],
    place: &mut u64,
    count: &mut u64,
    changes_count: &mut u64,
) -> u32
    ensures { ReturnedOutputs result place.new (count.new ∷ changes_count.new ∷ [])
        (out.old ∷ changes.old ∷ []) (out.new ∷ changes.new ∷ [])
        (salvage_alone kind length_size sample.now (length out.old) (length changes.old)) }
{
    *place = 0;
    *count = 0;
    *changes_count = 0;
    match salvage::salvage_sample(kind, length_size, sample, out, changes) {
        Err(f) => answer::refused(f, place),
        Ok(c) => {
            *count = c.sample as u64;
            *changes_count = c.changes as u64;
            0
        }
    }
}
