// What is whole of a damaged sample.
ghost use Rattle.std.specs.Prelude.{[], ◌∷◌, length};
ghost use Rattle.bundles.specs.Readers.{first_layout};
ghost use Rattle.salvage_rules.specs.Calls.{salvage_alone, salvage_call};
ghost use Rattle.puddockle.specs.Returns.{ReturnedOutputs};

#[unsafe(no_mangle)]
pub extern "C" fn puddockle_salvage(
    bundle: &[u8],
    sample: u64,
    out: &mut [u8],
    changes: &mut [u8],
    names: &mut [u8],
    place: &mut u64,
    count: &mut u64,
    changes_count: &mut u64,
    names_count: &mut u64,
) -> u32
    ensures { ReturnedOutputs result place.new (count.new ∷ changes_count.new ∷ names_count.new ∷ [])
        (out.old ∷ changes.old ∷ names.old ∷ []) (out.new ∷ changes.new ∷ names.new ∷ [])
        (salvage_call first_layout bundle.now sample (length out.old) (length changes.old) (length names.old)) }
{
    puddockle::salvaged::puddockle_salvage(
        bundle,
        sample,
        out,
        changes,
        names,
        place,
        count,
        changes_count,
        names_count,
    )
}

#[unsafe(no_mangle)]
pub extern "C" fn puddockle_salvage_sample(
    kind: u32,
    length_size: u32,
    sample: &[u8],
    out: &mut [u8],
    changes: &mut [u8],
    place: &mut u64,
    count: &mut u64,
    changes_count: &mut u64,
) -> u32
    ensures { ReturnedOutputs result place.new (count.new ∷ changes_count.new ∷ [])
        (out.old ∷ changes.old ∷ []) (out.new ∷ changes.new ∷ [])
        (salvage_alone kind length_size sample.now (length out.old) (length changes.old)) }
{
    puddockle::salvaged::puddockle_salvage_sample(
        kind,
        length_size,
        sample,
        out,
        changes,
        place,
        count,
        changes_count,
    )
}
