// One sample of a bundle, by its number.
ghost use Rattle.std.specs.Prelude.{length};
ghost use Rattle.bundles.specs.Readers.{first_layout};
ghost use Rattle.resolution_rules.specs.Calls.{resolve_call, stream_call, place_call, parts_call, named_call};
ghost use Rattle.naming_list_rules.specs.Naming.{names_call};
ghost use Rattle.puddockle.specs.Returns.{ReturnedOutput, ReturnedPart, ReturnedNamed};

#[unsafe(no_mangle)]
pub extern "C" fn puddockle_resolve(
    bundle: &[u8],
    sample: u64,
    out: &mut [u8],
    place: &mut u64,
    count: &mut u64,
) -> u32
    ensures { ReturnedOutput result place.new count.new out.old out.new
        (resolve_call first_layout bundle.now sample (length out.old)) }
{
    puddockle::numbered::puddockle_resolve(bundle, sample, out, place, count)
}

#[unsafe(no_mangle)]
pub extern "C" fn puddockle_stream(
    bundle: &[u8],
    sample: u64,
    out: &mut [u8],
    place: &mut u64,
    count: &mut u64,
) -> u32
    ensures { ReturnedOutput result place.new count.new out.old out.new
        (stream_call first_layout bundle.now sample (length out.old)) }
{
    puddockle::numbered::puddockle_stream(bundle, sample, out, place, count)
}

#[unsafe(no_mangle)]
pub extern "C" fn puddockle_unit(
    bundle: &[u8],
    sample: u64,
    unit: u64,
    place: &mut u64,
    start: &mut u64,
    size: &mut u64,
) -> u32
    ensures { ReturnedPart result place.new start.new size.new (place_call first_layout bundle.now sample unit) }
{
    puddockle::numbered::puddockle_unit(bundle, sample, unit, place, start, size)
}

#[unsafe(no_mangle)]
pub extern "C" fn puddockle_names(
    bundle: &[u8],
    sample: u64,
    out: &mut [u8],
    place: &mut u64,
    count: &mut u64,
) -> u32
    ensures { ReturnedOutput result place.new count.new out.old out.new
        (names_call first_layout bundle.now sample (length out.old)) }
{
    puddockle::numbered::puddockle_names(bundle, sample, out, place, count)
}

#[unsafe(no_mangle)]
pub extern "C" fn puddockle_units(
    bundle: &[u8],
    sample: u64,
    spans: &mut [u64],
    place: &mut u64,
    count: &mut u64,
) -> u32
    ensures { ReturnedOutput result place.new count.new spans.old spans.new
        (parts_call first_layout bundle.now sample (length spans.old)) }
{
    puddockle::numbered::puddockle_units(bundle, sample, spans, place, count)
}

#[unsafe(no_mangle)]
pub extern "C" fn puddockle_named(
    bundle: &[u8],
    sample: u64,
    extractor: u64,
    place: &mut u64,
    named: &mut u64,
) -> u32
    ensures { ReturnedNamed result place.new named.new (named_call first_layout bundle.now sample extractor) }
{
    puddockle::numbered::puddockle_named(bundle, sample, extractor, place, named)
}
