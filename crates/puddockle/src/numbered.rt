// One sample of a bundle, by its number.
ghost use Rattle.std.specs.Prelude.{length};
ghost use Rattle.bundles.specs.Readers.{first_layout};
ghost use Rattle.resolution_rules.specs.Calls.{resolve_call, stream_call, place_call, parts_call, named_call};
ghost use Rattle.naming_list_rules.specs.Naming.{names_call};
ghost use Rattle.puddockle.specs.Returns.{ReturnedOutput, ReturnedPart, ReturnedNamed};

use crate::answer;
use numbers::{ByteOffset, SampleNumber};

pub fn puddockle_resolve(
    bundle: &[u8],
    sample: u64,
    out: &mut [u8],
    place: &mut u64,
    count: &mut u64,
) -> u32
    ensures { ReturnedOutput result place.new count.new out.old out.new
        (resolve_call first_layout bundle.now sample (length out.old)) }
{
    let resolved = resolution::resolve(bundle, SampleNumber(sample as usize), out);
    answer::written(resolved, place, count)
}

pub fn puddockle_stream(
    bundle: &[u8],
    sample: u64,
    out: &mut [u8],
    place: &mut u64,
    count: &mut u64,
) -> u32
    ensures { ReturnedOutput result place.new count.new out.old out.new
        (stream_call first_layout bundle.now sample (length out.old)) }
{
    let streamed = resolution::stream(bundle, SampleNumber(sample as usize), out);
    answer::written(streamed, place, count)
}

pub fn puddockle_unit(
    bundle: &[u8],
    sample: u64,
    unit: u64,
    place: &mut u64,
    start: &mut u64,
    size: &mut u64,
) -> u32
    ensures { ReturnedPart result place.new start.new size.new (place_call first_layout bundle.now sample unit) }
{
    *place = 0;
    *start = 0;
    *size = 0;
    match delivered_unit::unit_place(bundle, SampleNumber(sample as usize), unit as usize) {
        Err(f) => answer::refused(f, place),
        Ok(u) => {
            let at = u.start;
            *start = at.0 as u64;
            *size = u.size as u64;
            0
        }
    }
}

pub fn puddockle_names(
    bundle: &[u8],
    sample: u64,
    out: &mut [u8],
    place: &mut u64,
    count: &mut u64,
) -> u32
    ensures { ReturnedOutput result place.new count.new out.old out.new
        (names_call first_layout bundle.now sample (length out.old)) }
{
    let listed = naming_list::names(bundle, SampleNumber(sample as usize), out);
    answer::written(listed, place, count)
}

pub fn puddockle_units(
    bundle: &[u8],
    sample: u64,
    spans: &mut [u64],
    place: &mut u64,
    count: &mut u64,
) -> u32
    ensures { ReturnedOutput result place.new count.new spans.old spans.new
        (parts_call first_layout bundle.now sample (length spans.old)) }
{
    let parts = unit_parts::unit_parts(bundle, SampleNumber(sample as usize), spans);
    answer::written(parts, place, count)
}

pub fn puddockle_named(
    bundle: &[u8],
    sample: u64,
    extractor: u64,
    place: &mut u64,
    named: &mut u64,
) -> u32
    ensures { ReturnedNamed result place.new named.new (named_call first_layout bundle.now sample extractor) }
{
    *place = 0;
    *named = 0;
    let found = named_sample::named_sample(
        bundle,
        SampleNumber(sample as usize),
        ByteOffset(extractor as usize),
    );
    match found {
        Err(f) => answer::refused(f, place),
        Ok(n) => {
            *named = n.0 as u64;
            0
        }
    }
}
