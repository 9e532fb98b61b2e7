// A damaged sample salvaged: the new sample and the list of changes, over lent buffers.
#![tactic(auto)]

mod fates;
mod writing;

ghost use Rattle.std.specs.Prelude.{◌≡◌, [], ◌∷◌, ◌≤◌, length};
ghost use Rattle.words.specs.Refusals.{refused};
ghost use Rattle.words.specs.Buffers.{within_all, WroteAll};
ghost use Rattle.units.specs.Units.{sample};
ghost use Rattle.bundles.specs.Limits.{bundle_most};
ghost use Rattle.bundles.specs.Readers.{first_layout};
ghost use Rattle.tables.specs.Tables.{table_most, recording_in};
ghost use Rattle.salvage_rules.specs.Calls.{salvage_of, salvage_alone, salvage, salvage_call};
ghost use Rattle.salvage.specs.Steps.{counts_of, all_counts_of};

use numbers::{Fault, Kind, LengthSize, Refusal, SampleNumber};
use units::Track;

// How many bytes of the new sample and of the list of changes are written.
#[derive(Clone, Copy)]
pub struct Counts {
    pub sample: usize,
    pub changes: usize,
}

// The same, and how many bytes of the naming list.
#[derive(Clone, Copy)]
pub struct AllCounts {
    pub sample: usize,
    pub changes: usize,
    pub names: usize,
}

// The most bytes of a sample whose places the list's 4 bytes can say.
const LISTABLE_MOST: usize = 4294967296;

// A sample of a track: 29, or the new sample and the list, each over the start of its buffer.
fn salvage_of(k: Track, s: &[u8], out: &mut [u8], changes: &mut [u8]) -> Result<Counts, Refusal>
    ensures { WroteAll (out.old ∷ changes.old ∷ []) (out.new ∷ changes.new ∷ []) (counts_of result)
        (within_all (length out.old ∷ length changes.old ∷ []) (salvage_of (sample k s.now))) }
{
    if LISTABLE_MOST < s.len() {
        return Err(Refusal::at(Fault::OutputTooLong, 0));
    }
    let plan = writing::plan_of(k, s);
    if out.len() < plan.sample {
        return Err(Refusal::at(Fault::OutputTooLong, 0));
    }
    if changes.len() < plan.changes {
        return Err(Refusal::at(Fault::OutputTooLong, 0));
    }
    writing::write(k, s, plan.fault, out, changes);
    Ok(Counts {
        sample: plan.sample,
        changes: plan.changes,
    })
}

// A sample outside a bundle, by the numbers of a kind and a length size: 4, 11, 29; or the new sample and the list of changes, each over the
// start of its buffer, and how many bytes these are. After a refusal both are as they were.
pub fn salvage_sample(
    kind: u32,
    length_size: u32,
    s: &[u8],
    out: &mut [u8],
    changes: &mut [u8],
) -> Result<Counts, Refusal>
    ensures { WroteAll (out.old ∷ changes.old ∷ []) (out.new ∷ changes.new ∷ []) (counts_of result)
        (salvage_alone kind length_size s.now (length out.old) (length changes.old)) }
{
    let known_kind = Kind::from_number(kind);
    let known_size = LengthSize::from_number(length_size);
    match known_kind {
        None => Err(Refusal::at(Fault::UnknownKind, 0)),
        Some(k) => match known_size {
            None => Err(Refusal::at(Fault::BadLengthSize, 0)),
            Some(l) => salvage_of(
                Track {
                    kind: k,
                    length_size: l,
                },
                s,
                out,
                changes,
            ),
        },
    }
}

// Sample n of a bundle by a table beside it: 30, 29 if any of the three buffers lacks room, or the three outputs. The naming list is written
// first, by a call that judges its own room; by then the other two rooms are judged.
fn salvage_numbered(
    b: &[u8],
    t: &mut [u64],
    n: SampleNumber,
    out: &mut [u8],
    changes: &mut [u8],
    names: &mut [u8],
) -> Result<AllCounts, Refusal>
    requires { (length b.now ≤ bundle_most) × (table_most ≤ length t.old) }
    ensures { WroteAll (out.old ∷ changes.old ∷ names.old ∷ []) (out.new ∷ changes.new ∷ names.new ∷ [])
        (all_counts_of result)
        (within_all (length out.old ∷ length changes.old ∷ length names.old ∷ [])
        (salvage (recording_in b.now t.old) n.0)) }
{
    judging::check_number(sample_tables::sample_count(t), n.0)?;
    let k = delivery::track_of(t, n);
    let s = sample_tables::sample_bytes(b, t, n);
    let plan = writing::plan_of(k, s);
    if out.len() < plan.sample {
        return Err(Refusal::at(Fault::OutputTooLong, 0));
    }
    if changes.len() < plan.changes {
        return Err(Refusal::at(Fault::OutputTooLong, 0));
    }
    let size = naming_list::names_in(b, t, n, names)?;
    writing::write(k, s, plan.fault, out, changes);
    Ok(AllCounts {
        sample: plan.sample,
        changes: plan.changes,
        names: size,
    })
}

// Sample n of a bundle: 1 to 13, 30, then 29 if any of the three buffers lacks room; or the new sample, the list of changes and the naming list
// of the old sample, each over the start of its buffer, and how many bytes these are. After a refusal all three are as they were.
pub fn salvage(
    b: &[u8],
    n: SampleNumber,
    out: &mut [u8],
    changes: &mut [u8],
    names: &mut [u8],
) -> Result<AllCounts, Refusal>
    ensures { WroteAll (out.old ∷ changes.old ∷ names.old ∷ []) (out.new ∷ changes.new ∷ names.new ∷ [])
        (all_counts_of result)
        (salvage_call first_layout b.now n.0 (length out.old) (length changes.old) (length names.old)) }
{
    let mut t = [0u64; tables::TABLE_SIZE];
    filling::fill_table(b, &mut t)?;
    salvage_numbered(b, &mut t, n, out, changes, names)
}
