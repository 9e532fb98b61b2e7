// Whether fields and sets fit a record, without making its bytes.
ghost use Rattle.std.specs.Prelude.{◌≡◌, ◌≤◌};
ghost use Rattle.record_rules.specs.Layout.{flag_fits, flags_fit};
ghost use Rattle.record_rules.specs.Trailers.{high_numbers_fit};
ghost use Rattle.record_rules.specs.Fields.{flags_of, numbers_fit, fits};
ghost use Rattle.record_writer.specs.Steps.{facts_of};

use crate::Facts;
use numbers::Kind;
use record_rules::{Fields, Flag, High, Trailer, layouts};

// A flag is given exactly where a record has it.
fn flag_fits(has: bool, flag: Flag) -> bool
    ensures { result ≡ flag_fits has flag }
{
    match flag {
        Flag::Absent => !has,
        Flag::Clear | Flag::Set => has,
    }
}

// Each flag is given exactly where a record of n flags has it.
#[tactic(auto, unfolding(record_rules::specs::Layout::flags_fit))]
fn flags_fit(n: usize, f: Fields) -> bool
    ensures { result ≡ flags_fit n 0 (flags_of f) }
{
    flag_fits(0 < n, f.complete)
}

// The values of a trailer fit their bits.
#[tactic(auto, using(words::proofs::Tests::tests), unfolding(words::specs::Tests::all))]
fn high_fits(t: High) -> bool
    ensures { result ≡ high_numbers_fit t }
{
    t.format < 4 && t.luma < 8 && t.chroma < 8 && t.extensions < 256
}

// One row of what is known.
fn facts(head: usize, sets: usize, fits: bool, belongs: bool) -> Facts
    ensures { result ≡ record { head = head; sets = sets; fits = fits; belongs = belongs } }
{
    Facts {
        head,
        sets,
        fits,
        belongs,
    }
}

// What is known of a trailer at the end of a record of a kind and a profile.
pub(crate) fn facts_of(k: Kind, profile: usize, trailer: Trailer) -> Facts
    ensures { (result ≡ facts_of k profile trailer) × (result.head ≤ 4) }
{
    let wanted = layouts::trailer_belongs(k, profile);
    match trailer {
        Trailer::None => facts(0, 0, true, !wanted),
        Trailer::Absent => facts(0, 0, true, wanted),
        Trailer::Present(t) => {
            let fits = high_fits(t);
            facts(layouts::TRAILER_HEAD, t.extensions, fits, wanted)
        }
    }
}

// The numbers fit their bits.
#[tactic(auto, using(words::proofs::Tests::tests), unfolding(words::specs::Tests::all, record_rules::specs::Fields::numbers_fit))]
fn numbers_fit(k: Kind, f: Fields) -> bool
    ensures { result ≡ numbers_fit k f }
{
    let l = layouts::record_layout(k);
    f.profile < 256
        && f.compatibility < 256
        && f.level < 256
        && flags_fit(l.flags, f)
        && 0 < f.length_size
        && f.length_size <= l.length_size.low
        && f.sequences < l.count.low
        && f.pictures < 256
        && facts_of(k, f.profile, f.trailer).fits
}

// Fields and sets fit a record.
#[tactic(auto, using(words::proofs::Tests::tests, record_rules::proofs::Fits::fits_by_parts_lem), unfolding(words::specs::Tests::all, record_rules::specs::Parts::fits_by_parts))]
pub(crate) fn fit(k: Kind, f: Fields, sequences: &[u8], pictures: &[u8], extensions: &[u8]) -> bool
    ensures { result ≡ fits k f sequences.now pictures.now extensions.now }
{
    let l = layouts::record_layout(k);
    let facts = facts_of(k, f.profile, f.trailer);
    numbers_fit(k, f)
        && f.length_size != layouts::BAD_SIZE
        && sets::are_sets(l.sequence, sequences, f.sequences)
        && sets::are_sets(layouts::PICTURE_TYPES, pictures, f.pictures)
        && facts.belongs
        && sets::are_sets(layouts::EXTENSION_TYPES, extensions, facts.sets)
}
