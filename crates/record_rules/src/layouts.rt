// What the bytes of a record hold, and what the kinds differ in.
ghost use Rattle.std.specs.Prelude.{◌≡◌};
ghost use Rattle.record_rules.specs.Layout.{record_layout};
ghost use Rattle.record_rules.specs.Trailers.{trailer_belongs};

use crate::{RecordLayout, Shape};
use numbers::Kind;
use sets::SetTypes;

// A record's version; where the bytes before the sequence sets stand, and how many these are.
pub const VERSION: u8 = 1;

pub const VERSION_AT: usize = 0;

pub const PROFILE_AT: usize = 1;

pub const COMPATIBILITY_AT: usize = 2;

pub const LEVEL_AT: usize = 3;

pub const LENGTH_SIZE_AT: usize = 4;

pub const COUNT_AT: usize = 5;

pub const HEAD: usize = 6;

// How many bytes a trailer has before its sets.
pub const TRAILER_HEAD: usize = 4;

// The length size that no record may state.
pub const BAD_SIZE: usize = 3;

// What complete_representation, the first flag, counts in its byte.
pub const COMPLETE: u8 = 128;

pub const PICTURE_TYPES: SetTypes = SetTypes {
    one: sets::PICTURE_SET,
    other: sets::PICTURE_SET,
};

pub const EXTENSION_TYPES: SetTypes = SetTypes {
    one: sets::EXTENSION_SET,
    other: sets::EXTENSION_SET,
};

// The byte of a trailer with its chroma_format.
pub const CHROMA: Shape = Shape {
    unit: 256,
    fixed: 63,
    low: 4,
};

// The bytes of a trailer with a depth less 8.
pub const DEPTH: Shape = Shape {
    unit: 256,
    fixed: 31,
    low: 8,
};

// The row of a kind.
pub fn record_layout(k: Kind) -> RecordLayout
    ensures { result ≡ record_layout k }
{
    match k {
        Kind::Avc => RecordLayout {
            flags: 0,
            length_size: Shape {
                unit: 256,
                fixed: 63,
                low: 4,
            },
            count: Shape {
                unit: 256,
                fixed: 7,
                low: 32,
            },
            sequence: SetTypes {
                one: sets::SEQUENCE_SET,
                other: sets::SEQUENCE_SET,
            },
            trailer: true,
        },
        Kind::Svc => RecordLayout {
            flags: 1,
            length_size: Shape {
                unit: 128,
                fixed: 31,
                low: 4,
            },
            count: Shape {
                unit: 256,
                fixed: 0,
                low: 128,
            },
            sequence: SetTypes {
                one: sets::SEQUENCE_SET,
                other: sets::SUBSET_SET,
            },
            trailer: false,
        },
    }
}

// Whether a trailer belongs to a record of a kind and a profile.
pub fn trailer_belongs(k: Kind, profile: usize) -> bool
    ensures { result ≡ trailer_belongs k profile }
{
    record_layout(k).trailer && matches!(profile, 100 | 110 | 122 | 144)
}
