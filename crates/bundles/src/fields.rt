// The sizes in bytes of a bundle's fields, and where a field stands in its entry: see specs/Fields.antt.
pub const TRACK_COUNT_SIZE: usize = 1;

pub const KIND_SIZE: usize = 1;

pub const RECORD_LENGTH_SIZE: usize = 2;

pub const RECORD_LENGTH_OFFSET: usize = KIND_SIZE;

pub const TRACK_HEAD_SIZE: usize = RECORD_LENGTH_OFFSET + RECORD_LENGTH_SIZE;

pub const REFERENCE_COUNT_SIZE: usize = 1;

pub const TRACK_NUMBER_SIZE: usize = 1;

pub const TO_OFFSET: usize = TRACK_NUMBER_SIZE;

pub const REFERENCE_SIZE: usize = TO_OFFSET + TRACK_NUMBER_SIZE;

pub const SAMPLE_COUNT_SIZE: usize = 2;

pub const TIME_SIZE: usize = 8;

pub const SAMPLE_LENGTH_SIZE: usize = 4;

pub const TIME_OFFSET: usize = TRACK_NUMBER_SIZE;

pub const LENGTH_OFFSET: usize = TIME_OFFSET + TIME_SIZE;

pub const ENTRY_SIZE: usize = LENGTH_OFFSET + SAMPLE_LENGTH_SIZE;

pub const BYTE_COUNT_SIZE: usize = 4;
