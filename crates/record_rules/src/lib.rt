// Decoder configuration records: what they hold. The reader is the crate records, the writer record_writer.
#![tactic(auto)]

pub mod layouts;

ghost use Rattle.std.specs.Prelude.{◌≡◌, ◌≤◌};
ghost use Rattle.record_rules.specs.Layout.{bit, flag_of};

use numbers::{ByteOffset, Refusal};
use sets::SetTypes;

// A byte of flags, fixed bits and a value, from the top.
#[derive(Clone, Copy)]
pub struct Shape {
    // what the lowest flag counts: 256 where there is none
    pub unit: usize,
    // the fixed bits, as a number
    pub fixed: usize,
    // what the lowest fixed bit counts: the value is below it
    pub low: usize,
}

// What the kinds of record differ in: a kind is one row.
#[derive(Clone, Copy)]
pub struct RecordLayout {
    // how many flags stand at the top of the byte with the length size
    pub flags: usize,
    // the byte with the length size less one
    pub length_size: Shape,
    // the byte with the number of sequence sets
    pub count: Shape,
    // the types of a sequence set
    pub sequence: SetTypes,
    // whether a trailer belongs to the high profiles
    pub trailer: bool,
}

// A flag of one bit that a kind's record may not have.
#[derive(Clone, Copy)]
pub enum Flag {
    Absent,
    Clear,
    Set,
}

impl Flag {
    // A flag by its bit, where a record has it.
    pub fn of(has: bool, bit: u64) -> Flag
        ensures { result ≡ flag_of has bit }
    {
        match (has, bit) {
            (false, _) => Flag::Absent,
            (true, 0) => Flag::Clear,
            (true, _) => Flag::Set,
        }
    }

    // A flag as a bit.
    pub fn bit(self) -> u8
        ensures { (result ≡ bit self) × (result ≤ 1) }
    {
        match self {
            Flag::Absent | Flag::Clear => 0,
            Flag::Set => 1,
        }
    }
}

// The values of a trailer.
#[derive(Clone, Copy)]
pub struct High {
    // chroma_format
    pub format: usize,
    // bit_depth_luma_minus8
    pub luma: usize,
    // bit_depth_chroma_minus8
    pub chroma: usize,
    // how many sequence set extensions there are
    pub extensions: usize,
}

// What follows the picture sets.
#[derive(Clone, Copy)]
pub enum Trailer {
    // nothing, since no trailer belongs there
    None,
    // nothing, where a trailer belongs
    Absent,
    Present(High),
}

// The fields of a record. They are numbers that may be too large for their bits where a record is to be written.
#[derive(Clone, Copy)]
pub struct Fields {
    pub profile: usize,
    pub compatibility: usize,
    pub level: usize,
    // complete_representation
    pub complete: Flag,
    // the length size, L: 1, 2 or 4
    pub length_size: usize,
    // how many sets of each kind there are
    pub sequences: usize,
    pub pictures: usize,
    pub trailer: Trailer,
}

// A part of the record's bytes that holds sets, each after its 2-byte length.
#[derive(Clone, Copy)]
pub struct Part {
    pub start: ByteOffset,
    pub len: usize,
}

// A record that was read: its fields, and where its sets stand.
#[derive(Clone, Copy)]
pub struct Record {
    pub fields: Fields,
    pub sequences: Part,
    pub pictures: Part,
    pub extensions: Part,
}
