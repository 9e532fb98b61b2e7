// The refusals of document 01, 'Numbers for no', and of document 02, by name and number. The definitions' table is
// crates/words/specs/RefusalNumbers.antt; `number` and `table` tie the two.
ghost use Rattle.std.specs.Prelude.{◌≡◌, ◌<◌, map};
ghost use Rattle.words.specs.Lists.{has};
ghost use Rattle.words.specs.RefusalNumbers.{refusal_numbers, bundle_refusals};
ghost use Rattle.numbers.specs.Faults.{number_of_fault};

// What is wrong: a refusal without its place.
#[derive(Clone, Copy, Debug, PartialEq, Eq)]
pub enum Fault {
    // the bundle
    BundleTooLong = 1,
    BundleCut = 2,
    CountOutOfLimits = 3,
    UnknownKind = 4,
    BadReference = 5,
    BadTrackOrTime = 6,
    BadByteCount = 7,
    // a configuration record
    RecordCut = 8,
    BadVersion = 9,
    WrongFixedBits = 10,
    BadLengthSize = 11,
    BadSet = 12,
    BytesAfterRecord = 13,
    // the units of a sample
    LengthFieldCut = 14,
    UnitTooLong = 15,
    EmptyUnit = 16,
    TopBitSet = 17,
    UnitTooShort = 18,
    NestedAggregator = 19,
    SliceInAvcAggregator = 20,
    BadAdditionalBytes = 21,
    BadExtractorSize = 22,
    // what an extractor names and copies
    BadTrackRefIndex = 23,
    NoSampleNamed = 24,
    NamedIllFormed = 25,
    BadDataOffset = 26,
    BadDataLength = 27,
    ExtractorCopied = 28,
    // what was asked for
    OutputTooLong = 29,
    NoSuchNumber = 30,
    FieldsFitNoRecord = 31,
    // a byte stream
    UnitNotStreamable = 32,
    BadByteStream = 33,
    UnitExceedsLengthSize = 34,
}

impl Fault {
    // Its number in the table.
    pub fn number(self) -> u8
        ensures { (result ≡ number_of_fault self) × (result < 256) }
    {
        self as u8
    }
}

// How many there are.
pub const COUNT: usize = 34;

// All of them, in the order of their numbers.
pub fn table() -> [Fault; COUNT]
    ensures { map number_of_fault result ≡ refusal_numbers }
{
    [
        Fault::BundleTooLong,
        Fault::BundleCut,
        Fault::CountOutOfLimits,
        Fault::UnknownKind,
        Fault::BadReference,
        Fault::BadTrackOrTime,
        Fault::BadByteCount,
        Fault::RecordCut,
        Fault::BadVersion,
        Fault::WrongFixedBits,
        Fault::BadLengthSize,
        Fault::BadSet,
        Fault::BytesAfterRecord,
        Fault::LengthFieldCut,
        Fault::UnitTooLong,
        Fault::EmptyUnit,
        Fault::TopBitSet,
        Fault::UnitTooShort,
        Fault::NestedAggregator,
        Fault::SliceInAvcAggregator,
        Fault::BadAdditionalBytes,
        Fault::BadExtractorSize,
        Fault::BadTrackRefIndex,
        Fault::NoSampleNamed,
        Fault::NamedIllFormed,
        Fault::BadDataOffset,
        Fault::BadDataLength,
        Fault::ExtractorCopied,
        Fault::OutputTooLong,
        Fault::NoSuchNumber,
        Fault::FieldsFitNoRecord,
        Fault::UnitNotStreamable,
        Fault::BadByteStream,
        Fault::UnitExceedsLengthSize,
    ]
}

// How many are refusals of a bundle.
pub const BUNDLE_COUNT: usize = 13;

// The refusals of a bundle, and of the records in it.
pub fn of_bundle() -> [Fault; BUNDLE_COUNT]
    ensures { map number_of_fault result ≡ bundle_refusals }
{
    [
        Fault::BundleTooLong,
        Fault::BundleCut,
        Fault::CountOutOfLimits,
        Fault::UnknownKind,
        Fault::BadReference,
        Fault::BadTrackOrTime,
        Fault::BadByteCount,
        Fault::RecordCut,
        Fault::BadVersion,
        Fault::WrongFixedBits,
        Fault::BadLengthSize,
        Fault::BadSet,
        Fault::BytesAfterRecord,
    ]
}

// Whether a number is one of a set.
pub fn is_one_of(n: u8, set: &[u8]) -> bool
    ensures { result ≡ has n set.now }
{
    set.contains(&n)
}
