// The lines of an audit: their sizes, and what a line says.
#![tactic(auto)]

ghost use Rattle.std.specs.Prelude.{◌≡◌};
ghost use Rattle.words.specs.RefusalNumbers.{sample_refusals};
ghost use Rattle.audit_lines.specs.Lines.{line_there, line_from, line_says};

use numbers::{ByteOffset, Fault, PLACE_SIZE, Refusal, SampleNumber, refusals};

// A line: the refusal, its place, and how many units are delivered.
pub const REFUSAL_SIZE: usize = 1;

pub const UNITS_SIZE: usize = 8;

pub const LINE_SIZE: usize = REFUSAL_SIZE + PLACE_SIZE + UNITS_SIZE;

// What a line says of a sample: it passed with so many units, is empty, or is refused; or there is no such line, or none that an audit writes.
#[derive(Clone, Copy)]
pub enum Line {
    Passed(usize),
    Empty,
    Refused(Refusal),
    NoLine,
}

// How many are refusals of a sample.
const SAMPLE_COUNT: usize = 15;

// The refusals of a sample.
fn of_sample() -> [u8; SAMPLE_COUNT]
    ensures { result ≡ sample_refusals }
{
    [
        Fault::LengthFieldCut.number(),
        Fault::UnitTooLong.number(),
        Fault::EmptyUnit.number(),
        Fault::TopBitSet.number(),
        Fault::UnitTooShort.number(),
        Fault::NestedAggregator.number(),
        Fault::SliceInAvcAggregator.number(),
        Fault::BadAdditionalBytes.number(),
        Fault::BadExtractorSize.number(),
        Fault::BadTrackRefIndex.number(),
        Fault::NoSampleNamed.number(),
        Fault::NamedIllFormed.number(),
        Fault::BadDataOffset.number(),
        Fault::BadDataLength.number(),
        Fault::ExtractorCopied.number(),
    ]
}

// Line n, or nothing where it is not there whole.
fn line_part<'a>(lines: &'a [u8], n: SampleNumber) -> &'a [u8]
    ensures { result.now ≡ line_there lines.now n.0 }
{
    let m = n.0;
    if m == 0 {
        return &lines[..0];
    }
    if lines.len() / LINE_SIZE < m {
        return &lines[..0];
    }
    let at = LINE_SIZE * (m - 1);
    &lines[at..at + LINE_SIZE]
}

// What a line with these numbers says of a sample of so many bytes.
fn line_from(number: u8, place: usize, units: usize, size: usize) -> Line
    ensures { result ≡ line_from number place units size }
{
    if number == 0 {
        if place != 0 {
            return Line::NoLine;
        }
        if size != 0 {
            return Line::Passed(units);
        }
        if units != 0 {
            return Line::NoLine;
        }
        return Line::Empty;
    }
    let known = of_sample();
    if !refusals::is_one_of(number, &known) {
        return Line::NoLine;
    }
    if size <= place {
        return Line::NoLine;
    }
    if units != 0 {
        return Line::NoLine;
    }
    Line::Refused(Refusal {
        number,
        place: ByteOffset(place),
    })
}

// What line n of an audit says of a sample of so many bytes.
pub fn line_of(lines: &[u8], n: SampleNumber, size: usize) -> Line
    ensures { result ≡ line_says (line_there lines.now n.0) size }
{
    let line = line_part(lines, n);
    if line.len() == 0 {
        return Line::NoLine;
    }
    let number = numbers::byte(line, 0);
    let place = numbers::number(line, REFUSAL_SIZE, PLACE_SIZE);
    let units = numbers::number(line, REFUSAL_SIZE + PLACE_SIZE, UNITS_SIZE);
    line_from(number, place, units, size)
}
