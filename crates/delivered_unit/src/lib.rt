// One unit that a sample delivers: where it stands, and its bytes.
#![tactic(auto)]

mod finding;

ghost use Rattle.std.specs.Prelude.{◌≡◌};
ghost use Rattle.bundles.specs.Readers.{first_layout};
ghost use Rattle.resolution_rules.specs.Calls.{unit_call, place_call, unit_part};
ghost use Rattle.delivered_unit.specs.Answers.{unit_answer_of, place_answer_of};

use delivery::Span;
use numbers::{ByteOffset, Refusal, SampleNumber};

// A part of the bundle: where it starts, and its size.
#[derive(Clone, Copy)]
pub struct UnitPart {
    pub start: ByteOffset,
    pub size: usize,
}

// The kth unit that a sample delivers: 1 to 13, 30, 14 to 28, 30 for k, or where it stands.
pub fn unit_answer(b: &[u8], n: SampleNumber, k: usize) -> Result<Span, Refusal>
    ensures { unit_answer_of result ≡ unit_call first_layout b.now n.0 k }
{
    let mut t = [0u64; tables::TABLE_SIZE];
    filling::fill_table(b, &mut t)?;
    finding::find_unit(b, &t, n, k)
}

// Its bytes, as a part of the bundle; empty if refused.
pub fn unit_bytes<'a>(b: &'a [u8], n: SampleNumber, k: usize) -> &'a [u8]
    ensures { result.now ≡ unit_part first_layout b.now (unit_call first_layout b.now n.0 k) }
{
    let mut t = [0u64; tables::TABLE_SIZE];
    match filling::fill_table(b, &mut t) {
        Err(_) => &b[..0],
        Ok(()) => finding::unit_part(b, &t, n, k),
    }
}

// Where in the bundle its bytes stand.
pub fn unit_place(b: &[u8], n: SampleNumber, k: usize) -> Result<UnitPart, Refusal>
    ensures { place_answer_of result ≡ place_call first_layout b.now n.0 k }
{
    let mut t = [0u64; tables::TABLE_SIZE];
    filling::fill_table(b, &mut t)?;
    finding::place_unit(b, &t, n, k)
}
