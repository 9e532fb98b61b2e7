// The reader of decoder configuration records.
#![tactic(auto)]

mod steps;

ghost use Rattle.std.specs.Prelude.{◌≡◌, IfOk};
ghost use Rattle.numbers.specs.Faults.{fault_in};
ghost use Rattle.record_rules.specs.Answers.{answer_of};
ghost use Rattle.record_rules.specs.Read.{length_size, sequences_end, pictures_end, record_fault, record_of, read_as, read_record};
ghost use Rattle.records.specs.Steps.{follow_of};

use numbers::{ByteOffset, Fault, Kind, Refusal};
use record_rules::{Part, Record, Trailer, layouts};

// What follows the picture sets: the trailer, where its sets start, and where the record ends.
#[derive(Clone, Copy)]
struct Follow {
    pub trailer: Trailer,
    pub start: usize,
    pub end: usize,
}

// The record whose steps found no fault: its sequence sets end at p, its picture sets at q.
#[tactic(auto, using(record_rules::proofs::Parsed::parsed))]
fn accepted(k: Kind, s: &[u8], p: usize, q: usize, follow: Follow) -> Record
    requires { (record_fault k s.now ≡ 0) × (p ≡ sequences_end k s.now) × (q ≡ pictures_end k s.now) × (follow ≡ follow_of k s.now) }
    ensures { result ≡ record_of k s.now }
{
    let fields = steps::fields_of(k, s, p, follow.trailer);
    Record {
        fields,
        sequences: Part {
            start: ByteOffset(layouts::HEAD),
            len: p - layouts::HEAD,
        },
        pictures: Part {
            start: ByteOffset(p + 1),
            len: q - (p + 1),
        },
        extensions: Part {
            start: ByteOffset(follow.start),
            len: follow.end - follow.start,
        },
    }
}

// The record of a known kind that the bytes are, or the first fault: the reader's steps.
#[tactic(auto, using(words::proofs::Tests::tests, numbers::proofs::Faults::faults), unfolding(record_rules::specs::Read::record_fault, record_rules::specs::Read::pictures_end))]
pub fn record_of(k: Kind, s: &[u8]) -> Result<Record, Fault>
    ensures fault { fault_in result ≡ record_fault k s.now }
    ensures value { IfOk result (λ r. r ≡ record_of k s.now) }
{
    steps::head_fault(k, s)?;
    let p = steps::walk_sequences(k, s)?;
    let q = steps::walk_pictures(s, p)?;
    let follow = steps::follow_of(k, s, q)?;
    if follow.end < s.len() {
        return Err(Fault::BytesAfterRecord);
    }
    Ok(accepted(k, s, p, q, follow))
}

// The record of a known kind that the bytes are.
pub fn read_as(k: Kind, s: &[u8]) -> Result<Record, Refusal>
    ensures { answer_of result ≡ read_as k s.now }
{
    numbers::at_place(record_of(k, s), 0)
}

// The length size that the bytes of a record of a known kind state, whatever else they hold; a byte that is not there counts as 0.
pub fn length_size(k: Kind, s: &[u8]) -> usize
    ensures { result ≡ length_size k s.now }
{
    let shape = layouts::record_layout(k).length_size;
    let less_one = steps::value_in(shape, numbers::byte(s, layouts::LENGTH_SIZE_AT));
    less_one + 1
}

// The record that the bytes are, by a kind's number: 0 AVC, 1 SVC.
#[tactic(auto, unfolding(record_rules::specs::Read::read_record))]
pub fn read(kind: u32, s: &[u8]) -> Result<Record, Refusal>
    ensures { answer_of result ≡ read_record kind s.now }
{
    match Kind::from_number(kind) {
        None => Err(Refusal::at(Fault::UnknownKind, 0)),
        Some(k) => read_as(k, s),
    }
}
