// Parameter sets as a configuration record holds them: each after its 2-byte length.
#![tactic(auto)]

ghost use Rattle.std.specs.Prelude.{◌≡◌, IfOk};
ghost use Rattle.numbers.specs.Faults.{fault_in};
ghost use Rattle.sets.specs.Sets.{set_fault, sets_fault, sets_end, sets_fit};

use numbers::Fault;

// The bytes of the length before a set.
pub const SET_LENGTH_SIZE: usize = 2;

// The types of sets: sequence, subset sequence and picture parameter sets, and sequence parameter set extensions.
pub const SEQUENCE_SET: u8 = 7;

pub const SUBSET_SET: u8 = 15;

pub const PICTURE_SET: u8 = 8;

pub const EXTENSION_SET: u8 = 13;

// The one or two unit types that a set may have.
#[derive(Clone, Copy)]
pub struct SetTypes {
    pub one: u8,
    pub other: u8,
}

// The first refusal of the set at a place.
#[tactic(auto, using(words::proofs::Tests::tests), unfolding(crate::specs::Sets::set_fault))]
fn set_fault(types: SetTypes, s: &[u8], at: usize) -> Result<(), Fault>
    ensures { fault_in result ≡ set_fault types s.now at }
{
    if s.len() < at || s.len() - at < SET_LENGTH_SIZE {
        return Err(Fault::RecordCut);
    }
    let left = s.len() - at;
    let n = numbers::number(s, at, SET_LENGTH_SIZE);
    if n == 0 {
        return Err(Fault::BadSet);
    }
    if left - SET_LENGTH_SIZE < n {
        return Err(Fault::RecordCut);
    }
    let h = s[at + SET_LENGTH_SIZE];
    let unit_type = h % numbers::NAL_TYPES;
    if numbers::FORBIDDEN_BIT <= h || unit_type != types.one && unit_type != types.other {
        return Err(Fault::BadSet);
    }
    Ok(())
}

// n sets from a place on: their first refusal, or where they end.
pub fn walk_sets(types: SetTypes, s: &[u8], n: usize, at: usize) -> Result<usize, Fault>
    ensures fault { fault_in result ≡ sets_fault types s.now n at }
    ensures end { IfOk result (λ end. end ≡ sets_end s.now n at) }
{
    let mut p = at;
    for _ in 0..n {
        set_fault(types, s, p)?;
        p = p + SET_LENGTH_SIZE + numbers::number(s, p, SET_LENGTH_SIZE);
    }
    Ok(p)
}

// Whether the bytes are n sets and nothing else.
pub fn are_sets(types: SetTypes, s: &[u8], n: usize) -> bool
    ensures { result ≡ sets_fit types s.now n }
{
    walk_sets(types, s, n, 0) == Ok(s.len())
}
