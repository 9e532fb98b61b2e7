// The form of a sample: any bytes offered as a sample get one answer.
#![tactic(auto)]

ghost use Rattle.std.specs.Prelude.{◌≡◌, true};
ghost use Rattle.words.specs.Refusals.{ok};
ghost use Rattle.words.specs.Lists.{has};
ghost use Rattle.numbers.specs.Faults.{fault_in};
ghost use Rattle.units.specs.Units.{sample, is_aggregator, top_units};
ghost use Rattle.units.specs.Aggregators.{cover_fault};
ghost use Rattle.samples.specs.Check.{answer_of, top_verdict, contents_verdict, check, check_alone};

use numbers::{ByteOffset, Fault, Kind, LengthSize, Refusal};
use units::Track;

// The first walk, 14 to 18 of the top-level units: the first top-level fault, if there is one.
pub fn check_top(k: Track, s: &[u8]) -> Result<(), Refusal>
    ensures { answer_of result ≡ top_verdict (sample k s.now) }
{
    let n = k.length_size.bytes();
    let mut at: usize = 0;
    while at < s.len() {
        let u = units::judge_unit(k, s, ByteOffset(at), ByteOffset(s.len()));
        numbers::at_place(u.verdict, at)?;
        at = at + n + u.size;
    }
    Ok(())
}

// 21 of the aggregator at a top-level place: its additional_bytes end on no border, or cover an aggregator.
// The walk ends where the covered bytes end, and at the first aggregator. So a top-level unit is walked over for one aggregator only,
// the nearest before it, and all these walks together pass over each unit of the sample at most once.
fn cover_fault(k: Track, s: &[u8], at: usize) -> Result<(), Fault>
    requires { (top_verdict (sample k s.now) ≡ ok tt) × (has at (top_units (sample k s.now)) ≡ true)
        × (is_aggregator (sample k s.now) at ≡ true) }
    ensures { fault_in result ≡ cover_fault (sample k s.now) at }
{
    let l = k.length_size;
    let n = l.bytes();
    let head = at + n;
    let end = head + l.number(s, at);
    let more = l.number(s, head + LengthSize::HEADER);
    if s.len() - end < more {
        return Err(Fault::BadAdditionalBytes);
    }
    let stop = end + more;
    let mut q = end;
    while q < stop {
        if units::type_at(k, s, ByteOffset(q)) == units::AGGREGATOR {
            return Err(Fault::BadAdditionalBytes);
        }
        q = q + n + l.number(s, q);
    }
    if q != stop {
        return Err(Fault::BadAdditionalBytes);
    }
    Ok(())
}

// The second walk, over top-level units that are whole: an aggregator's included units, then its 21; an extractor's 22.
// Both loops are left together at the first fault, with its place.
fn check_contents(k: Track, s: &[u8]) -> Result<(), Refusal>
    requires { top_verdict (sample k s.now) ≡ ok tt }
    ensures { answer_of result ≡ contents_verdict (sample k s.now) }
{
    let l = k.length_size;
    let n = l.bytes();
    let mut at: usize = 0;
    'walk: loop {
        if s.len() <= at {
            break 'walk Ok(());
        }
        let end = at + n + l.number(s, at);
        let verdict = if units::type_at(k, s, ByteOffset(at)) == units::AGGREGATOR {
            let mut q = at + n + LengthSize::HEADER + n;
            while q < end {
                let u = units::judge_included(k, s, ByteOffset(q), ByteOffset(end));
                if let Err(fault) = u.verdict {
                    break 'walk Err(Refusal::at(fault, q));
                }
                q = q + n + u.size;
            }
            cover_fault(k, s, at)
        } else {
            units::extractor_fault(k, s, ByteOffset(at))
        };
        if let Err(fault) = verdict {
            break 'walk Err(Refusal::at(fault, at));
        }
        at = end;
    }
}

// The check of a sample of a track: 14 to 22, or well formed.
#[tactic(auto, unfolding(crate::specs::Check::check))]
pub fn check_sample(k: Track, s: &[u8]) -> Result<(), Refusal>
    ensures { answer_of result ≡ check (sample k s.now) }
{
    check_top(k, s)?;
    check_contents(k, s)
}

// The check of a sample outside a bundle, by the numbers of a kind and a length size: 4, then 11, both at 0, then 14 to 22.
pub fn check(kind: u32, length_size: u32, s: &[u8]) -> Result<(), Refusal>
    ensures { answer_of result ≡ check_alone kind length_size s.now }
{
    let k = Kind::from_number(kind).ok_or(Refusal::at(Fault::UnknownKind, 0))?;
    let l = LengthSize::from_number(length_size).ok_or(Refusal::at(Fault::BadLengthSize, 0))?;
    check_sample(
        Track {
            kind: k,
            length_size: l,
        },
        s,
    )
}
