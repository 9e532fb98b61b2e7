// What becomes of each top-level unit of a sample y whose top-level units are whole.
ghost use Rattle.std.specs.Prelude.{◌≡◌, true, not};
ghost use Rattle.words.specs.Refusals.{◌at_place◌, first, passed};
ghost use Rattle.units.specs.Units.{sample, next, is_aggregator};
ghost use Rattle.units.specs.Aggregators.{included, included_fault};
ghost use Rattle.salvage_rules.specs.Salvage.{loses_cover, fate};
ghost use Rattle.salvage.specs.Steps.{TopUnit};

use numbers::{ByteOffset, LengthSize};
use salvage_rules::Fate;
use units::Track;

// Whether a unit that the aggregator at a place includes has a fault.
fn has_fault_inside(k: Track, y: &[u8], at: usize) -> bool
    requires { TopUnit (sample k y.now) at × (is_aggregator (sample k y.now) at ≡ true) }
    ensures { result ≡ not (passed (first (λ q. included_fault (sample k y.now) (next (sample k y.now) at) q at_place q) (included (sample k y.now) at))) }
{
    let l = k.length_size;
    let n = l.bytes();
    let end = at + n + l.number(y, at);
    let mut q = at + n + LengthSize::HEADER + n;
    while q < end {
        let u = units::judge_included(k, y, ByteOffset(q), ByteOffset(end));
        if u.verdict.is_err() {
            return true;
        }
        q = q + n + u.size;
    }
    false
}

// Whether the aggregator at a place loses what it covers: 21, or a unit is dropped that it covers. One walk over these units, which ends at the
// first aggregator. So a top-level unit is walked over for one aggregator only, the nearest before it, and all these walks together pass over
// each unit of the sample at most once.
fn loses_cover(k: Track, y: &[u8], at: usize) -> bool
    requires { TopUnit (sample k y.now) at × (is_aggregator (sample k y.now) at ≡ true) }
    ensures { result ≡ loses_cover (sample k y.now) at }
{
    let l = k.length_size;
    let n = l.bytes();
    let end = at + n + l.number(y, at);
    let more = l.number(y, at + n + LengthSize::HEADER);
    if y.len() - end < more {
        return true;
    }
    let stop = end + more;
    let mut q = end;
    while q < stop {
        if units::type_at(k, y, ByteOffset(q)) == units::AGGREGATOR {
            return true;
        }
        if units::extractor_fault(k, y, ByteOffset(q)).is_err() {
            return true;
        }
        q = q + n + l.number(y, q);
    }
    q != stop
}

// What becomes of the unit at a place.
pub(crate) fn fate_of(k: Track, y: &[u8], at: usize) -> Fate
    requires { TopUnit (sample k y.now) at }
    ensures { result ≡ fate (sample k y.now) at }
{
    if units::type_at(k, y, ByteOffset(at)) != units::AGGREGATOR {
        if units::extractor_fault(k, y, ByteOffset(at)).is_err() {
            return Fate::Dropped;
        }
        return Fate::Kept;
    }
    if has_fault_inside(k, y, at) {
        return Fate::Dropped;
    }
    if loses_cover(k, y, at) {
        return Fate::Zeroed;
    }
    Fate::Kept
}
