// After the first walk of the check, one pass over the top-level units judges what the new sample and the list of changes come to, and one writes
// both, asking again what becomes of each unit: there is no room to keep it.
ghost use Rattle.std.specs.Prelude.{◌≡◌, ◌+◌, ◌*◌, ◌≤◌, ◌<◌, length};
ghost use Rattle.words.specs.Tests.{◌<?◌, ◌when◌else◌, pick};
ghost use Rattle.words.specs.Refusals.{ok};
ghost use Rattle.words.specs.Buffers.{put, overwrite};
ghost use Rattle.units.specs.Units.{sample, next};
ghost use Rattle.samples.specs.Check.{top_verdict};
ghost use Rattle.salvage_rules.specs.Salvage.{a_drop, change, first_fault, fate, new_bytes, change_at, new_content, salvaged, changes, change_size, change_bytes, change_list_bytes};
ghost use Rattle.salvage_rules.specs.Calls.{listable_most};
ghost use Rattle.salvage.specs.Steps.{TopUnit, left_size, list_size, list_from};

use crate::fates;
use numbers::{LengthSize, PLACE_SIZE};
use salvage_rules::Fate;
use units::Track;

// The changes that are listed: 1 byte, then the place.
const DROP: u8 = 1;

const ZEROING: u8 = 2;

const CHANGE_SIZE: usize = 1 + PLACE_SIZE;

// How many bytes the new sample and the list have.
#[derive(Clone, Copy)]
struct Sizes {
    sample: usize,
    changes: usize,
}

// The same, and where the first top-level fault is, or the end.
#[derive(Clone, Copy)]
pub(crate) struct Plan {
    pub fault: usize,
    pub sample: usize,
    pub changes: usize,
}

// How many bytes are left of a unit of so many bytes, and how many are listed of it.
fn left_size(f: Fate, size: usize) -> usize
    ensures { result ≡ left_size f size }
{
    match f {
        Fate::Kept => size,
        Fate::Dropped => 0,
        Fate::Zeroed => size,
    }
}

fn list_size(f: Fate) -> usize
    ensures { result ≡ list_size f }
{
    match f {
        Fate::Kept => 0,
        Fate::Dropped => CHANGE_SIZE,
        Fate::Zeroed => CHANGE_SIZE,
    }
}

// What the units of a sample whose top-level units are whole come to.
fn measure(k: Track, y: &[u8]) -> Sizes
    requires { (top_verdict (sample k y.now) ≡ ok tt) × (length y.now ≤ listable_most) }
    ensures { (result.sample ≡ length (new_content (sample k y.now))) × (result.changes ≡ length (list_from (sample k y.now) 0))
        × (result.changes ≤ change_size * length y.now) }
{
    let l = k.length_size;
    let n = l.bytes();
    let mut left: usize = 0;
    let mut listed: usize = 0;
    let mut at: usize = 0;
    while at < y.len() {
        let end = at + n + l.number(y, at);
        let f = fates::fate_of(k, y, at);
        left += left_size(f, end - at);
        listed += list_size(f);
        at = end;
    }
    Sizes {
        sample: left,
        changes: listed,
    }
}

// Where the first top-level fault is, or the end.
fn first_fault(k: Track, s: &[u8]) -> usize
    ensures { result ≡ first_fault (sample k s.now) }
{
    match samples::check_top(k, s) {
        Ok(()) => s.len(),
        Err(r) => r.place.0,
    }
}

// How many bytes are listed of what stands from the first top-level fault on, in a sample of so many bytes.
fn tail_size(fault: usize, size: usize) -> usize
    ensures { result ≡ (change_size when fault <? size else 0) }
{
    if fault < size {
        return CHANGE_SIZE;
    }
    0
}

// What a sample comes to.
pub(crate) fn plan_of(k: Track, s: &[u8]) -> Plan
    requires { length s.now ≤ listable_most }
    ensures { (result.fault ≡ first_fault (sample k s.now)) × (result.sample ≡ length (salvaged (sample k s.now)).content)
        × (result.changes ≡ length (change_list_bytes (changes (sample k s.now)))) }
{
    let fault = first_fault(k, s);
    let m = measure(k, &s[..fault]);
    let listed = m.changes + tail_size(fault, s.len());
    Plan {
        fault,
        sample: m.sample,
        changes: listed,
    }
}

// What is left of the unit from one place to another, over a buffer that has room for it.
fn put_unit(out: &mut [u8], o: usize, k: Track, y: &[u8], at: usize, end: usize, f: Fate)
    requires { TopUnit (sample k y.now) at × (end ≡ next (sample k y.now) at) × (f ≡ fate (sample k y.now) at)
        × (o + length (new_bytes (sample k y.now) at) ≤ length out.old) }
    ensures { out.new ≡ put out.old o (new_bytes (sample k y.now) at) }
{
    match f {
        Fate::Dropped => {}
        Fate::Kept => {
            numbers::put_bytes(out, o, &y[at..end]);
        }
        Fate::Zeroed => {
            let l = k.length_size;
            let n = l.bytes();
            let head = n + LengthSize::HEADER;
            let field = at + head;
            let rest = field + n;
            numbers::put_bytes(out, o, &y[at..field]);
            numbers::put_number(out, o + head, n, 0);
            numbers::put_bytes(out, o + head + n, &y[rest..end]);
        }
    }
}

// A change over a list that has room for it.
fn put_change(list: &mut [u8], c: usize, what: u8, place: usize)
    requires { c + change_size ≤ length list.old }
    ensures { list.new ≡ put list.old c (change_bytes (change what place)) }
{
    numbers::put_number(list, c, 1, what as usize);
    numbers::put_number(list, c + 1, PLACE_SIZE, place);
}

// What is listed of the unit at a place, over a list that has room for it.
fn put_fate(list: &mut [u8], c: usize, k: Track, y: &[u8], at: usize, f: Fate)
    requires { (f ≡ fate (sample k y.now) at) × (c + list_size f ≤ length list.old) }
    ensures { list.new ≡ put list.old c (change_list_bytes (change_at (sample k y.now) at)) }
{
    match f {
        Fate::Kept => {}
        Fate::Dropped => {
            put_change(list, c, DROP, at);
        }
        Fate::Zeroed => {
            put_change(list, c, ZEROING, at);
        }
    }
}

// What is left of the units of a sample whose top-level units are whole, and what is listed of them, over buffers that have room: how many bytes
// are listed.
fn write_units(k: Track, y: &[u8], out: &mut [u8], list: &mut [u8]) -> usize
    requires { (top_verdict (sample k y.now) ≡ ok tt) × (length (new_content (sample k y.now)) ≤ length out.old)
        × (length (list_from (sample k y.now) 0) ≤ length list.old) }
    ensures { (result ≡ length (list_from (sample k y.now) 0))
        × (out.new ≡ overwrite out.old (new_content (sample k y.now)))
        × (list.new ≡ overwrite list.old (list_from (sample k y.now) 0)) }
{
    let l = k.length_size;
    let n = l.bytes();
    let mut o: usize = 0;
    let mut c: usize = 0;
    let mut at: usize = 0;
    while at < y.len() {
        let end = at + n + l.number(y, at);
        let f = fates::fate_of(k, y, at);
        put_unit(out, o, k, y, at, end, f);
        put_fate(list, c, k, y, at, f);
        o += left_size(f, end - at);
        c += list_size(f);
        at = end;
    }
    c
}

// The drop of what stands from the first top-level fault on, over a list that has room for it.
fn put_tail(list: &mut [u8], c: usize, fault: usize, size: usize)
    requires { fault < size → c + change_size ≤ length list.old }
    ensures { list.new ≡ pick (fault <? size) (put list.old c (change_bytes (change a_drop fault))) list.old }
{
    if fault < size {
        put_change(list, c, DROP, fault);
    }
}

// The new sample and the list of changes, over buffers that have room for them.
pub(crate) fn write(k: Track, s: &[u8], fault: usize, out: &mut [u8], list: &mut [u8])
    requires { (fault ≡ first_fault (sample k s.now)) × (length (salvaged (sample k s.now)).content ≤ length out.old)
        × (length (change_list_bytes (changes (sample k s.now))) ≤ length list.old) }
    ensures { (out.new ≡ overwrite out.old (salvaged (sample k s.now)).content)
        × (list.new ≡ overwrite list.old (change_list_bytes (changes (sample k s.now)))) }
{
    let c = write_units(k, &s[..fault], out, list);
    put_tail(list, c, fault, s.len());
}
