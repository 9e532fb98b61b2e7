// The request `replace`: the bytes of a bundle, a sample number, and bytes to put in place of the sample's. Every other sample that has no
// entry in the sample's naming list must resolve to the same answer and the same output as before.
use crate::{print, request};
use numbers::SampleNumber;
use std::io;
use std::io::Write;

// The size of an entry of the naming list, and of the sample number in it.
const ENTRY_SIZE: usize = 6;

const SAMPLE_SIZE: usize = 2;

// Whether sample n resolves alike in two bundles, into two buffers that are alike.
fn resolves_alike(b: &[u8], c: &[u8], n: SampleNumber) -> bool {
    let mut one = [print::FILL; print::ROOM];
    let mut two = [print::FILL; print::ROOM];
    let x = resolution::resolve(b, n, &mut one);
    let y = resolution::resolve(c, n, &mut two);
    x == y && one == two
}

// Whether a naming list has an entry of sample n.
fn is_listed(list: &[u8], n: usize) -> bool {
    list.chunks(ENTRY_SIZE)
        .any(|entry| numbers::number(entry, 0, SAMPLE_SIZE) == n)
}

// The samples of two bundles compared, all but sample s and those that its naming list has.
fn compare<W: Write>(
    to: &mut W,
    b: &[u8],
    c: &[u8],
    total: usize,
    s: usize,
    list: &[u8],
) -> io::Result<()> {
    let mut compared: usize = 0;
    let mut listed: usize = 0;
    for n in 1..=total {
        if is_listed(list, n) {
            listed += 1;
        } else if n != s {
            if !resolves_alike(b, c, SampleNumber(n)) {
                return write!(to, "DIFFERS {n}");
            }
            compared += 1;
        }
    }
    write!(to, "OK {compared} {listed}")
}

// A byte of the copy: one of those given, over and over, in the n bytes from a place on, and the bundle's own elsewhere. Where none are given,
// zeros.
fn byte_at(b: &[u8], at: usize, n: usize, given: &[u8], i: usize) -> u8 {
    if i < at || n <= i - at {
        numbers::byte(b, i)
    } else if given.is_empty() {
        0
    } else {
        numbers::byte(given, (i - at) % given.len())
    }
}

// The copy of a bundle with n bytes from a place on replaced.
fn copy(b: &[u8], at: usize, n: usize, given: &[u8], out: &mut [u8]) {
    for (i, x) in out.iter_mut().enumerate() {
        *x = byte_at(b, at, n, given, i);
    }
}

// The copy c of an accepted bundle with other bytes in place of sample s, against the bundle and its naming list of s.
fn print_compared<W: Write>(
    to: &mut W,
    b: &[u8],
    c: &[u8],
    total: usize,
    s: usize,
    list: &[u8],
) -> io::Result<()> {
    let mut other = [print::FILL; print::ROOM];
    if bundles::check_bundle(c).is_err() {
        return print::text(to, b"COPY REFUSED");
    }
    let Ok(n) = naming_list::names(c, SampleNumber(s), &mut other) else {
        return print::text(to, b"LIST REFUSED");
    };
    if list != request::part(&other, 0, n) {
        return print::text(to, b"LIST DIFFERS");
    }
    compare(to, b, c, total, s, list)
}

// Puts the given bytes in place of sample s in a copy of the bundle, which the table t was filled from, and compares.
fn replace<W: Write>(
    to: &mut W,
    b: &[u8],
    t: &[u64],
    s: usize,
    given: &[u8],
    list: &[u8],
) -> io::Result<()> {
    let mut buffer = [0u8; 65536];
    let start = sample_tables::sample_start(t, SampleNumber(s));
    let x = sample_tables::sample_bytes(b, t, SampleNumber(s));
    copy(b, start.0, x.len(), given, &mut buffer);
    print_compared(
        to,
        b,
        request::part(&buffer, 0, b.len()),
        sample_tables::sample_count(t),
        s,
        list,
    )
}

pub(crate) fn answer<W: Write>(to: &mut W, fields: &[u8]) -> io::Result<()> {
    let b = request::bytes(fields);
    let rest = request::skip_bytes(fields);
    let s = request::number(rest, 0);
    let given = request::bytes(request::skip_numbers(rest, 1));
    let mut list = [print::FILL; print::ROOM];
    let mut t = [0u64; tables::TABLE_SIZE];
    // where the bundle is refused, so is the list
    let _ = filling::fill_table(b, &mut t);
    match naming_list::names(b, SampleNumber(s), &mut list) {
        Err(r) => print::refusal(to, r)?,
        Ok(n) => replace(to, b, &t, s, given, request::part(&list, 0, n))?,
    }
    print::end(to)
}
