// The naming list of a sample as text.
use crate::text;
use numbers::SampleNumber;
use program_input::{buffers, limit};
use std::io;
use std::io::Write;

// An entry, as `sample 2 at 0`.
fn print_entry<W: Write>(to: &mut W, entry: &[u8]) -> io::Result<()> {
    let e = naming_list::entry_of(entry);
    writeln!(to, "sample {} at {}", e.sample.0, e.place.0)
}

// A line an entry.
fn print_list<W: Write>(to: &mut W, list: &[u8]) -> io::Result<()> {
    for entry in list.chunks_exact(naming_list::ENTRY_SIZE) {
        print_entry(to, entry)?;
    }
    Ok(())
}

// Prints a line for each extractor that names sample s, or a refusal. The room is enough for a bundle of 65,536 bytes: an extractor takes at
// least 9 of them, and its entry 6.
pub fn print_names<W: Write>(to: &mut W, b: &[u8], s: SampleNumber) -> io::Result<()> {
    let mut list = [0u8; limit::MOST];
    match naming_list::names(b, s, &mut list) {
        Err(r) => text::refused(to, r),
        Ok(n) => print_list(to, buffers::first(&list, n)),
    }
}
