// Audits the bundle on standard input, of at most 65,536 bytes.
#![tactic(auto)]

use program_input::{filled, limit};
use std::io;
use std::io::{BufWriter, Write};

fn main(rt: HostRuntime) -> io::Result<()> {
    let mut reader = rt.reader();
    let mut to = BufWriter::new(rt.alloc(), io::writer(&rt))?;
    let mut buffer = [0u8; limit::MOST];
    let n = filled::read_full(&mut reader, &mut buffer)?;
    if limit::is_too_big(&mut reader, n)? {
        report::print_too_big(&mut to)?;
        return to.flush();
    }
    report::print_audit(&mut to, &buffer[..n])?;
    to.flush()
}
