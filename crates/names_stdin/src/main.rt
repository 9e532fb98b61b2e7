// Prints which extractors name a sample: the number of the sample is the argument, the bundle is on standard input, of at most 65,536 bytes.
#![tactic(auto)]

use numbers::SampleNumber;
use program_input::{decimal, filled, limit};
use std::env::Env;
use std::io;
use std::io::{BufWriter, Write};

// The first argument. One that is missing or longer than 4,096 bytes is no number.
fn argument(rt: &impl Env) -> Option<usize> {
    let mut word = [0u8; 4096];
    let n = rt.arg(1, &mut word).ok()?;
    decimal::number_of(&word[..n])
}

// The naming list of sample s of the bundle on standard input.
fn print_names<W: Write>(rt: &impl Input, to: &mut W, s: SampleNumber) -> io::Result<()> {
    let mut reader = rt.reader();
    let mut buffer = [0u8; limit::MOST];
    let n = filled::read_full(&mut reader, &mut buffer)?;
    if limit::is_too_big(&mut reader, n)? {
        return report::print_too_big(to);
    }
    report::print_names(to, &buffer[..n], s)
}

fn main(rt: HostRuntime) -> io::Result<()> {
    let Some(n) = argument(&rt) else {
        return rt.eprintln("usage: names NUMBER < BUNDLE");
    };
    let mut to = BufWriter::new(rt.alloc(), io::writer(&rt))?;
    print_names(&rt, &mut to, SampleNumber(n))?;
    to.flush()
}
