// Answers requests from standard input, one line each. The form of a request is in tests/vectors/README.md.
#![tactic(auto)]

mod audited;
mod base;
mod bundle;
mod check;
mod entries;
mod from_stream;
mod named;
mod names;
mod parts;
mod print;
mod ranged;
mod record;
mod replace;
mod request;
mod resolve;
mod salvaged;
mod unit;
mod writerec;

use program_input::filled;
use std::io;
use std::io::{BufWriter, Read, Write};

// At most this many requests are answered: a proved loop has to end, and nothing says that the input does.
const REQUESTS: usize = 1000000;

// Answers a request: its kind, then its fields.
fn answer<W: Write>(to: &mut W, s: &[u8]) -> io::Result<()> {
    let kind = numbers::byte(s, 0);
    let fields = request::skip(s, 1);
    match kind {
        1 => record::answer(to, fields),
        2 => writerec::answer(to, fields),
        3 => check::answer(to, fields),
        4 => bundle::answer(to, fields),
        5 => resolve::resolve(to, fields),
        6 => unit::answer(to, fields),
        7 => names::answer(to, fields),
        8 => replace::answer(to, fields),
        9 => audited::answer(to, fields),
        10 => report::print_audit(to, request::bytes(fields)),
        11 => entries::counts(to, fields),
        12 => entries::track(to, fields),
        13 => entries::reference(to, fields),
        14 => entries::sample(to, fields),
        15 => parts::answer(to, fields),
        16 => named::answer(to, fields),
        17 => resolve::stream(to, fields),
        18 => from_stream::answer(to, fields),
        19 => base::answer(to, fields),
        20 => salvaged::sample(to, fields),
        21 => salvaged::bundle(to, fields),
        22 => ranged::answer(to, fields),
        _ => print::line(to, b"unknown request"),
    }
}

// Answers the next request, and says whether there may be one more. Each answer is out before the next request is read.
fn answer_next<R: Read, W: Write>(reader: &mut R, to: &mut W) -> io::Result<bool> {
    let mut head = [0u8; 4];
    let got = filled::read_full(reader, &mut head)?;
    if got == 0 {
        return Ok(false);
    }
    if got < 4 {
        print::line(to, b"request cut")?;
        return Ok(false);
    }
    let n = u32::from_be_bytes(head) as usize;
    let mut buffer = [0u8; 65536];
    if buffer.len() < n {
        print::line(to, b"request too long")?;
        return Ok(false);
    }
    if filled::read_full(reader, &mut buffer[..n])? < n {
        print::line(to, b"request cut")?;
        return Ok(false);
    }
    answer(to, &buffer[..n])?;
    to.flush()?;
    Ok(true)
}

fn main(rt: HostRuntime) -> io::Result<()> {
    let mut reader = rt.reader();
    let mut to = BufWriter::new(rt.alloc(), io::writer(&rt))?;
    for _ in 0..REQUESTS {
        if !answer_next(&mut reader, &mut to)? {
            return to.flush();
        }
    }
    print::line(&mut to, b"too many requests")?;
    to.flush()
}
