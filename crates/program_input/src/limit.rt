// The limit of the programs' input.
ghost use Rattle.std.specs.Prelude.{◌≡◌, false, ◌<◌, Ok, IfSome, IfOk, length};
ghost use Rattle.program_input.specs.Input.{input_most, too_big};

use crate::filled;
use std::io;
use std::io::Read;

// How many bytes the programs take.
pub const MOST: usize = 65536;

// Whether input is too big of which n bytes were read into a buffer of that size, and then `more` bytes.
pub fn too_big(n: usize, more: usize) -> bool
    ensures { result ≡ too_big n more }
{
    MOST <= n && 0 < more
}

// Whether the reader's input, of which n bytes were read, has more than the programs take. It has not where n is smaller, and no read is
// tried then; where n is not, that goes by whether one byte more can be read, which is known of a reader whose bytes are known.
// The only error is that of the read; what it leaves of the reader's bytes is the reader's own affair, and nothing else is lent.
pub fn is_too_big<R: Read>(reader: &mut R, n: usize) -> io::Result<bool>
    ensures small { n < input_most → result ≡ Ok false }
    ensures unread { n < input_most → reader.new ≡ reader.old }
    ensures known { IfSome (R.remaining reader.old) (λ s. IfOk result (λ r. r ≡ too_big n (length s))) }
{
    let more = if MOST <= n {
        filled::read_full(reader, &mut [0; 1])?
    } else {
        0
    };
    Ok(too_big(n, more))
}
