// Which units can stand in a byte stream, and where they stop in one.
#![tactic(auto)]

ghost use Rattle.std.specs.Prelude.{◌≡◌};
ghost use Rattle.byte_streams.specs.Writing.{is_streamable};
ghost use Rattle.byte_streams.specs.Places.{unit_stop, zeros_end};

// Where the search for the end of a unit stops that starts at a place: where 00 00 00, 00 00 01 or 00 00 02 next stands, or the zeros at
// the end start. That is its end, but where a byte follows the zeros that may not: such a unit goes on.
pub fn unit_stop(s: &[u8], from: usize) -> usize
    ensures { result ≡ unit_stop s.now from }
{
    let n = s.len();
    if n <= from {
        return from;
    }
    let mut i = from;
    // stays: `while`, since a turn goes on by one, two or three bytes
    while 2 < n - i {
        // none of them stands at i, i + 1 or i + 2 where the third byte is above 02, at i or i + 1 where the second is above 00
        if 2 < s[i + 2] {
            i += 3;
        } else if s[i + 1] != 0 {
            i += 2;
        } else if s[i] != 0 {
            i += 1;
        } else {
            return i;
        }
    }
    // at most two bytes are left
    // stays: a `match` on `&s[i..]` by its last bytes gives the proof no fact on them that it could cite
    if n <= i {
        i
    } else if s[n - 1] != 0 {
        n
    } else if i + 1 < n && s[i] != 0 {
        i + 1
    } else {
        i
    }
}

// Where the zeros end that start at a place.
pub fn zeros_end(s: &[u8], from: usize) -> usize
    ensures { result ≡ zeros_end s.now from }
{
    // stays: `for p in from..s.len()` proves, and takes two fifths longer over zeros
    let mut p = from;
    while p < s.len() {
        if s[p] != 0 {
            return p;
        }
        p += 1;
    }
    p
}

// Whether a unit can stand in a byte stream: it is not empty, does not end in 00, and holds none of 00 00 00, 00 00 01, 00 00 02.
pub fn is_streamable(u: &[u8]) -> bool
    ensures { result ≡ is_streamable u.now }
{
    !u.is_empty() && unit_stop(u, 0) == u.len()
}
