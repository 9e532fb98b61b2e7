// The argument of `./names` as a number.
ghost use Rattle.std.specs.Prelude.{◌≡◌, ◌≤◌};
ghost use Rattle.program_input.specs.Decimal.{with_digit, number_in};

// A number of more than 19 digits is read as the largest usize: both are past any sample.
const LARGE: usize = 1000000000000000000;

// A digit more at the end of a number.
fn with_digit(n: usize, c: u8) -> usize
    requires { (48 ≤ c) × (c ≤ 57) }
    ensures { result ≡ with_digit n c }
{
    // stays: saturating methods go on below the largest from 10^18 on, where the definition has the largest
    if LARGE <= n {
        return usize::MAX;
    }
    n * 10 + (c - b'0') as usize
}

// Decimal digits, at least one, as a number.
pub fn number_of(s: &[u8]) -> Option<usize>
    ensures { result ≡ number_in s.now }
{
    if s.is_empty() {
        return None;
    }
    let mut n = 0;
    for c in s {
        if !c.is_ascii_digit() {
            return None;
        }
        n = with_digit(n, *c);
    }
    Some(n)
}
