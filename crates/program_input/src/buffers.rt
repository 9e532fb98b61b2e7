// What of a buffer is used.
ghost use Rattle.std.specs.Prelude.{◌≡◌};
ghost use Rattle.program_input.specs.Input.{front};

// The first n bytes; all where there are fewer.
pub fn first(s: &[u8], n: usize) -> &[u8]
    ensures { result.now ≡ front s.now n }
{
    &s[..n.min(s.len())]
}
