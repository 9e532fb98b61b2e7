// The fields of a request: numbers of 8 bytes, and byte strings after their 4-byte length. What is not there reads as 0 or as no bytes.

// n bytes from a place on; none where they do not fit.
pub(crate) fn part(s: &[u8], at: usize, n: usize) -> &[u8] {
    skip(s, at).get(..n).unwrap_or(&[])
}

// What follows n bytes.
pub(crate) fn skip(s: &[u8], n: usize) -> &[u8] {
    s.get(n..).unwrap_or(&[])
}

// The number that follows i numbers.
pub(crate) fn number(s: &[u8], i: u8) -> usize {
    numbers::number(s, i as usize * 8, 8)
}

// What follows i numbers.
pub(crate) fn skip_numbers(s: &[u8], i: u8) -> &[u8] {
    skip(s, i as usize * 8)
}

// The byte string at the start.
pub(crate) fn bytes(s: &[u8]) -> &[u8] {
    part(s, 4, numbers::number(s, 0, 4))
}

// What follows the byte string at the start.
pub(crate) fn skip_bytes(s: &[u8]) -> &[u8] {
    skip(skip(s, 4), numbers::number(s, 0, 4))
}

// A number as a u32: one that is too large is the largest u32.
pub(crate) fn as_u32(n: usize) -> u32 {
    u32::try_from(n).unwrap_or(u32::MAX)
}
