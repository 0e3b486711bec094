// Numbers at fixed places of a line. Every function answers for every line, however short: past its end
// a line reads as zero bytes.

pub fn byte_at(line: &[u8], i: usize) -> u8 {
    line.get(i).copied().unwrap_or(0)
}

// The value of a digit, decimal or hex in lower case.
fn digit(c: u8) -> Option<u64> {
    match c {
        b'0'..=b'9' => Some(u64::from(c - b'0')),
        b'a'..=b'f' => Some(u64::from(c - b'a') + 10),
        _ => None,
    }
}

// A number with one more digit. After a byte that is none, it stays above all numbers of 32 bits, and
// as the bits of an f64 it is a NaN.
fn appended(value: u64, base: u64, c: u8) -> u64 {
    match digit(c) {
        Some(d) if d < base => (value % 0x1000_0000_0000_0000)
            .wrapping_mul(base)
            .wrapping_add(d),
        _ => u64::MAX,
    }
}

// The number at from..to, in base 10 or 16. No slice of the line: past its end it reads as zero bytes.
pub fn number(line: &[u8], from: usize, to: usize, base: u64) -> u64 {
    (from..to).fold(0, |value, i| appended(value, base, byte_at(line, i)))
}

// The same where 32 bits hold it, else the most that they hold: no rate in limits, and the bits of a NaN.
pub fn small_number(line: &[u8], from: usize, to: usize, base: u64) -> u32 {
    u32::try_from(number(line, from, to, base)).unwrap_or(u32::MAX)
}
