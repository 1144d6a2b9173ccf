/// The digest of nothing (FNV-1a, 64 bits).
pub const EMPTY: u64 = 0xcbf2_9ce4_8422_2325;

/// A digest that goes on by one byte.
fn step(sum: u64, byte: u8) -> u64 {
    (sum ^ u64::from(byte)).wrapping_mul(0x0000_0100_0000_01b3)
}

/// A digest that goes on by bytes.
fn go_on_by(sum: u64, bytes: &[u8]) -> u64 {
    bytes.iter().fold(sum, |sum, byte| step(sum, *byte))
}

/// A digest that goes on by the number of a status, its line and a text.
pub fn go_on(sum: u64, number: u8, line: &[u8], text: &[u8]) -> u64 {
    go_on_by(go_on_by(step(sum, number), line), text)
}
