/// A number in decimal or, after `0x`, in hex; 0 where there is none.
pub fn number(text: Option<&str>) -> u64 {
    let Some(text) = text else {
        return 0;
    };
    let read = match text.strip_prefix("0x") {
        Some(digits) => u64::from_str_radix(digits, 16),
        None => text.parse::<u64>(),
    };
    read.unwrap_or(0)
}

/// The same as a place; one past 2^32 is 2^32.
pub fn place(text: Option<&str>) -> usize {
    number(text).min(0x1_0000_0000) as usize
}

/// The same as a byte; a number past 255 is 255.
pub fn byte(text: Option<&str>) -> u8 {
    number(text).min(255) as u8
}
