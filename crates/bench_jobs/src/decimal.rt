//! Numbers in decimal.
use anyhow::Result;

/// Appends the digits of a number.
pub fn push_decimal(text: &mut Vec<u8>, number: u32) -> Result<()> {
    let mut digits = [b'0'; 10];
    let mut rest = number;
    for digit in digits.iter_mut().rev() {
        *digit = b'0' + (rest % 10) as u8;
        rest /= 10;
    }
    let mut first = 0usize;
    for digit in digits.iter().take(9) {
        if *digit != b'0' {
            break;
        }
        first = first.wrapping_add(1);
    }
    text.extend_from_slice(digits.get(first..).unwrap_or(&[]))?;
    Ok(())
}
