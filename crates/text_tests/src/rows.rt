//! What stands in the rows of a table.
use std::alloc::{AllocError, Global};

// The number that the word is: in decimal digits, or in hex after `0x`.
fn number(word: &str) -> Option<u64> {
    match word.strip_prefix("0x") {
        Some(digits) => u64::from_str_radix(digits, 16).ok(),
        None => word.parse::<u64>().ok(),
    }
}

/// The numbers among the words of a row.
pub fn numbers(alloc: Global, row: &str) -> Result<Vec<u64>, AllocError> {
    let mut numbers = Vec::new(alloc);
    for word in row.split(' ') {
        if let Some(number) = number(word) {
            numbers.push(number)?;
        }
    }
    Ok(numbers)
}

/// The first word of a row.
pub fn verb(row: &str) -> &str {
    match row.split_once(' ') {
        Some((verb, _)) => verb,
        None => row,
    }
}
