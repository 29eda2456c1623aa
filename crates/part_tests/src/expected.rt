//! What the tests of this crate expect.
use std::process::Abort;

/// So many rows of the table with this name came out as they stand there.
pub fn expect<R: Abort>(rt: &R, name: &str, rows: usize, count: usize) {
    assert_eq!(rt; (name, rows), (name, count));
}

/// What has this name is so.
pub fn expect_so<R: Abort>(rt: &R, name: &str, is_so: bool) {
    assert_eq!(rt; (name, is_so), (name, true));
}
