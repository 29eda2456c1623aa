//! What threads may do with a board and its passes.
use crate::{Board, Pass};

// Threads may share the first, and each may take one of the second with it.
fn cross<B: Send + Sync, P: Send>(_board: &B, _pass: &P) {}

/// Shows that threads may share a board, and that a pass may go to another thread.
pub fn cross_threads(board: &Board, pass: &Pass) {
    cross(board, pass);
}
