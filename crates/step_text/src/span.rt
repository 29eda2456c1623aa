ghost use Rattle.std.specs.Prelude.{Some};
ghost use Rattle.step_text.specs.Names.{span_text};

use std::fmt;

/// So many numbers that follow one another, from `first` on. Two or more are written as
/// the first and the last with the joint between them, and fewer as `first` alone.
#[derive(Clone, Copy, Drop)]
pub(crate) struct Span {
    pub(crate) joint: &'static str,
    pub(crate) first: u64,
    pub(crate) count: u32,
}

impl fmt::Display for Span {
    ghost output = { λ span. Some (span_text span.joint.now span.first span.count) };

    fn fmt<W: fmt::Write>(&self, f: &mut fmt::Formatter<W>) -> fmt::Result {
        let first = self.first;
        if self.count < 2 {
            return write!(f, "{first}");
        }
        // The last number may have more than 64 bits.
        let last = first as u128 + (self.count - 1) as u128;
        let joint = self.joint;
        write!(f, "{first}{joint}{last}")
    }
}
