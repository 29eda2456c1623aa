ghost use Rattle.std.specs.Prelude.{◌≡◌};
ghost use Rattle.trace_reader.specs.Reasons.{reason_name};

/// Why a line is refused: the first check that it fails, in this order.
#[derive(Clone, Copy, Drop)]
pub enum Reason {
    /// More than 16,777,216 bytes of input stand up to its end, its LF counted.
    Size,
    /// Its number is above 1,000,000.
    Lines,
    /// It has bytes and no LF.
    Cut,
    /// It has more than 65,536 bytes before its LF.
    Long,
    /// One of its bytes is outside 0x20 to 0x7e.
    Byte,
    /// It is line 1 and not the header.
    Header,
    /// Its words are of no form that such a line may have.
    Word,
    /// It is of a form, and the header does not declare its actor.
    Actor,
    /// One of its numbers is not spelled as one, or is out of its range.
    Number,
}

impl Reason {
    /// The word that is printed for it.
    pub fn name(self) -> &'static str
        ensures { result.now ≡ reason_name self }
    {
        match self {
            Reason::Size => "size",
            Reason::Lines => "lines",
            Reason::Cut => "cut",
            Reason::Long => "long",
            Reason::Byte => "byte",
            Reason::Header => "header",
            Reason::Word => "word",
            Reason::Actor => "actor",
            Reason::Number => "number",
        }
    }
}
