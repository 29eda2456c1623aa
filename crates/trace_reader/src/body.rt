ghost use Rattle.std.specs.Prelude.{◌≡◌, ◌<◌, ◌^◌, [], None, length};
ghost use Rattle.trace_reader.specs.Steps.{PutsSaying, trace_with};

use crate::refusal::ReadError;
use crate::saying::Saying;
use core_views::{Header, Item, Items, Line, Lines, Trace};
use std::alloc::Global;

/// What was read after the header.
#[derive(Drop)]
pub struct Body {
    pub lines: Vec<Line>,
    pub items: Vec<Item>,
    /// How many lines of actors stand above `go`, if it was there.
    pub go: Option<u32>,
}

impl Body {
    /// Nothing was read.
    pub fn new(alloc: Global) -> Self
        ensures lines { result.lines.items ≡ [] }
        ensures items { result.items.items ≡ [] }
        ensures go { result.go ≡ None }
    {
        Body {
            lines: Vec::new(alloc),
            items: Vec::new(alloc),
            go: None,
        }
    }

    /// Puts what line `number` says behind what those before it say.
    pub fn put(&mut self, number: u32, found: Option<Saying>) -> Result<(), ReadError>
        requires { length self.now.lines.items < 2 ^ 32 }
        ensures { PutsSaying self.old self.new number found result }
    {
        match found {
            None => {}
            Some(Saying::Does { actor, command }) => {
                let line = Line {
                    number,
                    actor,
                    command,
                };
                self.lines.push(line)?;
            }
            Some(Saying::Go) => self.go = Some(self.lines.len() as u32),
            Some(Saying::Schedules(item)) => self.items.push(item)?,
        }
        Ok(())
    }

    /// The trace of this header.
    pub fn under(self, header: Header) -> Trace
        ensures { result ≡ trace_with header self }
    {
        Trace {
            header,
            lines: Lines::from_vec(self.lines),
            go: self.go,
            items: Items::from_vec(self.items),
        }
    }
}
