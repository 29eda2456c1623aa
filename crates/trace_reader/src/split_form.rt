ghost use Rattle.std.specs.Prelude.{◌≡◌, ◌<◌, ◌^◌, map, IfOk};
ghost use Rattle.core_views.specs.Traces.{IsCommandOf};
ghost use Rattle.trace_reader.specs.Operands.{guest_frame, worker};
ghost use Rattle.trace_reader.specs.Forms.{split_form};

use crate::Reason;
use crate::form::index_of;
use crate::number::number;
use core_views::{Actor, Command, Header};

#[tactic(auto, unfolding(crate::specs::Operands::worker))]
fn worker_of(header: &Header, word: &[u8]) -> Result<u8, Reason>
    ensures value { result ≡ worker header.now word.now }
    ensures small { IfOk result (λ n. n < header.now.workers) }
{
    index_of(b'w', 3, header.workers as u64, word)
}

#[tactic(auto, unfolding(crate::specs::Operands::guest_frame))]
fn guest_frame_of(word: &[u8]) -> Result<u64, Reason>
    ensures value { result ≡ guest_frame word.now }
    ensures small { IfOk result (λ n. n < 2 ^ 36) }
{
    match number(word) {
        Some(gfn) if gfn < 1 << 36 => Ok(gfn),
        _ => Err(Reason::Number),
    }
}

/// What the words of `wN split GFN` say.
#[tactic(auto, unfolding(crate::specs::Forms::split_form))]
pub fn split_said(header: &Header, who: &[u8], rest: &[&[u8]]) -> Result<(Actor, Command), Reason>
    ensures value { result ≡ split_form header.now who.now (map (λ w. w.now) rest.now) }
    ensures allowed { IfOk result (λ x. IsCommandOf header.now x.0 x.1) }
{
    let [gfn] = rest else {
        return Err(Reason::Word);
    };
    let index = worker_of(header, who)?;
    let gfn = guest_frame_of(gfn)?;
    Ok((Actor::Worker(index), Command::Split { gfn }))
}
