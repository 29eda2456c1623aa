//! What a seat of the table knows, and the rule of the table.
use atomic_table::{Join, Play, Split, TableRule};
use std::marker::{Brand, Model, PhantomData};
use step_seats::Closing;

/// What a seat of the table knows. No value of it is made.
pub struct View {
    marker: PhantomData<()>,
}

impl Model for View {
    ghost use Rattle.table_seats.specs.Rule.{spent};
    ghost use Rattle.table_seats.specs.Passes.{Known};

    ghost Value = { Known };

    ghost view = { λ _. spent };
}

/// The rule of the table: its words, and the hands in the views of its seats, are those of
/// one list of enabled steps. Its key is the words and hands with which it began.
pub struct Law;

impl TableRule<(), View, Closing> for Law {
    ghost use Rattle.mmu_core.specs.machine.Enabled.{mmu};
    ghost use Rattle.table_seats.specs.Boards.{begun};
    ghost use Rattle.table_seats.specs.Rule.{Kept, first_view};

    ghost holds = { λ m s. Kept mmu (begun m) s.words s.views };

    ghost first = { λ m. first_view (begun m) };
}

/// Which actor makes a step, with which hand, and which step it is: a call of the table picks them.
pub trait Chosen {
    ghost use Rattle.core_views.specs.Held.{Held};
    ghost use Rattle.core_views.specs.declared.kind.Kind.{Kind};
    ghost use Rattle.std.specs.Prelude.{ℕ};

    ghost actor: { ℕ };

    ghost hand: { Held };

    ghost kind: { Kind };
}

impl Chosen for Brand {
    ghost use Rattle.mmu_core.specs.machine.Steps.{nobody};

    ghost actor = { 0 };

    ghost hand = { nobody };

    ghost kind = { record { code = 0; word = 0; old = 0; new = 0; note = 0 } };
}

/// The call that makes the step that was chosen.
pub struct Does<J> {
    chosen: PhantomData<J>,
}

impl<J: Chosen> Play<(), View> for Does<J> {
    ghost use Rattle.mmu_core.specs.machine.Enabled.{mmu};
    ghost use Rattle.std.specs.Prelude.{◌≡◌};
    ghost use Rattle.table_seats.specs.Rule.{Acted};

    ghost then = { λ st m n m2. Acted mmu J.actor J.hand J.kind m.0 n m2.0 × (m2.1 ≡ m.1) };
}

/// The hand of the actor that was chosen goes to a seat of its own.
pub struct Cuts<J> {
    chosen: PhantomData<J>,
}

impl<J: Chosen> Split<View> for Cuts<J> {
    ghost use Rattle.table_seats.specs.Rule.{with_only, without};

    ghost left = { without J.actor };

    ghost right = { with_only J.actor };
}

/// The hands of two seats come together.
pub struct Glues;

impl Join<View> for Glues {
    ghost use Rattle.table_seats.specs.Rule.{joined, spent};

    ghost both = { joined };

    ghost spent = { spent };
}
