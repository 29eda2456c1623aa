ghost use Rattle.weave_laws.specs.Determined.{ReplaysAreDetermined, StartsAreOne, StepsAreDetermined, TextsAreDetermined};
ghost use Rattle.weave_laws.specs.ExampleLostWrite.{LostWriteIsTrace, LostWriteWeaves};
ghost use Rattle.weave_laws.specs.ExampleWeave.{ExampleIsTrace, ExampleWeaves};

/// A law about weaves and replays: a trace and a limit of rounds leave nothing open. A trace has
/// one start (`starts`). Two lists of steps that may be made from it, and that follow all of the
/// trace, its schedule and its rounds, are one list (`steps`); so two whole texts of a weave are
/// one text, and lead to one world (`texts`). So it is with replays (`replays`).
pub fn weaves_are_determined()
    ensures starts { StartsAreOne }
    ensures steps { StepsAreDetermined }
    ensures texts { TextsAreDetermined }
    ensures replays { ReplaysAreDetermined }
{}

/// A law about two closed traces. In the first one a schedule cuts three lines in the middle, and
/// the rounds finish them (`trace`). The second one is a race: two processors write a page of a
/// slot with a dirty log, which is read between (`lost_write`). The turns of each are those of
/// these actors, in this order, and its text is this one, whatever the limit of the turns in
/// rounds, where these fit; and no weave of it has another text (`weaves`, `lost_write_weaves`).
/// So the definition of a weave refuses a machine that ends an item a turn early or late, or goes
/// round in another order.
pub fn closed_weaves_print()
    ensures trace { ExampleIsTrace }
    ensures weaves { ExampleWeaves }
    ensures lost_write { LostWriteIsTrace }
    ensures lost_write_weaves { LostWriteWeaves }
{}
