//! What a call of a migration is answered at once, by the slots.
ghost use Rattle.std.specs.Prelude.{◌≡◌, Some};
ghost use Rattle.core_views.specs.Migrations.{call_answer, is_running, is_stopped};

use crate::SlotSet;
use core_views::{Answer, Migration, MigrationCall, Refusal};

impl SlotSet {
    /// What a line of a migration is answered that has nothing to do, and isn't barred: it is
    /// refused, or, where there is no slot, a round has copied no page.
    pub fn call_answer(&self, migration: Migration, call: MigrationCall) -> Option<Answer>
        ensures { result ≡ call_answer self.now migration call }
    {
        match call {
            MigrationCall::Start if self.are_logged() => None,
            MigrationCall::Start => Some(Answer::Refused(Refusal::NotLogged)),
            MigrationCall::Round if !migration.is_running() => {
                Some(Answer::Refused(Refusal::NotStarted))
            }
            MigrationCall::Round if self.is_empty() => Some(Answer::Copied(0)),
            MigrationCall::Round => None,
            MigrationCall::Finish if migration.is_running() => None,
            MigrationCall::Resume if migration.is_stopped() => None,
            MigrationCall::Finish | MigrationCall::Resume => {
                Some(Answer::Refused(Refusal::NotStarted))
            }
        }
    }
}
