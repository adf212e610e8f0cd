//! A law on explained transcripts.

ghost use Rattle.std.specs.Prelude.{◌↔◌, List, []};
ghost use Rattle.mail_audit.specs.declared.event.SlotEvent.{SlotEvent};
ghost use Rattle.mail_audit.specs.Explanations.{IsExplained};
ghost use Rattle.mail_audit.specs.EventPasses.{PassesFrom};

/// Events are explained exactly when they pass one by one.
pub fn explained_if_it_passes()
    ensures { (events : List SlotEvent) → IsExplained events ↔ PassesFrom [] [] events }
{}
