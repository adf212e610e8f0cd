//! The arguments of STORE (RFC 9051, section 6.4.6; RFC 7162, section 3.1.3).

ghost use Rattle.std.specs.Prelude.{◌≡◌, codes};
ghost use Rattle.imap_grammar.specs.Reading.{IsReading, both, modifier_at, named_at, spaced};
ghost use Rattle.imap_grammar.specs.Reading.{store_flags_at};
ghost use Rattle.imap_grammar.specs.CommandReading.{store_at};
ghost use Rattle.imap_syntax.specs.Words.{store_actions, store_word};

use crate::fault::ParseFault;
use crate::flags::store_flags;
use crate::grammar_word::{GrammarWord, leading_word};
use crate::modifier::unchanged_since;
use crate::scan::space;
use crate::sets::spaced_set;
use imap_syntax::{Command, Store, StoreAction, StoreMode};
use imap_types::Flags;
use std::alloc::Global;

impl GrammarWord for StoreAction {
    ghost use Rattle.imap_syntax.specs.Words.{store_word};

    ghost word_of = { store_word };

    fn text(self) -> &'static [u8] {
        match self.mode {
            StoreMode::Replace => {
                if self.silent {
                    b"FLAGS.SILENT"
                } else {
                    b"FLAGS"
                }
            }
            StoreMode::Add => {
                if self.silent {
                    b"+FLAGS.SILENT"
                } else {
                    b"+FLAGS"
                }
            }
            StoreMode::Remove => {
                if self.silent {
                    b"-FLAGS.SILENT"
                } else {
                    b"-FLAGS"
                }
            }
        }
    }
}

/// The six actions of STORE.
const STORE_ACTIONS: [StoreAction; 6] = [
    StoreAction {
        mode: StoreMode::Replace,
        silent: false,
    },
    StoreAction {
        mode: StoreMode::Replace,
        silent: true,
    },
    StoreAction {
        mode: StoreMode::Add,
        silent: false,
    },
    StoreAction {
        mode: StoreMode::Add,
        silent: true,
    },
    StoreAction {
        mode: StoreMode::Remove,
        silent: false,
    },
    StoreAction {
        mode: StoreMode::Remove,
        silent: true,
    },
];

/// Reads the arguments of STORE: messages, UNCHANGEDSINCE, an action and flags (RFC 9051, section
/// 6.4.6; RFC 7162, section 3.1.3).
pub fn store(alloc: Global, by_uid: bool, octets: &[u8]) -> Result<(Command, &[u8]), ParseFault>
    ensures { IsReading (λ x. (x.0, x.1.now)) result (store_at by_uid octets.now) }
{
    let (messages, rest) = spaced_set(alloc, octets)?;
    match flag_change(alloc, rest) {
        Err(fault) => {
            drop(messages);
            Err(fault)
        }
        Ok(((unchanged_since, (action, flags)), rest)) => {
            let store = Store {
                by_uid,
                messages,
                unchanged_since,
                action,
                flags,
            };
            Ok((Command::Store(store), rest))
        }
    }
}

/// Reads how each message is to be changed.
fn flag_change(
    alloc: Global,
    octets: &[u8],
) -> Result<((Option<u64>, (StoreAction, Flags)), &[u8]), ParseFault>
    ensures { IsReading (λ x. (x.0, x.1.now)) result (both (modifier_at (codes "UNCHANGEDSINCE"))
        (spaced (both (named_at store_word store_actions) (spaced store_flags_at))) octets.now) }
{
    let (unchanged_since, rest) = unchanged_since(octets)?;
    let (action, rest) = store_action(space(rest)?)?;
    let (flags, rest) = store_flags(alloc, space(rest)?)?;
    Ok(((unchanged_since, (action, flags)), rest))
}

/// Reads FLAGS, +FLAGS or -FLAGS, with or without .SILENT.
fn store_action(octets: &[u8]) -> Result<(StoreAction, &[u8]), ParseFault>
    ensures { IsReading (λ x. (x.0, x.1.now)) result
        (named_at store_word store_actions octets.now) }
{
    leading_word(&STORE_ACTIONS, octets)
}
