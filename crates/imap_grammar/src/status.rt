//! The items of STATUS (RFC 9051, section 6.3.11; RFC 7162, section 3.1.7).

ghost use Rattle.std.specs.Prelude.{◌≡◌};
ghost use Rattle.imap_grammar.specs.Reading.{IsReading, named_at};
ghost use Rattle.imap_syntax.specs.Words.{status_items, status_word};

use crate::element_list::ListElement;
use crate::fault::ParseFault;
use crate::grammar_word::{GrammarWord, leading_word};
use imap_syntax::StatusItem;
use std::alloc::Global;

/// All items of STATUS.
const STATUS_ITEMS: [StatusItem; 7] = [
    StatusItem::Messages,
    StatusItem::UidNext,
    StatusItem::UidValidity,
    StatusItem::Unseen,
    StatusItem::Deleted,
    StatusItem::Size,
    StatusItem::HighestModSeq,
];

impl GrammarWord for StatusItem {
    ghost use Rattle.imap_syntax.specs.Words.{status_word};

    ghost word_of = { status_word };

    fn text(self) -> &'static [u8] {
        match self {
            StatusItem::Messages => b"MESSAGES",
            StatusItem::UidNext => b"UIDNEXT",
            StatusItem::UidValidity => b"UIDVALIDITY",
            StatusItem::Unseen => b"UNSEEN",
            StatusItem::Deleted => b"DELETED",
            StatusItem::Size => b"SIZE",
            StatusItem::HighestModSeq => b"HIGHESTMODSEQ",
        }
    }
}

/// Reads one item of a list.
pub struct StatusItems;

impl ListElement for StatusItems {
    type Value = StatusItem;

    ghost use Rattle.imap_grammar.specs.Reading.{named_at};
    ghost use Rattle.imap_syntax.specs.Words.{status_items, status_word};

    ghost read_at = { named_at status_word status_items };

    fn read(_alloc: Global, octets: &[u8]) -> Result<(StatusItem, &[u8]), ParseFault> {
        status_item(octets)
    }
}

/// Reads one item.
fn status_item(octets: &[u8]) -> Result<(StatusItem, &[u8]), ParseFault>
    ensures { IsReading (λ x. (x.0, x.1.now)) result
        (named_at status_word status_items octets.now) }
{
    leading_word(&STATUS_ITEMS, octets)
}
