//! The words of SEARCH: its return options and its keys (RFC 9051, sections 6.4.4 and 9; RFC 7162,
//! section 3.1.5).

ghost use Rattle.std.specs.Prelude.{◌≡◌};
ghost use Rattle.imap_syntax.specs.KeyWords.{flag_key, order_key, place_key};

use crate::grammar_word::GrammarWord;
use imap_syntax::{DateRelation, SearchKeyWord, SearchOption, SystemFlag, TextPlace};

impl GrammarWord for SearchOption {
    ghost use Rattle.imap_syntax.specs.KeyWords.{option_word};

    ghost word_of = { option_word };

    fn text(self) -> &'static [u8] {
        match self {
            SearchOption::Min => b"MIN",
            SearchOption::Max => b"MAX",
            SearchOption::All => b"ALL",
            SearchOption::Count => b"COUNT",
        }
    }
}

impl GrammarWord for SearchKeyWord {
    ghost use Rattle.imap_syntax.specs.KeyWords.{key_word};

    ghost word_of = { key_word };

    fn text(self) -> &'static [u8] {
        match self {
            SearchKeyWord::All => b"ALL",
            SearchKeyWord::System { flag, is_set } => flag_key(flag, is_set),
            SearchKeyWord::Keyword { is_set } => { if is_set { b"KEYWORD" } else { b"UNKEYWORD" } }
            SearchKeyWord::Place { place } => place_key(place),
            SearchKeyWord::Header => b"HEADER",
            SearchKeyWord::Dated { order } => order_key(order),
            SearchKeyWord::Larger => b"LARGER",
            SearchKeyWord::Smaller => b"SMALLER",
            SearchKeyWord::ModSeq => b"MODSEQ",
            SearchKeyWord::Uid => b"UID",
            SearchKeyWord::Not => b"NOT",
            SearchKeyWord::Or => b"OR",
        }
    }
}

/// The key for a system flag that is set, or not set.
fn flag_key(flag: SystemFlag, is_set: bool) -> &'static [u8]
    ensures { result.now ≡ flag_key flag is_set }
{
    if is_set {
        match flag {
            SystemFlag::Answered => b"ANSWERED",
            SystemFlag::Flagged => b"FLAGGED",
            SystemFlag::Deleted => b"DELETED",
            SystemFlag::Seen => b"SEEN",
            SystemFlag::Draft => b"DRAFT",
        }
    } else {
        match flag {
            SystemFlag::Answered => b"UNANSWERED",
            SystemFlag::Flagged => b"UNFLAGGED",
            SystemFlag::Deleted => b"UNDELETED",
            SystemFlag::Seen => b"UNSEEN",
            SystemFlag::Draft => b"UNDRAFT",
        }
    }
}

/// The key for a text in this place of a message.
fn place_key(place: TextPlace) -> &'static [u8]
    ensures { result.now ≡ place_key place }
{
    match place {
        TextPlace::Bcc => b"BCC",
        TextPlace::Cc => b"CC",
        TextPlace::From => b"FROM",
        TextPlace::Subject => b"SUBJECT",
        TextPlace::To => b"TO",
        TextPlace::Body => b"BODY",
        TextPlace::Text => b"TEXT",
    }
}

/// The key for messages dated before, on or since a day.
fn order_key(order: DateRelation) -> &'static [u8]
    ensures { result.now ≡ order_key order }
{
    match order {
        DateRelation::Before => b"BEFORE",
        DateRelation::On => b"ON",
        DateRelation::Since => b"SINCE",
    }
}
