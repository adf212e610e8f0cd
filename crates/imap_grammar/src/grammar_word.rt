//! Words of the grammar, and searches for them that ignore ASCII case.

ghost use Rattle.std.specs.Prelude.{◌≡◌};
ghost use Rattle.imap_grammar.specs.Reading.{IsReading, named, named_at};
ghost use Rattle.imap_syntax.specs.Words.{command_word, command_words};

use crate::fault::ParseFault;
use crate::scan::span;
use imap_syntax::{CommandWord, OctetClass};

/// A value that is written as one word of the grammar, in any ASCII case.
pub trait GrammarWord: Copy {
    ghost use Rattle.std.specs.Prelude.{ℕ, List};

    ghost word_of: { Self → List ℕ };

    /// The word in capitals.
    fn text(self) -> &'static [u8]
        ensures { result.now ≡ word_of self };
}

impl GrammarWord for CommandWord {
    ghost use Rattle.imap_syntax.specs.Words.{command_word};

    ghost word_of = { command_word };

    fn text(self) -> &'static [u8] {
        match self {
            CommandWord::Capability => b"CAPABILITY",
            CommandWord::Noop => b"NOOP",
            CommandWord::Logout => b"LOGOUT",
            CommandWord::Login => b"LOGIN",
            CommandWord::Enable => b"ENABLE",
            CommandWord::Select => b"SELECT",
            CommandWord::Examine => b"EXAMINE",
            CommandWord::Create => b"CREATE",
            CommandWord::Delete => b"DELETE",
            CommandWord::Subscribe => b"SUBSCRIBE",
            CommandWord::Unsubscribe => b"UNSUBSCRIBE",
            CommandWord::ListNames => b"LIST",
            CommandWord::Namespace => b"NAMESPACE",
            CommandWord::Status => b"STATUS",
            CommandWord::Append => b"APPEND",
            CommandWord::Idle => b"IDLE",
            CommandWord::Close => b"CLOSE",
            CommandWord::Unselect => b"UNSELECT",
            CommandWord::Expunge => b"EXPUNGE",
            CommandWord::Search => b"SEARCH",
            CommandWord::Fetch => b"FETCH",
            CommandWord::Store => b"STORE",
            CommandWord::Copy => b"COPY",
            CommandWord::Move => b"MOVE",
            CommandWord::Uid => b"UID",
            CommandWord::Rename => b"RENAME",
            CommandWord::StartTls => b"STARTTLS",
            CommandWord::Authenticate => b"AUTHENTICATE",
        }
    }
}

/// All words of commands.
const COMMAND_WORDS: [CommandWord; 28] = [
    CommandWord::Capability,
    CommandWord::Noop,
    CommandWord::Logout,
    CommandWord::Login,
    CommandWord::Enable,
    CommandWord::Select,
    CommandWord::Examine,
    CommandWord::Create,
    CommandWord::Delete,
    CommandWord::Subscribe,
    CommandWord::Unsubscribe,
    CommandWord::ListNames,
    CommandWord::Namespace,
    CommandWord::Status,
    CommandWord::Append,
    CommandWord::Idle,
    CommandWord::Close,
    CommandWord::Unselect,
    CommandWord::Expunge,
    CommandWord::Search,
    CommandWord::Fetch,
    CommandWord::Store,
    CommandWord::Copy,
    CommandWord::Move,
    CommandWord::Uid,
    CommandWord::Rename,
    CommandWord::StartTls,
    CommandWord::Authenticate,
];

/// The first of the values whose word is this text, ignoring ASCII case.
pub fn find<W: GrammarWord>(values: &[W], text: &[u8]) -> Option<W>
    ensures { result ≡ named W.word_of values.now text.now }
{
    for value in values {
        if text.eq_ignore_ascii_case(value.text()) {
            return Some(*value);
        }
    }
    None
}

/// The command's word that equals this text, ignoring ASCII case.
pub fn find_command(text: &[u8]) -> Option<CommandWord>
    ensures { result ≡ named command_word command_words text.now }
{
    find(&COMMAND_WORDS, text)
}

/// Reads a word and gives the first of the values with that word, ignoring ASCII case, and the
/// rest.
pub fn leading_word<'a, W: GrammarWord>(
    values: &[W],
    octets: &'a [u8],
) -> Result<(W, &'a [u8]), ParseFault>
    ensures { IsReading (λ x. (x.0, x.1.now)) result (named_at W.word_of values.now octets.now) }
{
    let (token, rest) = span(OctetClass::Item, octets);
    match find(values, token) {
        Some(value) => Ok((value, rest)),
        None => Err(ParseFault::BadSyntax),
    }
}
