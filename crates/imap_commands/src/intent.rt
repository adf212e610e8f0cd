//! A command's intent: the operations that it issues and the messages that it names.

ghost use Rattle.std.specs.Prelude.{◌≡◌, []};
ghost use Rattle.imap_commands.specs.NamedMessages.{no_messages_named};

use crdt_ops::Kind;
use std::alloc::Global;
use std::marker::Model;

/// The messages that a command names, looked up once before it is carried out: the operations that
/// it issues and its report are both computed from them.
pub struct NamedMessages {
    /// The message numbers, ascending.
    numbers: Vec<u32>,
    /// The numbers of those that STORE changes.
    taken: Vec<u32>,
}

// By hand, so that crates above drop it whole.
impl Drop for NamedMessages {
    fn drop(self) {
        let Self {
            numbers: _,
            taken: _,
        } = self;
    }
}

impl Model for NamedMessages {
    ghost use Rattle.imap_commands.specs.NamedMessages.{NamedMessages};

    ghost Value = { NamedMessages };

    ghost view = { λ f. record { numbers = f.numbers.items; taken = f.taken.items } };
}

impl NamedMessages {
    /// Takes over the numbers of the named messages, and of those that STORE changes.
    pub fn new(numbers: Vec<u32>, taken: Vec<u32>) -> NamedMessages
        ensures { result ≡ record { numbers = numbers.items; taken = taken.items } }
    {
        NamedMessages { numbers, taken }
    }

    /// No messages; doesn't allocate.
    pub fn none(alloc: Global) -> NamedMessages
        ensures { result ≡ no_messages_named }
    {
        NamedMessages::new(Vec::new(alloc), Vec::new(alloc))
    }

    /// The numbers of the messages that the command names.
    pub fn numbers(&self) -> &[u32]
        ensures { result.now ≡ self.now.numbers }
    {
        &self.numbers
    }

    /// The numbers of those that STORE changes.
    pub fn stored(&self) -> &[u32]
        ensures { result.now ≡ self.now.taken }
    {
        &self.taken
    }
}

/// The operations that a command issues, and the messages that it names.
#[derive(Drop)]
pub struct Intent {
    /// The kinds of the operations.
    pub kinds: Vec<Kind>,
    /// The messages that the command names.
    pub named: NamedMessages,
}

impl Intent {
    /// These operations are issued, and no messages are named.
    pub(crate) fn of_kinds(alloc: Global, kinds: Vec<Kind>) -> Intent
        ensures kinds { result.kinds.items ≡ kinds.items }
        ensures named { result.named ≡ no_messages_named }
    {
        Intent {
            kinds,
            named: NamedMessages::none(alloc),
        }
    }

    /// Nothing is issued, and no messages are named.
    pub fn nothing(alloc: Global) -> Intent
        ensures kinds { result.kinds.items ≡ [] }
        ensures named { result.named ≡ no_messages_named }
    {
        Intent::of_kinds(alloc, Vec::new(alloc))
    }
}
