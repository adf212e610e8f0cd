//! Words of commands.

/// The word of a command (RFC 9051, section 6; RFC 2177, section 3), in this grammar or left out of
/// it.
#[derive(Clone, Copy, Debug, PartialEq, Eq)]
pub enum CommandWord {
    Capability,
    Noop,
    Logout,
    Login,
    Enable,
    Select,
    Examine,
    Create,
    Delete,
    Subscribe,
    Unsubscribe,
    ListNames,
    Namespace,
    Status,
    Append,
    Idle,
    Close,
    Unselect,
    Expunge,
    Search,
    Fetch,
    Store,
    Copy,
    Move,
    Uid,
    /// Not in this grammar.
    Rename,
    /// Not in this grammar.
    StartTls,
    /// Not in this grammar.
    Authenticate,
}
