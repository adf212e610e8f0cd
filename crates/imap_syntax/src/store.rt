//! Actions of STORE.

/// What STORE does with the flags that it names (RFC 9051, section 6.4.6).
#[derive(Clone, Copy, Debug, PartialEq, Eq)]
pub enum StoreMode {
    /// FLAGS: the message gets these flags and no others.
    Replace,
    /// +FLAGS: the message gets these flags too.
    Add,
    /// -FLAGS: the message loses these flags.
    Remove,
}

/// The word of STORE: its mode, and whether it is silent.
#[derive(Clone, Copy, Debug, PartialEq, Eq)]
pub struct StoreAction {
    pub mode: StoreMode,
    /// `.SILENT`: the client asks for no answer with the flags.
    pub silent: bool,
}
