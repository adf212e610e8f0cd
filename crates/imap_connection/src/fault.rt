//! Why a port gives no reply.

/// Why a port gives no reply. The connection ends.
#[derive(Clone, Copy, Debug, PartialEq, Eq)]
pub enum PortFault {
    /// As many sessions are open as are allowed.
    TooManySessions,
    /// Memory ran out for the session.
    NoMemory,
    /// The replica's journal has no room.
    NoRoom,
    /// The replica's journal was cut.
    Torn,
    /// The replica doesn't know the session, or the session is in another state.
    PassedOver,
    /// The server ended the connection, as that of a client that guesses passwords.
    ServerEnded,
}
