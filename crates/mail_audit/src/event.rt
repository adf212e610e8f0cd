//! The events in which a transcript's lines change or name a session's messages.

/// The effect of a line on the message slots of a session's mailbox (RFC 9051, sections 7.4.1,
/// 7.5.1 and 7.5.2).
#[derive(Clone, Copy, Debug, PartialEq, Eq)]
pub enum SlotEvent {
    /// A SELECT or EXAMINE begins: there are no slots.
    Selects,
    /// `* n EXISTS`.
    Exists(u32),
    /// `* k EXPUNGE`.
    Expunge(u32),
    /// `* k FETCH (..)` without UID.
    Names(u32),
    /// `* k FETCH (UID uid ..)`.
    ReportsUid(u32, u32),
    /// Any other line.
    Passes,
}
