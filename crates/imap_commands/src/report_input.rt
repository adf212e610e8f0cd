//! What a command's report is computed from, beside its arguments and the replica.

use crate::intent::NamedMessages;
use crate::session::State;

/// What a command's report is computed from, beside its arguments and the replica.
#[derive(Drop)]
pub struct ReportInput<'a> {
    /// The state of its session.
    pub state: &'a State,
    /// Whether mod-sequences are reported, including for this command (RFC 7162, section 3.1).
    pub modseq: bool,
    /// The messages that it named before its operations.
    pub named: &'a NamedMessages,
}
