//! The limits on the length of a command.

/// The most octets that a command may have.
#[derive(Clone, Copy, Debug, PartialEq, Eq)]
pub struct Limits {
    /// Octets outside literals, including CRLFs.
    pub line: usize,
    /// Octets of all literals together, as the marks announce them.
    pub literals: usize,
}

impl Limits {
    /// 8,192 octets outside literals, 1,048,576 octets in literals.
    pub const STANDARD: Limits = Limits {
        line: 8_192,
        literals: 1_048_576,
    };
}
