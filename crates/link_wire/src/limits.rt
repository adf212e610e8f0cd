//! How long a frame may be.

/// The most that a stream of frames may have.
#[derive(Clone, Copy, Debug, PartialEq, Eq)]
pub struct Limits {
    /// Octets of a header before its LF.
    pub header: usize,
    /// Octets of a payload.
    pub payload: usize,
    /// Frames of a stream.
    pub frames: u64,
}

impl Limits {
    /// 41 octets of a header, which are 8 digits, a space and a tag; 67,108,864 of a payload; as
    /// many frames as can be counted.
    pub const STANDARD: Limits = Limits {
        header: 41,
        payload: 67_108_864,
        frames: u64::MAX,
    };
}
