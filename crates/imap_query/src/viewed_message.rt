//! A message as a session's view shows it.

ghost use Rattle.std.specs.Prelude.{◌≡◌, ◌-◌};

/// A message that a view shows (RFC 9051, section 2.3.1).
#[derive(Clone, Copy, Debug, PartialEq, Eq)]
pub struct ViewedMessage {
    /// Its message number, from 1.
    pub number: u32,
    /// Its UID.
    pub uid: u32,
}

impl ViewedMessage {
    /// The message's place, from 0, in a listing whose earlier messages are all in the view.
    pub fn place(&self) -> usize
        ensures { result ≡ self.now.number - 1 }
    {
        (self.number as usize).saturating_sub(1)
    }
}
