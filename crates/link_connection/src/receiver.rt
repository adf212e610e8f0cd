//! The side that takes the messages of a link.

ghost use Rattle.std.specs.Prelude.{Bool};
ghost use Rattle.link_wire.specs.declared.wire_message.WireMessage.{WireMessage};

use link_wire::WireMessage;

/// What takes the messages of a link, one after another.
pub trait Receiver {
    /// The state after a message, and whether the link continues.
    ghost acts: { Self → WireMessage → Bool → Self → Type 0 };

    /// Acts on a message. `false` if it ends the link.
    fn act(&mut self, message: WireMessage) -> bool
        ensures { acts self.old message result self.new };
}
