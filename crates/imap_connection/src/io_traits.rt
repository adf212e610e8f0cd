//! The three sides of a conversation: the source and the sink of octets, and the session's port.

ghost use Rattle.std.specs.Prelude.{◌≡◌, ◌≤◌, ◌<◌, ◌+◌, ℕ, List, length, take, vec_capacity, []};
ghost use Rattle.std.specs.Prelude.{Bool, true, IfSome, IfNone, MatchBool, MatchOption, Option};
ghost use Rattle.std.specs.Prelude.{Result};
ghost use Rattle.imap_connection.specs.Devices.{GivesOctets, TakesAllOrPart};

use crate::fault::PortFault;
use imap_answers::Login;
use imap_node::Reply;
use imap_syntax::{IdleLine, Tagged};
use std::alloc::Global;

/// A source of octets.
pub trait Source {
    /// The octets that are left, if they are known.
    ghost left: { Self → Option (List ℕ) };

    /// How many reads failed.
    ghost failures: { Self → ℕ };

    /// Whether it reported its end.
    ghost is_ended: { Self → Bool };

    /// Puts some octets at the start of `piece` and returns how many: 0 at the end. `None` if the
    /// device failed.
    fn read(&mut self, piece: &mut [u8]) -> Option<usize>
        requires room { 0 < length piece.old }
        requires count { failures self.old < 18446744073709551615 }
        ensures count { IfSome result (λ n. n ≤ length piece.old) }
        ensures octets { IfSome result
            (λ n. GivesOctets (left self.old) (take n piece.new) (left self.new)) }
        ensures end { IfSome result (λ n. n ≡ 0 → is_ended self.new ≡ true) }
        ensures same { IfNone result (left self.new ≡ left self.old) }
        ensures failed { MatchOption result (failures self.new ≡ failures self.old + 1)
            (λ n. failures self.new ≡ failures self.old) };
}

/// A sink of octets.
pub trait Sink {
    /// The octets that it took, if they are known.
    ghost taken: { Self → Option (List ℕ) };

    /// How many writes failed.
    ghost failures: { Self → ℕ };

    /// Writes all octets; `false` if the device failed after some of them.
    fn write(&mut self, octets: &[u8]) -> bool
        requires { failures self.old < 18446744073709551615 }
        ensures octets { TakesAllOrPart result (taken self.old) octets.now (taken self.new) }
        ensures failed { MatchBool result (failures self.new ≡ failures self.old)
            (failures self.new ≡ failures self.old + 1) };
}

/// One session of a replica.
pub trait Port {
    ghost use Rattle.imap_answers.specs.declared.fixed_words.Login.{Login};
    ghost use Rattle.imap_node.specs.declared.reply.Reply.{Reply};
    ghost use Rattle.imap_connection.specs.PortCalls.{PortCall, Command, Line};
    ghost use Rattle.imap_connection.specs.Batches.{CarriesCommands, are_brief};
    ghost use Rattle.imap_connection.specs.declared.fault.PortFault.{PortFault};

    /// Relates the port before and after its session is opened.
    ghost opens: { Self → Result Login PortFault → Self → Type 0 };

    /// Relates the port before and after a command or a line of IDLE.
    ghost steps: { Self → PortCall → Result Reply PortFault → Self → Type 0 };

    /// Relates the port before and after its session is closed.
    ghost closes: { Self → Self → Type 0 };

    /// Opens the session, and says whether the user is known.
    fn open(&mut self, alloc: Global) -> Result<Login, PortFault>
        ensures { opens self.old result self.new };

    /// Gives the session a command.
    fn command(&mut self, alloc: Global, tagged: Tagged) -> Result<Reply, PortFault>
        ensures { steps self.old (Command tagged) result self.new };

    /// Gives the session brief commands, one after another, and appends its reply to each to
    /// `replies`, which has room for them. A fault belongs to the first command without a reply; no
    /// command after that one is given.
    fn commands(
        &mut self,
        alloc: Global,
        commands: Vec<Tagged>,
        replies: &mut Vec<Reply>,
    ) -> Result<(), PortFault>
        requires some { 0 < length commands.items }
        requires brief { are_brief commands.items ≡ true }
        requires none { replies.old.items ≡ [] }
        requires room { length commands.items ≤ vec_capacity replies.old }
        ensures { CarriesCommands steps self.old commands.items replies.new.items result self.new }
    {
        for tagged in commands {
            match self.command(alloc, tagged) {
                Ok(reply) => replies.push_reserved(reply),
                Err(fault) => return Err(fault),
            }
        }
        Ok(())
    }

    /// Gives the session, which idles, a line (RFC 2177, section 3).
    fn done(&mut self, alloc: Global, line: IdleLine) -> Result<Reply, PortFault>
        ensures { steps self.old (Line line) result self.new };

    /// Closes the session.
    fn close(&mut self, alloc: Global)
        ensures { closes self.old self.new };
}
