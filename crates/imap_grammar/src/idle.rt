//! The line that ends IDLE (RFC 9051, section 6.3.13; RFC 2177).

ghost use Rattle.std.specs.Prelude.{◌≡◌, ◌↔◌};
ghost use Rattle.imap_syntax.specs.Commands.{EndsIdle};
ghost use Rattle.imap_syntax.specs.declared.idle.IdleLine.TheVariants.{Done};

use imap_syntax::IdleLine;

/// Whether a frame during IDLE is `DONE`, in any letter case.
pub fn idle_line(frame: &[u8]) -> IdleLine
    ensures { (result ≡ Done) ↔ EndsIdle frame.now }
{
    if frame.eq_ignore_ascii_case(b"DONE\r\n") {
        IdleLine::Done
    } else {
        IdleLine::Other
    }
}
