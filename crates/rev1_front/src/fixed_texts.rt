//! Lines of the front's own.

ghost use Rattle.std.specs.Prelude.{◌≡◌, ◌++◌, OnErr, OnOk};
ghost use Rattle.rev1_front.specs.FrontTexts.{capability_line, front_refusal_text, greeting_line};
ghost use Rattle.rev1_front.specs.FrontTexts.{refused_line};

use imap_answers::Login;
use imap_types::Octets;
use std::alloc::AllocError;

/// Why the front refuses a command.
#[derive(Clone, Copy, Debug, PartialEq, Eq)]
pub enum FrontRefusal {
    /// `NO [BADCHARSET ..]`: a search in a charset that isn't known (RFC 3501, section 6.4.4).
    UnknownCharset,
    /// `NO [AUTHORIZATIONFAILED]`: one user authenticates to act as another (RFC 5530).
    OtherUser,
    /// `NO [UNAVAILABLE]`: RENAME without a session for its steps.
    NoSecondSession,
    /// `BAD`: the response to AUTHENTICATE is `*` (RFC 3501, section 6.2.2).
    GivenUp,
    /// `BAD`: a response that is no base64 of three fields, or a part with the number 0.
    BadSyntax,
    /// `NO [CANNOT]`: a name that is no modified UTF-7 (RFC 3501, section 5.1.3).
    NameNotAllowed,
}

impl FrontRefusal {
    /// The text after the tag and a space.
    pub fn text(self) -> &'static [u8]
        ensures { result.now ≡ front_refusal_text self }
    {
        match self {
            FrontRefusal::UnknownCharset => {
                b"NO [BADCHARSET (US-ASCII UTF-8)] charset is not known"
            }
            FrontRefusal::OtherUser => b"NO [AUTHORIZATIONFAILED] no other user",
            FrontRefusal::NoSecondSession => b"NO [UNAVAILABLE] no second session",
            FrontRefusal::GivenUp => b"BAD authentication was given up",
            FrontRefusal::BadSyntax => b"BAD syntax",
            FrontRefusal::NameNotAllowed => b"NO [CANNOT] name not allowed",
        }
    }
}

/// The front's greeting, with its line end (RFC 3501, section 7.1.1 and 7.1.4).
pub fn greeting(login: Login) -> &'static [u8]
    ensures { result.now ≡ greeting_line login }
{
    match login {
        Login::Required => {
            b"* OK [CAPABILITY IMAP4rev1 IMAP4rev2 LITERAL- SASL-IR AUTH=PLAIN ID ENABLE IDLE \
              NAMESPACE UNSELECT UIDPLUS MOVE ESEARCH CONDSTORE STATUS=SIZE] ready\r\n"
        }
        Login::PreAuthenticated => {
            b"* PREAUTH [CAPABILITY IMAP4rev1 IMAP4rev2 LITERAL- SASL-IR AUTH=PLAIN ID ENABLE IDLE \
              NAMESPACE UNSELECT UIDPLUS MOVE ESEARCH CONDSTORE STATUS=SIZE] ready\r\n"
        }
    }
}

/// Appends the line of a command that the front refuses. `Err` if memory runs out; the text is then
/// unchanged.
pub fn print_refusal(
    tag: &Octets,
    reason: FrontRefusal,
    text: &mut Vec<u8>,
) -> Result<(), AllocError>
    ensures ok { OnOk result (text.new.items ≡ text.old.items ++ refused_line tag.now reason) }
    ensures err { OnErr result (text.new.items ≡ text.old.items) }
{
    let mut line = tag.as_bytes().to_vec(*text.allocator())?;
    line.extend_from_slice(b" ")?;
    print_parts(&line, reason.text(), b"\r\n", text)
}

/// The line with the front's capabilities (RFC 3501, section 7.2.1).
pub fn capability_line() -> &'static [u8]
    ensures { result.now ≡ capability_line }
{
    b"* CAPABILITY IMAP4rev1 IMAP4rev2 LITERAL- SASL-IR AUTH=PLAIN ID ENABLE IDLE \
      NAMESPACE UNSELECT UIDPLUS MOVE ESEARCH CONDSTORE STATUS=SIZE\r\n"
}

/// Appends three texts. `Err` if memory runs out; the text is then unchanged.
pub fn print_parts(
    first: &[u8],
    second: &[u8],
    third: &[u8],
    text: &mut Vec<u8>,
) -> Result<(), AllocError>
    ensures ok { OnOk result
        (text.new.items ≡ text.old.items ++ (first.now ++ (second.now ++ third.now))) }
    ensures err { OnErr result (text.new.items ≡ text.old.items) }
{
    let mut line = first.to_vec(*text.allocator())?;
    line.extend_from_slice(second)?;
    line.extend_from_slice(third)?;
    text.extend_from_slice(&line)
}
