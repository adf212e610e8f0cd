//! LOGIN (RFC 9051, section 6.2.3).

ghost use Rattle.std.specs.Prelude.{◌≡◌, IfOk};
ghost use Rattle.std.specs.Str.{bytes_eq};
ghost use Rattle.imap_commands.specs.Login.{are_credentials, intent_to_login, login_intent};
ghost use Rattle.imap_commands.specs.Login.{login_rule};
ghost use Rattle.imap_commands.specs.MemoryFaults.{EqualsOrLacksMemory};
ghost use Rattle.imap_commands.specs.NamedMessages.{no_messages_named};

use crate::command_rule::CommandRule;
use crate::intent::Intent;
use crate::session::{Credentials, State};
use crdt_ops::Kind;
use imap_answers::{CompletedWord, Refusal};
use imap_types::Octets;
use std::alloc::Global;

/// The intent of LOGIN, which issues nothing. `LoginFailed` if the name or the password is wrong
/// (RFC 9051, section 6.2.3).
pub fn login_intent(
    alloc: Global,
    credentials: &Credentials,
    user: &Octets,
    password: &Octets,
) -> Result<Vec<Kind>, Refusal>
    ensures { EqualsOrLacksMemory (λ kinds. kinds.items) result
        (login_intent credentials.now user.now password.now) }
{
    if !are_credentials(credentials, user, password) {
        return Err(Refusal::LoginFailed);
    }
    Ok(Vec::new(alloc))
}

/// Whether name and password are those of the credentials, octet by octet. Both are compared whole.
fn are_credentials(credentials: &Credentials, user: &Octets, password: &Octets) -> bool
    ensures { result ≡ are_credentials credentials.now user.now password.now }
{
    let is_user = are_same(credentials.user.as_bytes(), user.as_bytes());
    let is_password = are_same(credentials.password.as_bytes(), password.as_bytes());
    is_user & is_password
}

/// Whether the octets are the same. If the lengths are, all octets are compared, wherever the first
/// difference is, so that the time doesn't show how many of a guess are right. It may show the
/// length, and what the compiler makes of the loop is in no contract.
fn are_same(one: &[u8], other: &[u8]) -> bool
    ensures { result ≡ bytes_eq one.now other.now }
{
    if one.len() != other.len() {
        return false;
    }
    let mut are_same = true;
    for at in 0..one.len() {
        are_same &= one[at] == other[at];
    }
    are_same
}

/// The rule of LOGIN, after which there is no sync.
pub(crate) fn login_rule() -> CommandRule
    ensures { result ≡ login_rule }
{
    CommandRule {
        sync: None,
        ..CommandRule::plain(CompletedWord::Login)
    }
}

/// The intent of LOGIN in a session.
pub(crate) fn intent_to_login(
    alloc: Global,
    state: &State,
    user: &Octets,
    password: &Octets,
) -> Result<Intent, Refusal>
    ensures gives { EqualsOrLacksMemory (λ intent. intent.kinds.items) result
        (intent_to_login state.now user.now password.now) }
    ensures named { IfOk result (λ intent. intent.named ≡ no_messages_named) }
{
    match state {
        State::NotAuthenticated { credentials } => {
            let kinds = login_intent(alloc, credentials, user, password)?;
            Ok(Intent::of_kinds(alloc, kinds))
        }
        _ => Err(Refusal::NotNow),
    }
}
