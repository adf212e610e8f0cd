//! Preparation of a measurement: connections that are logged in, and a mailbox with enough
//! messages.

ghost use Rattle.std.specs.Prelude.{◌<◌, ◌≤◌, IfOk};

use crate::client::{Client, Dial};
use crate::commands::{Command, MailboxCommand, message};
use crate::fault::BenchFault;
use crate::settings::Settings;
use std::alloc::Global;
use std::rt::Clock;
use std::thread;
use std::time::Duration;

/// The octets of a small message.
pub const SMALL: usize = 1_024;

/// The octets of a large message.
pub const LARGE: usize = 65_536;

/// The number of times that a second server is asked whether it has the messages of the first.
const MAX_LOOKS: u32 = 600;

/// The pause between two of these requests, in milliseconds.
const PAUSE: u64 = 100;

/// A connection to this address that is logged in.
pub fn connect_and_login<R: Dial>(
    rt: &R,
    alloc: Global,
    settings: &Settings<'_>,
    address: &str,
) -> Result<Client, BenchFault> {
    let mut client = Client::connect(rt, alloc, address)?;
    client.login(settings.user, settings.pass)?;
    Ok(client)
}

/// A connection to the first server that has the mailbox selected.
pub fn connect_and_select<R: Dial>(
    rt: &R,
    alloc: Global,
    settings: &Settings<'_>,
) -> Result<Client, BenchFault> {
    let mut client = connect_and_login(rt, alloc, settings, settings.address)?;
    client.select(settings.mailbox)?;
    Ok(client)
}

/// Creates the mailbox if it doesn't exist, appends the messages that it lacks, and returns the
/// number that it has, which is at least the number asked for.
pub fn prepare<R: Dial>(rt: &R, alloc: Global, settings: &Settings<'_>) -> Result<u32, BenchFault>
    ensures { IfOk result (λ messages. settings.now.messages ≤ messages) }
{
    let mut client = connect_and_login(rt, alloc, settings, settings.address)?;
    let messages = fill_mailbox(alloc, settings, &mut client)?;
    client.logout()?;
    if messages < settings.messages {
        return Err(BenchFault::Missing);
    }
    Ok(messages)
}

/// Appends the messages that the mailbox lacks, and returns the number that it has.
fn fill_mailbox(
    alloc: Global,
    settings: &Settings<'_>,
    client: &mut Client,
) -> Result<u32, BenchFault> {
    open(client, settings.mailbox)?;
    append_all(alloc, settings, client)?;
    client.select(settings.mailbox)?;
    Ok(client.messages())
}

/// Appends one message for each that the mailbox lacks.
fn append_all(
    alloc: Global,
    settings: &Settings<'_>,
    client: &mut Client,
) -> Result<(), BenchFault> {
    let message = message(alloc, SMALL)?;
    for _ in client.messages()..settings.messages {
        client.append(settings.mailbox, &message)?;
    }
    Ok(())
}

/// Selects a mailbox, which is created if it doesn't exist.
fn open(client: &mut Client, name: &str) -> Result<(), BenchFault> {
    match client.select(name) {
        Err(BenchFault::No) => {}
        selected => return selected,
    }
    client.run(Command::Mailbox {
        ask: MailboxCommand::Create,
        name,
    })?;
    client.select(name)
}

/// A connection to this address that has the mailbox selected, once the mailbox has `messages`
/// messages there. `Missing` if it has fewer after 60 seconds.
pub fn connect_and_select_when<R: Clock + Dial>(
    rt: &R,
    alloc: Global,
    settings: &Settings<'_>,
    address: &str,
    messages: u32,
) -> Result<Client, BenchFault> {
    let mut client = connect_and_login(rt, alloc, settings, address)?;
    for _ in 0..MAX_LOOKS {
        match client.select(settings.mailbox) {
            Ok(()) if client.messages() >= messages => return Ok(client),
            Ok(()) | Err(BenchFault::No) => thread::sleep(rt, Duration::from_millis(PAUSE)),
            Err(fault) => return Err(fault),
        }
    }
    Err(BenchFault::Missing)
}
