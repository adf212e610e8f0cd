//! Scenarios of clients that connect to a server, and the answers that they wait for.

use crate::clients::Client;
use crate::limits::{play_crowd, play_guessing, play_large, play_slow, play_talker, play_wary};
use imap_types::Moment;
use mail_text::civil;
use server_runtime::ServerState;
use std::alloc::Global;
use std::net::{Net, SocketAddr, TcpListener, TcpStream};
use std::rt::Clock;
use std::sync::Wait;
use std::thread;
use std::time::{Duration, SystemTime, UNIX_EPOCH};

/// The clients of a server.
#[derive(Clone, Copy)]
pub enum Scenario {
    /// A client of one replica, and two of another.
    Two,
    /// Clients of two replicas, and one of a third that joins.
    Three,
    /// Clients of a replica, while another can't join.
    FailedJoin,
    /// A client that must log in.
    Password,
    /// A client that asks for the date of its message.
    Clock,
    /// A client that is quick, and then reads late.
    Late,
    /// A client of a replica, and one of the second that joins after it.
    Chain,
    /// A client of a replica, after which another joins and the server stops.
    Last,
    /// Clients whose connections end in different ways.
    Ends,
    /// A client that makes a mailbox and appends a message, which must be there at the next start.
    Keep,
    /// A client of the next start.
    Kept,
    /// Clients that keep the server waiting.
    Slow,
    /// A client that guesses passwords, all in one piece.
    Guessing,
    /// More clients than may wait for their login.
    Crowd,
    /// A client that logs in after other clients' logins were refused.
    Wary,
    /// A client that sends much before its login.
    Talker,
    /// A client that appends a large message.
    Large,
}

/// The length of the message for which a late reader asks, in octets.
const LONG: usize = 200_000;

/// The length of each answer in octets: the message, with the lines around it.
const LONG_ANSWER: usize = LONG + 53;

/// How many times it asks, so that its connection can't buffer all answers.
const LATE_TIMES: usize = 60;

impl Scenario {
    /// Whether the clients received the expected answers; `None` if one can't connect.
    pub fn play<R: Wait + Clock + Net<Listener = TcpListener, Stream = TcpStream>>(
        self,
        rt: &R,
        alloc: Global,
        server: &ServerState<'_>,
    ) -> Option<bool> {
        match self {
            Scenario::Two => play_two(rt, alloc, server),
            Scenario::Three => play_three(rt, alloc, server),
            Scenario::FailedJoin => play_failed_join(rt, alloc, server),
            Scenario::Password => play_password(rt, alloc, server),
            Scenario::Clock => play_clock(rt, alloc, server),
            Scenario::Late => play_late(rt, alloc, server),
            Scenario::Chain => play_chain(rt, alloc, server),
            Scenario::Last => play_last(rt, alloc, server),
            Scenario::Ends => play_ends(rt, alloc, server),
            Scenario::Keep => play_keep(rt, alloc, server),
            Scenario::Kept => play_kept(rt, alloc, server),
            Scenario::Slow => play_slow(rt, alloc, server),
            Scenario::Guessing => play_guessing(rt, alloc, server),
            Scenario::Crowd => play_crowd(rt, alloc, server),
            Scenario::Wary => play_wary(rt, alloc, server),
            Scenario::Talker => play_talker(rt, alloc, server),
            Scenario::Large => play_large(rt, alloc, server),
        }
    }
}

/// The address at which the replica at a place listens, once it does.
fn address_at<R: Wait + Clock>(
    rt: &R,
    server: &ServerState<'_>,
    place: usize,
) -> Option<SocketAddr> {
    let handle = server.replicas.get(place)?;
    for _ in 0..6_000u32 {
        let address = *handle.address.lock(rt);
        if address.is_some() {
            return address;
        }
        thread::sleep(rt, Duration::from_millis(10));
    }
    None
}

/// A client of the replica at a place, once it listens.
pub fn client_at<R: Wait + Clock + Net<Listener = TcpListener, Stream = TcpStream>>(
    rt: &R,
    alloc: Global,
    server: &ServerState<'_>,
    place: usize,
) -> Option<Client> {
    let address = address_at(rt, server, place)?;
    Client::connect(rt, alloc, address).ok()
}

/// Whether there is a replica at this place that hasn't joined.
fn is_awaited<R: Wait>(rt: &R, server: &ServerState<'_>, place: usize) -> bool {
    match server.replicas.get(place) {
        Some(handle) => !handle.is_open(rt),
        None => false,
    }
}

/// Logs out.
pub fn leave(client: &mut Client) {
    client.exchange(b"z LOGOUT\r\n", b"z OK LOGOUT completed\r\n")
}

/// Selects INBOX.
fn select(client: &mut Client) {
    client.exchange(
        b"s SELECT INBOX\r\n",
        b"s OK [READ-WRITE] SELECT completed\r\n",
    )
}

/// Selects INBOX, and idles.
fn idle(client: &mut Client) {
    select(client);
    client.exchange(b"i IDLE\r\n", b"+ idling\r\n")
}

/// Ends an IDLE.
fn stir(client: &mut Client) {
    client.exchange(b"DONE\r\n", b"i OK IDLE completed\r\n")
}

/// Runs a client of one replica and two of another; true if each received the expected answers.
fn play_two<R: Wait + Clock + Net<Listener = TcpListener, Stream = TcpStream>>(
    rt: &R,
    alloc: Global,
    server: &ServerState<'_>,
) -> Option<bool> {
    let mut first = client_at(rt, alloc, server, 0)?;
    let mut second = client_at(rt, alloc, server, 1)?;
    let mut third = client_at(rt, alloc, server, 1)?;
    first.exchange(b"a CREATE work\r\n", b"a OK CREATE completed\r\n");
    first.exchange(
        b"b LIST \"\" *\r\n",
        b"* LIST () \"/\" work\r\nb OK LIST completed\r\n",
    );
    idle(&mut second);
    first.exchange(
        b"c APPEND INBOX {3+}\r\nabc\r\n",
        b"c OK [APPENDUID 1 1] APPEND completed\r\n",
    );
    second.await_text(b"* 1 EXISTS\r\n");
    store_two(&mut first, &mut second);
    stir(&mut second);
    idle_again(&mut third, &mut second);
    leave(&mut first);
    leave(&mut second);
    leave(&mut third);
    Some(first.has_succeeded() && second.has_succeeded() && third.has_succeeded())
}

/// Appends a message while the second client doesn't idle. That client learns of it as soon as it
/// idles again.
fn idle_again(third: &mut Client, second: &mut Client) {
    third.exchange(
        b"a APPEND INBOX {3+}\r\nghi\r\n",
        b"a OK [APPENDUID 2 3] APPEND completed\r\n",
    );
    second.exchange(b"k IDLE\r\n", b"+ idling\r\n");
    second.await_text(b"* 3 EXISTS\r\n");
    second.exchange(b"DONE\r\n", b"k OK IDLE completed\r\n")
}

/// Stores a flag of two messages by one command of the first client; the second, which idles at
/// another replica, learns of both.
fn store_two(first: &mut Client, second: &mut Client) {
    first.exchange(
        b"d APPEND INBOX {3+}\r\ndef\r\n",
        b"d OK [APPENDUID 1 2] APPEND completed\r\n",
    );
    second.await_text(b"* 2 EXISTS\r\n");
    select(first);
    first.exchange(
        b"f STORE 1:2 +FLAGS (\\Seen)\r\n",
        b"f OK STORE completed\r\n",
    );
    second.await_text(b"* 1 FETCH (UID 1 FLAGS (\\Seen))\r\n");
    second.await_text(b"* 2 FETCH (UID 2 FLAGS (\\Seen))\r\n")
}

/// Runs clients of two replicas, and then one of a third, which joins when the first client has
/// left; true if each received the expected answers.
fn play_three<R: Wait + Clock + Net<Listener = TcpListener, Stream = TcpStream>>(
    rt: &R,
    alloc: Global,
    server: &ServerState<'_>,
) -> Option<bool> {
    let mut second = client_at(rt, alloc, server, 1)?;
    let mut first = client_at(rt, alloc, server, 0)?;
    first.exchange(b"a CREATE work\r\n", b"a OK CREATE completed\r\n");
    first.exchange(
        b"b APPEND work {3+}\r\nabc\r\n",
        b"b OK [APPENDUID 65537 1] APPEND completed\r\n",
    );
    let was_awaited = is_awaited(rt, server, 2);
    leave(&mut first);
    let mut third = client_at(rt, alloc, server, 2)?;
    third.exchange(
        b"a STATUS work (MESSAGES UIDNEXT UIDVALIDITY)\r\n",
        b"* STATUS work (MESSAGES 1 UIDNEXT 2 UIDVALIDITY 65539)\r\na OK STATUS completed\r\n",
    );
    append_in_turn(&mut second, &mut third);
    leave(&mut third);
    leave(&mut second);
    Some(was_awaited && first.has_succeeded() && second.has_succeeded() && third.has_succeeded())
}

/// Appends a message at the third replica, reported to the idling client of the second, and
/// then one the other way round.
fn append_in_turn(second: &mut Client, third: &mut Client) {
    idle(second);
    third.exchange(
        b"b APPEND INBOX {3+}\r\nabc\r\n",
        b"b OK [APPENDUID 3 1] APPEND completed\r\n",
    );
    second.await_text(b"* 1 EXISTS\r\n");
    stir(second);
    idle(third);
    second.exchange(
        b"c APPEND INBOX {3+}\r\nabc\r\n",
        b"c OK [APPENDUID 2 2] APPEND completed\r\n",
    );
    third.await_text(b"* 2 EXISTS\r\n");
    stir(third)
}

/// Runs two clients of one replica, one after the other, while another replica, which was to join
/// between them, can't; true if each received the expected answers.
fn play_failed_join<R: Wait + Clock + Net<Listener = TcpListener, Stream = TcpStream>>(
    rt: &R,
    alloc: Global,
    server: &ServerState<'_>,
) -> Option<bool> {
    let mut first = client_at(rt, alloc, server, 0)?;
    first.exchange(b"a CREATE work\r\n", b"a OK CREATE completed\r\n");
    leave(&mut first);
    let mut second = client_at(rt, alloc, server, 0)?;
    second.exchange(
        b"a LIST \"\" w*\r\n",
        b"* LIST () \"/\" work\r\na OK LIST completed\r\n",
    );
    leave(&mut second);
    Some(first.has_succeeded() && second.has_succeeded() && is_awaited(rt, server, 1))
}

/// Runs a client that must log in; true if it received the expected answers. User and password
/// can't be exchanged, and only both of them are accepted.
fn play_password<R: Wait + Clock + Net<Listener = TcpListener, Stream = TcpStream>>(
    rt: &R,
    alloc: Global,
    server: &ServerState<'_>,
) -> Option<bool> {
    let mut client = client_at(rt, alloc, server, 0)?;
    let is_greeted = client.has_received(b"* OK [CAPABILITY IMAP4rev2 IDLE CONDSTORE] ready\r\n");
    client.exchange(b"a LIST \"\" *\r\n", b"a BAD not now\r\n");
    client.exchange(
        b"b LOGIN secret me\r\n",
        b"b NO [AUTHENTICATIONFAILED] login failed\r\n",
    );
    client.exchange(
        b"c LOGIN secret secret\r\n",
        b"c NO [AUTHENTICATIONFAILED] login failed\r\n",
    );
    client.exchange(
        b"d LOGIN me me\r\n",
        b"d NO [AUTHENTICATIONFAILED] login failed\r\n",
    );
    client.exchange(b"e SELECT INBOX\r\n", b"e BAD not now\r\n");
    client.exchange(b"f LOGIN me secret\r\n", b"f OK ");
    select(&mut client);
    leave(&mut client);
    Some(is_greeted && client.has_succeeded())
}

/// Runs a client that appends a message without a date; true if the reported date lies within the
/// time of the command.
fn play_clock<R: Wait + Clock + Net<Listener = TcpListener, Stream = TcpStream>>(
    rt: &R,
    alloc: Global,
    server: &ServerState<'_>,
) -> Option<bool> {
    let mut client = client_at(rt, alloc, server, 0)?;
    select(&mut client);
    let before = seconds(rt);
    client.exchange(
        b"b APPEND INBOX {3+}\r\nabc\r\n",
        b"b OK [APPENDUID 1 1] APPEND completed\r\n",
    );
    let after = seconds(rt);
    client.exchange(b"c FETCH 1 INTERNALDATE\r\n", b"c OK FETCH completed\r\n");
    leave(&mut client);
    Some(client.has_succeeded() && is_dated(alloc, &client, before?, after?))
}

/// Runs a client that sends one command after another, then asks for more than its connection can
/// buffer and reads late; true if it received everything.
fn play_late<R: Wait + Clock + Net<Listener = TcpListener, Stream = TcpStream>>(
    rt: &R,
    alloc: Global,
    server: &ServerState<'_>,
) -> Option<bool> {
    let mut client = client_at(rt, alloc, server, 0)?;
    select(&mut client);
    let long = long_append(alloc)?;
    client.exchange(&long, b"b OK [APPENDUID 1 1] APPEND completed\r\n");
    hurry(&mut client);
    for _ in 0..LATE_TIMES {
        client.send_only(b"c FETCH 1 BODY.PEEK[]\r\n");
    }
    thread::sleep(rt, Duration::from_millis(500));
    client.skip(LATE_TIMES * LONG_ANSWER);
    hurry(&mut client);
    leave(&mut client);
    Some(client.has_succeeded())
}

/// Runs a client of the only replica, and then one of the second replica that joined after it; true
/// if each received the expected answers.
fn play_chain<R: Wait + Clock + Net<Listener = TcpListener, Stream = TcpStream>>(
    rt: &R,
    alloc: Global,
    server: &ServerState<'_>,
) -> Option<bool> {
    let mut first = client_at(rt, alloc, server, 0)?;
    first.exchange(b"a CREATE work\r\n", b"a OK CREATE completed\r\n");
    let were_awaited = is_awaited(rt, server, 1) && is_awaited(rt, server, 2);
    leave(&mut first);
    let mut last = client_at(rt, alloc, server, 2)?;
    last.exchange(
        b"a LIST \"\" w*\r\n",
        b"* LIST () \"/\" work\r\na OK LIST completed\r\n",
    );
    leave(&mut last);
    Some(were_awaited && first.has_succeeded() && last.has_succeeded())
}

/// Runs a client of the only replica, while another is to join; true if it received the expected
/// answers.
fn play_last<R: Wait + Clock + Net<Listener = TcpListener, Stream = TcpStream>>(
    rt: &R,
    alloc: Global,
    server: &ServerState<'_>,
) -> Option<bool> {
    let mut client = client_at(rt, alloc, server, 0)?;
    client.exchange(b"a CREATE work\r\n", b"a OK CREATE completed\r\n");
    let was_awaited = is_awaited(rt, server, 1);
    leave(&mut client);
    Some(was_awaited && client.has_succeeded())
}

/// Runs five clients whose connections end in different ways; true if each received the expected
/// answers.
fn play_ends<R: Wait + Clock + Net<Listener = TcpListener, Stream = TcpStream>>(
    rt: &R,
    alloc: Global,
    server: &ServerState<'_>,
) -> Option<bool> {
    let logged_out = log_out(client_at(rt, alloc, server, 0)?);
    let hung_up = client_at(rt, alloc, server, 0)?.has_succeeded();
    let was_refused = send_nul(client_at(rt, alloc, server, 0)?);
    let left = leave_after_command(client_at(rt, alloc, server, 0)?);
    let left_early = leave_early(alloc, client_at(rt, alloc, server, 0)?)?;
    Some(logged_out && hung_up && was_refused && left && left_early)
}

/// Runs a client that makes mailboxes, deletes one, and appends messages; true if it received the
/// expected answers.
fn play_keep<R: Wait + Clock + Net<Listener = TcpListener, Stream = TcpStream>>(
    rt: &R,
    alloc: Global,
    server: &ServerState<'_>,
) -> Option<bool> {
    let mut client = client_at(rt, alloc, server, 0)?;
    client.exchange(b"a CREATE gone\r\n", b"a OK CREATE completed\r\n");
    client.exchange(b"b CREATE work\r\n", b"b OK CREATE completed\r\n");
    client.exchange(b"c DELETE gone\r\n", b"c OK DELETE completed\r\n");
    client.exchange(
        b"d APPEND work {3+}\r\nabc\r\n",
        b"d OK [APPENDUID 131073 1] APPEND completed\r\n",
    );
    client.exchange(
        b"e APPEND work (\\Flagged) {3+}\r\ndef\r\n",
        b"e OK [APPENDUID 131073 2] APPEND completed\r\n",
    );
    client.exchange(
        b"f SELECT work\r\n",
        b"f OK [READ-WRITE] SELECT completed\r\n",
    );
    client.exchange(
        b"g STORE 1 +FLAGS (\\Deleted)\r\n",
        b"g OK STORE completed\r\n",
    );
    client.exchange(b"h EXPUNGE\r\n", b"EXPUNGE completed\r\n");
    leave(&mut client);
    Some(client.has_succeeded())
}

/// Runs a client of a server that was started again; true if all is as the last client of `play_keep`
/// left it.
fn play_kept<R: Wait + Clock + Net<Listener = TcpListener, Stream = TcpStream>>(
    rt: &R,
    alloc: Global,
    server: &ServerState<'_>,
) -> Option<bool> {
    let mut client = client_at(rt, alloc, server, 0)?;
    client.exchange(
        b"a LIST \"\" *\r\n",
        b"* LIST () \"/\" work\r\na OK LIST completed\r\n",
    );
    client.exchange(
        b"b STATUS work (MESSAGES UIDNEXT UIDVALIDITY)\r\n",
        b"* STATUS work (MESSAGES 1 UIDNEXT 3 UIDVALIDITY 131073)\r\nb OK STATUS completed\r\n",
    );
    client.exchange(
        b"c SELECT work\r\n",
        b"c OK [READ-WRITE] SELECT completed\r\n",
    );
    client.exchange(
        b"d FETCH 1 (UID FLAGS BODY.PEEK[])\r\n",
        b"* 1 FETCH (UID 2 FLAGS (\\Flagged) BODY[] {3}\r\ndef)\r\nd OK FETCH completed\r\n",
    );
    leave(&mut client);
    Some(client.has_succeeded())
}

/// Logs out; false if that fails.
fn log_out(client: Client) -> bool {
    let mut client = client;
    leave(&mut client);
    client.has_succeeded()
}

/// Sends a NUL; true if the server refused it.
fn send_nul(client: Client) -> bool {
    let mut client = client;
    client.exchange(b"a \0\r\n", b"* BYE NUL in text\r\n");
    client.has_succeeded()
}

/// Leaves without having read the answer to a command.
fn leave_after_command(client: Client) -> bool {
    let mut client = client;
    client.send_only(b"a NOOP\r\n");
    client.leave_unread()
}

/// Leaves without having read the answers, which are more than its connection can buffer.
fn leave_early(alloc: Global, client: Client) -> Option<bool> {
    let mut client = client;
    let long = long_append(alloc)?;
    let fetches = late_fetches(alloc)?;
    select(&mut client);
    client.exchange(&long, b"b OK [APPENDUID 1 1] APPEND completed\r\n");
    client.send_only(&fetches);
    Some(client.leave_unread())
}

/// FETCHes of the long message, whose answers are more than a connection can buffer.
fn late_fetches(alloc: Global) -> Option<Vec<u8>> {
    let mut input = Vec::new(alloc);
    for _ in 0..LATE_TIMES {
        input.extend_from_slice(b"c FETCH 1 BODY.PEEK[]\r\n").ok()?;
    }
    Some(input)
}

/// An APPEND of a long message.
fn long_append(alloc: Global) -> Option<Vec<u8>> {
    let mut input = Vec::new(alloc);
    input
        .extend_from_slice(b"b APPEND INBOX {200000+}\r\n")
        .ok()?;
    input.resize(input.len().saturating_add(LONG), 120).ok()?;
    input.extend_from_slice(b"\r\n").ok()?;
    Some(input)
}

/// Sends one NOOP after another.
fn hurry(client: &mut Client) {
    for _ in 0..200u32 {
        client.clear_output();
        client.exchange(b"n NOOP\r\n", b"n OK NOOP completed\r\n");
    }
}

/// The seconds of the clock, since 1970.
fn seconds<R: Clock>(rt: &R) -> Option<u64> {
    let since = SystemTime::now(rt).ok()?.duration_since(UNIX_EPOCH).ok()?;
    Some(since.as_secs())
}

/// Whether the client received a date of its message between these two seconds.
fn is_dated(alloc: Global, client: &Client, first: u64, last: u64) -> bool {
    (first..=last).any(|moment| dates(alloc, client, moment))
}

/// Whether the client received this date of its message.
fn dates(alloc: Global, client: &Client, seconds: u64) -> bool {
    match date_answer(alloc, seconds) {
        Some(text) => client.has_received(&text),
        None => false,
    }
}

/// The answer with the date of a message appended at this second.
fn date_answer(alloc: Global, seconds: u64) -> Option<Vec<u8>> {
    let date = civil(Moment::new(seconds)?);
    let mut text = Vec::new(alloc);
    text.extend_from_slice(b"* 1 FETCH (INTERNALDATE ").ok()?;
    text.extend_from_slice(date.as_bytes()).ok()?;
    text.extend_from_slice(b")\r\n").ok()?;
    Some(text)
}
