//! The program's command line.

ghost use Rattle.std.specs.Prelude.{◌≡◌, ◌≤◌, ◌<◌, IfNone, IfOk, map, true};
ghost use Rattle.std.specs.Option.{option_map};
ghost use Rattle.clap.specs.Words.{first_of, found_of, matches_of, rows_of};
ghost use Rattle.clap_laws.specs.Words.{AddWords, IsWord};
ghost use Rattle.mail_bench.specs.Options.{Asks, IsAmount, IsPlainText, bench_words, counted_word};
ghost use Rattle.mail_bench.specs.Options.{word_with_value, required_word, text_in, with_amounts};
ghost use Rattle.mail_bench.specs.Options.{with_server};

use crate::workload::Workload;
use clap::builder::ValueParser;
use clap::error::ErrorKind;
use clap::{Arg, ArgAction, ArgMatches, Command, Error};
use std::alloc::{AllocError, Global};
use std::convert::AsStr;

/// The largest number of messages that can be asked for.
pub const MAX_MESSAGES: u32 = 1_000_000;

/// The largest number of connections that work side by side.
pub const MAX_CONNECTIONS: u32 = 1_000;

/// The longest time for a workload, in seconds.
pub const MAX_SECONDS: u32 = 3_600;

/// The settings that a command line asks for.
#[derive(Clone, Copy)]
pub struct Settings<'a> {
    /// The address of the server, as it was passed.
    pub address: &'a str,
    /// The address of a second server, at which connections idle in `idle-fan-out`.
    pub second: Option<&'a str>,
    /// The user, in printable ASCII.
    pub user: &'a str,
    /// The password, in printable ASCII.
    pub pass: &'a str,
    /// The mailbox in which everything is done, in printable ASCII.
    pub mailbox: &'a str,
    /// The workload that is measured.
    pub workload: Workload,
    /// The least number of messages that the mailbox must have, from 1 to `MAX_MESSAGES`.
    pub messages: u32,
    /// The number of connections that work side by side, from 1 to `MAX_CONNECTIONS`.
    pub connections: u32,
    /// The duration in seconds, from 1 to `MAX_SECONDS`.
    pub seconds: u32,
}

/// Why the command line asks for no measurement.
#[derive(Drop)]
pub enum SettingsFault<'a> {
    /// Its words are wrong, or ask for help, or memory ran out for them.
    Words(Error),
    /// The value of a word can't be used.
    Usage(UsageFault<'a>),
}

/// A value that can't be used.
#[derive(Clone, Copy)]
pub enum UsageFault<'a> {
    /// This word is no workload.
    BadWorkload(&'a str),
    /// The value of this word has an octet that is no printable ASCII.
    BadText(&'static str),
}

/// Reads the words of a command line, which begin with the program's name. The server, the mailbox
/// and the workload are those of clap's matches; the mailbox defaults to `bench`, and the numbers
/// to 1,000 messages, 4 connections and 2 seconds.
pub fn read_settings<'a>(
    alloc: Global,
    words: &'a [String],
) -> Result<Settings<'a>, SettingsFault<'a>>
    ensures asked { IfOk result (λ settings. Asks
        (matches_of bench_words (map ⟦<String as AsStr>⟧.text words.entry.now)) settings) }
    ensures plain { IfOk result (λ settings. IsPlainText settings.user.now
        × IsPlainText settings.pass.now × IsPlainText settings.mailbox.now) }
{
    match find_words(alloc, words) {
        Ok(matches) => match plain_settings_in(&matches) {
            Ok(settings) => Ok(settings),
            Err(why) => Err(SettingsFault::Usage(why)),
        },
        Err(error) => Err(SettingsFault::Words(error)),
    }
}

/// The settings that the matches contain, if their texts are plain.
fn plain_settings_in<'a>(matches: &ArgMatches<'a>) -> Result<Settings<'a>, UsageFault<'a>>
    ensures asked { IfOk result (λ settings. Asks (rows_of (found_of matches.now)) settings) }
    ensures plain { IfOk result (λ settings. IsPlainText settings.user.now
        × IsPlainText settings.pass.now × IsPlainText settings.mailbox.now) }
{
    let settings = settings_in(matches)?;
    match bad_text(settings.user, settings.pass, settings.mailbox) {
        Some(word) => Err(UsageFault::BadText(word)),
        None => Ok(settings),
    }
}

/// The first word whose text isn't plain, if any.
fn bad_text(user: &str, pass: &str, mailbox: &str) -> Option<&'static str>
    ensures { IfNone result
        (IsPlainText user.now × IsPlainText pass.now × IsPlainText mailbox.now) }
{
    if !is_plain(user) {
        return Some("user");
    }
    if !is_plain(pass) {
        return Some("pass");
    }
    if !is_plain(mailbox) {
        return Some("mailbox");
    }
    None
}

/// Whether all octets are of printable ASCII, so that a quoted string may contain them (RFC 9051,
/// section 9).
fn is_plain(text: &str) -> bool
    ensures { result ≡ true → IsPlainText text.now }
{
    text.bytes()
        .all(|octet| octet.is_ascii_graphic() || octet == b' ')
}

/// The settings that the matches contain.
fn settings_in<'a>(matches: &ArgMatches<'a>) -> Result<Settings<'a>, UsageFault<'a>>
    ensures { IfOk result (λ settings. Asks (rows_of (found_of matches.now)) settings) }
{
    let workload = text_in(matches, "workload", "");
    let Some(workload) = Workload::from_word(workload) else {
        return Err(UsageFault::BadWorkload(workload));
    };
    Ok(Settings {
        address: text_in(matches, "address", ""),
        second: option_in(matches, "second"),
        user: text_in(matches, "user", ""),
        pass: text_in(matches, "pass", ""),
        mailbox: text_in(matches, "mailbox", "bench"),
        workload,
        messages: amount_in(matches, "messages", 1_000, MAX_MESSAGES),
        connections: amount_in(matches, "connections", 4, MAX_CONNECTIONS),
        seconds: amount_in(matches, "seconds", 2, MAX_SECONDS),
    })
}

/// The text that the matches contain under this word, or the default.
fn text_in<'a>(matches: &ArgMatches<'a>, word: &str, usual: &'a str) -> &'a str
    ensures { result.now ≡ text_in (rows_of (found_of matches.now)) word.now usual.entry.now }
{
    match option_in(matches, word) {
        Some(text) => text,
        None => usual,
    }
}

/// The text that the matches contain under this word, if any.
fn option_in<'a>(matches: &ArgMatches<'a>, word: &str) -> Option<&'a str>
    ensures { option_map (λ s. s.now) result ≡ first_of word.now (rows_of (found_of matches.now)) }
{
    matches.get_str(word)
}

/// The number from 1 that the matches contain under this word, or the default.
fn amount_in(matches: &ArgMatches<'_>, word: &str, usual: u32, most: u32) -> u32
    requires { (0 < usual) × (usual ≤ most) }
    ensures { IsAmount (rows_of (found_of matches.now)) word.now usual most result }
{
    match matches.get_one::<u32>(word) {
        Some(number) => number.max(1).min(most),
        None => usual,
    }
}

/// The matches of a command line with the words that the program knows.
fn find_words<'a>(alloc: Global, words: &'a [String]) -> Result<ArgMatches<'a>, Error>
    ensures { IfOk result (λ matches. rows_of (found_of matches)
        ≡ matches_of bench_words (map ⟦<String as AsStr>⟧.text words.entry.now)) }
{
    let known = known_words(alloc)?;
    let command = Command::new(alloc, "mail_bench").about(ABOUT).args(known)?;
    command.try_get_matches_from(words)
}

const ABOUT: &str =
    "Loads an IMAP server with commands and prints how many it answered, and the microseconds that \
they took.

Each connection sends a command, waits for its end, and sends the next one, for some seconds. A \
line of the output names the workload, and then connections, messages, commands, seconds, commands \
a second, and of the times the least, the median, the 90th and 99th of a hundred, and the greatest.";

const WORKLOADS: &str =
    "What is measured: noop sends one NOOP after another, and noop-pipelined 32 of them in one write, \
whose time is that of all 32. append-1k and append-64k append messages. fetch-flags fetches the \
flags of all messages, fetch-body the text of one, and store sets and clears a flag of one. \
search-unseen and search-subject search all. mixed draws at random, of 100 commands, 10 noop, 5 \
fetch-flags, 40 fetch-body, 25 store, 5 search-unseen and 15 append-1k. login connects, logs in, \
logs out and closes. idle-fan-out has 32 connections idle and takes the time from an APPEND's last \
octet until each has received it. noop-beside-idle measures NOOPs of one connection alone, and \
then beside 400 that idle.";

/// The words that name the server and the workload, and then those that say how much is done, and
/// where.
fn known_words<'a>(alloc: Global) -> Result<Vec<Arg<'a>>, AllocError>
    ensures { IfOk result (λ words. AddWords words.items (λ app. with_amounts (with_server app))) }
{
    let words = vec![in alloc;
        required_word(alloc, "address", "The server's address, as 127.0.0.1:1143"),
        required_word(alloc, "user", "The user's name"),
        required_word(alloc, "pass", "The user's password"),
        required_word(alloc, "workload", WORKLOADS),
        word_with_value(
            alloc,
            "second",
            "The address of a second server, at which the connections of idle-fan-out idle",
        ),
        number_word(
            alloc,
            "messages",
            "How many messages of 1 KiB the mailbox has at least; 1000 by default",
            1_000_000,
        ),
        number_word(
            alloc,
            "connections",
            "How many connections work side by side; 4 by default",
            1_000,
        ),
        number_word(
            alloc,
            "seconds",
            "How many seconds it takes; 2 by default",
            3_600,
        ),
        word_with_value(
            alloc,
            "mailbox",
            "The mailbox that is used, created if it doesn't exist; bench by default",
        ),
    ]?;
    Ok(words)
}

/// A word with a value.
fn word_with_value<'a>(alloc: Global, name: &'a str, help: &'a str) -> Arg<'a>
    ensures { IsWord result (word_with_value name.entry.now) }
{
    Arg::new(alloc, name)
        .long(name)
        .action(ArgAction::Set)
        .help(help)
}

/// A required word.
fn required_word<'a>(alloc: Global, name: &'a str, help: &'a str) -> Arg<'a>
    ensures { IsWord result (required_word name.entry.now) }
{
    word_with_value(alloc, name, help).required(true)
}

/// A word whose value is a number from 1.
fn number_word<'a>(alloc: Global, name: &'a str, help: &'a str, most: u64) -> Arg<'a>
    requires { 1 ≤ most }
    ensures { IsWord result (counted_word name.entry.now most) }
{
    word_with_value(alloc, name, help).value_parser(ValueParser::unsigned(1, most))
}

/// Whether memory ran out for the words.
pub fn is_out_of_memory(error: &Error) -> bool {
    error.kind() == ErrorKind::OutOfMemory
}
