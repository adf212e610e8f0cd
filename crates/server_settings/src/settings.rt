//! The program's command line.

ghost use Rattle.std.specs.Prelude.{List, ℕ, ◌≡◌, ◌++◌, ◌∷◌, ◌<◌, ◌≤◌, [], false, true, IfNone};
ghost use Rattle.std.specs.Prelude.{IfOk, IfSome, IsSome, OnOk, Some, length, map, option_map};
ghost use Rattle.std.specs.Prelude.{All, slice_get};
ghost use Rattle.clap.specs.Words.{IsUnsignedIn, app_of, found_of, matches_of, one_of, rows_of};
ghost use Rattle.clap_laws.specs.Words.{AddWords, IsWord};
ghost use Rattle.server_settings.specs.CommandLines.{NamesSettings};
ghost use Rattle.server_settings.specs.Options.{NamesGivenAccess, NamesJournalBound, NamesLimits};
ghost use Rattle.server_settings.specs.Options.{NamesJoins, NamesReplicas, NamesRev1, NamesStore};
ghost use Rattle.server_settings.specs.Options.{join_word, number_word};
ghost use Rattle.server_settings.specs.Links.{MayBeLinked, NamesLinks};
ghost use Rattle.server_settings.specs.Options.{peer_word};
ghost use Rattle.server_settings.specs.Options.{preauth_word, replica_word, rev1_word};
ghost use Rattle.server_settings.specs.Options.{server_words};
ghost use Rattle.server_settings.specs.Options.{stop_word, with_access_words, with_limit_words};
ghost use Rattle.server_settings.specs.Options.{with_replica_words, word_with_value};
ghost use Rattle.server_settings.specs.Settings.{AreAmong, AreNames, AreTexts, HavePeers};
ghost use Rattle.server_settings.specs.Settings.{IsJoinText};
ghost use Rattle.server_settings.specs.Settings.{IsJournalBound};
ghost use Rattle.server_settings.specs.Settings.{IsNameText, IsNumberOption, IsNumberText};
ghost use Rattle.server_settings.specs.Settings.{IsPlaceText, IsUnit};
ghost use Rattle.server_settings.specs.Settings.{access_of, access_with_pass, given_access_of};
ghost use Rattle.server_settings.specs.Settings.{is_named, join_names_of, names_of};
ghost use Rattle.server_settings.specs.declared.settings.Join.{Join};
ghost use Rattle.server_settings.specs.declared.settings.Place.{Place};

use crate::VERSION;
use crate::link_words::{LinkWords, links_of};
use clap::builder::ValueParser;
use clap::error::ErrorKind;
use clap::{Arg, ArgAction, ArgMatches, Command, Error};
use std::alloc::{AllocError, Global};
use std::convert::AsStr;

/// Who may use the server.
#[derive(Clone, Copy, Debug, PartialEq, Eq)]
pub enum Access<'a> {
    /// Every client; its user is known beforehand.
    Preauth,
    /// A client that gives this user and this password.
    Password {
        /// The user.
        user: &'a str,
        /// The password.
        pass: &'a str,
    },
}

/// Who may use the server, as a command line names it.
#[derive(Clone, Copy, Debug, PartialEq, Eq)]
pub enum GivenAccess<'a> {
    /// The words have all of it.
    Whole(Access<'a>),
    /// A client that gives this user and the password of a file.
    PassFile {
        /// The user.
        user: &'a str,
        /// The file's path, as it was given.
        path: &'a str,
    },
}

impl<'a> GivenAccess<'a> {
    /// The access, with this password if it is one of a file.
    pub fn with_pass(self, pass: &'a str) -> Access<'a>
        ensures { result ≡ access_with_pass self.entry pass.entry }
    {
        match self {
            GivenAccess::Whole(access) => access,
            GivenAccess::PassFile { user, path: _ } => Access::Password { user, pass },
        }
    }
}

/// How long the server waits for a client, and how large the literals of its commands may be.
#[derive(Clone, Copy, Debug, PartialEq, Eq)]
pub struct ClientLimits {
    /// How long a client may take to log in, in seconds, from 1 on.
    pub login_time: u32,
    /// How long a client that is logged in may be silent, in seconds, from 1 on.
    pub idle_time: u32,
    /// How long a client may leave an answer untaken, in seconds, from 1 on.
    pub write_time: u32,
    /// The most octets in the literals of a command, from 1 to 20,971,520.
    pub literals: u32,
}

impl ClientLimits {
    /// The limits unless the command line names others: 60 seconds, 30 minutes, 60 seconds, and
    /// 1,048,576 octets.
    pub const STANDARD: ClientLimits = ClientLimits {
        login_time: 60,
        idle_time: 1_800,
        write_time: 60,
        literals: 1_048_576,
    };
}

/// A replica, and the address at which it listens.
#[derive(Clone, Copy, Debug, PartialEq, Eq)]
pub struct Place<'a> {
    /// The replica's name, from 1 on.
    pub replica: u16,
    /// Its address, as it was given.
    pub address: &'a str,
}

/// A replica that joins the others once the first connection has ended.
#[derive(Clone, Copy, Debug, PartialEq, Eq)]
pub struct Join<'a> {
    /// Its name, and the address at which it is to listen.
    pub place: Place<'a>,
    /// The name of the replica whose operations it takes.
    pub peer: u16,
}

/// The settings of the server, from the command line.
#[derive(Drop)]
pub struct CommandLine<'a> {
    /// Who may use the server.
    pub access: GivenAccess<'a>,
    /// How long it waits for clients, and how large their literals may be.
    pub limits: ClientLimits,
    /// The number of connections after which the server stops, if it does.
    pub stop_after: Option<u32>,
    /// The most octets that each replica's journal may take; `None` if there is no bound.
    pub journal: Option<u64>,
    /// The folder of the replicas' logs, as it was given; `None` if the server stores nothing.
    pub store: Option<&'a str>,
    /// The replicas in the order in which they were given; their names are distinct.
    pub places: Vec<Place<'a>>,
    /// The replicas that are to join, in their order; their names are new.
    pub joins: Vec<Join<'a>>,
    /// Where replicas also listen for clients that speak IMAP4rev1, in their order; each is among the
    /// others, once.
    pub rev1: Vec<Place<'a>>,
    /// How the process is linked with others; `None` if it isn't. Then it has one replica, a store,
    /// and none that is to join.
    pub links: Option<LinkWords<'a>>,
}

impl CommandLine<'_> {
    /// The place, from 0 on, of the replica with this name; those that are to join come after the
    /// others. `None` if no replica has the name.
    pub fn place_of_name(&self, name: u16) -> Option<usize>
        ensures some { IfSome result (λ place. slice_get
            (names_of self.now.places.items ++ join_names_of self.now.joins.items) place
            ≡ Some name) }
        ensures none { IfNone result (is_named name
            (names_of self.now.places.items ++ join_names_of self.now.joins.items) ≡ false) }
    {
        if let Some(place) = place_among(&self.places, name) {
            return Some(place);
        }
        let place = place_among_joins(&self.joins, name)?;
        Some(self.places.len() + place)
    }
}

/// The place of the replica with this name, if any.
#[tactic(auto, using(crate::proofs::PlaceLemmas::name_at, crate::proofs::PlaceLemmas::unnamed_take))]
fn place_among(places: &[Place<'_>], name: u16) -> Option<usize>
    ensures some { IfSome result (λ place. slice_get (names_of places.now) place ≡ Some name) }
    ensures none { IfNone result (is_named name (names_of places.now) ≡ false) }
{
    for at in 0..places.len() {
        if places[at].replica == name {
            return Some(at);
        }
    }
    None
}

/// The place of the replica with this name among those that are to join, if any.
#[tactic(auto, using(crate::proofs::PlaceLemmas::join_name_at, crate::proofs::PlaceLemmas::unjoined_take))]
fn place_among_joins(joins: &[Join<'_>], name: u16) -> Option<usize>
    ensures some { IfSome result (λ place. slice_get (join_names_of joins.now) place ≡ Some name) }
    ensures none { IfNone result (is_named name (join_names_of joins.now) ≡ false) }
{
    for at in 0..joins.len() {
        if joins[at].place.replica == name {
            return Some(at);
        }
    }
    None
}

/// Why the command line gives no settings.
#[derive(Drop)]
pub enum SettingsFault<'a> {
    /// Its words are wrong, or ask for help or the version, or memory ran out for them.
    Words(Error),
    /// The value of a word can't be used.
    Usage(UsageFault<'a>),
}

/// Which value of a word can't be used. Its text is what the program prints.
#[derive(Clone, Copy, Debug, PartialEq, Eq, thiserror::Error)]
pub enum UsageFault<'a> {
    /// The words name no access, or two.
    #[error("usage: give --preauth, or --user and --pass")]
    Access,
    /// A limit's value is no number in its range. clap refuses such a value before.
    #[error("usage: bad limit")]
    BadLimit,
    /// This word names no replica.
    #[error("usage: bad replica {0}")]
    BadReplica(&'a str),
    /// This word names no replica that is to join, or no peer that exists before it.
    #[error("usage: bad join {0}")]
    BadJoin(&'a str),
    /// Two replicas have this name.
    #[error("usage: replica {0} twice")]
    Twice(u16),
    /// This word names no replica with an address for IMAP4rev1.
    #[error("usage: bad rev1 {0}")]
    BadRev1(&'a str),
    /// Two words give this replica an address for IMAP4rev1.
    #[error("usage: rev1 {0} twice")]
    Rev1Twice(u16),
    /// No replica has this name, for which an address for IMAP4rev1 is given.
    #[error("usage: rev1 {0} is no replica")]
    UnknownRev1(u16),
    /// There is a secret and no link, or a link and no secret.
    #[error("usage: give --secret-file with --link-listen or --peer, and only there")]
    Secret,
    /// A linked process has several replicas, no store, or a replica that is to join.
    #[error("usage: links want one replica, --store and no --join")]
    LinkedReplicas,
    /// This word names no process to which connections are opened.
    #[error("usage: bad peer {0}")]
    BadPeer(&'a str),
    /// Memory ran out.
    #[error("run fault")]
    NoMemory,
}

/// Reads the words of a command line; the first is the program's name. Errors are found in this
/// order: in the words, in the access, in the journals' bound, in the replicas in their order, in
/// those that are to join in theirs, in those for IMAP4rev1 in theirs, and in the words for links.
/// The access is the one that clap finds in the words: only `--preauth`, or without it `--user` and
/// either `--pass` or `--pass-file`. Each limit is the number that its word's value spells. The
/// journals' bound is that of the value of `--journal`, and 64M without it, and the store the value
/// of `--store`. The replicas' names are distinct, from 1 to 65,535; each that joins takes the
/// operations of one that exists before it; each that also listens for IMAP4rev1 is one of these,
/// and is named once for that. There are links if `--secret-file` is given; then each value of
/// `--peer` is a process, with distinct names that aren't the replica's own.
pub fn read_settings<'a>(
    alloc: Global,
    words: &'a [String],
) -> Result<CommandLine<'a>, SettingsFault<'a>>
    ensures { IfOk result (NamesSettings
        (matches_of server_words (map ⟦<String as AsStr>⟧.text words.entry.now))) }
{
    let matches = match find_words(alloc, words) {
        Ok(matches) => matches,
        Err(error) => return Err(SettingsFault::Words(error)),
    };
    let Some(access) = access_in(&matches) else {
        return Err(SettingsFault::Usage(UsageFault::Access));
    };
    let Some(limits) = limits_in(&matches) else {
        return Err(SettingsFault::Usage(UsageFault::BadLimit));
    };
    let stop_after = matches.get_one::<u32>("stop-after");
    let journal = match journal_bound(alloc, matches.get_str("journal")) {
        Ok(journal) => journal,
        Err(error) => return Err(SettingsFault::Words(error)),
    };
    let store = matches.get_str("store");
    let mut names = Vec::new(alloc);
    let places = match replicas_in(alloc, &mut names, &matches) {
        Ok(places) => places,
        Err(why) => return Err(SettingsFault::Usage(why)),
    };
    let joins = match joins_in(alloc, &mut names, &matches) {
        Ok(joins) => joins,
        Err(why) => return Err(SettingsFault::Usage(why)),
    };
    let rev1 = match rev1_in(alloc, &names, &matches) {
        Ok(rev1) => rev1,
        Err(why) => return Err(SettingsFault::Usage(why)),
    };
    let is_linkable = may_be_linked(&places, &joins, store);
    let links = match links_of(alloc, &mut names, &matches, is_linkable) {
        Ok(links) => links,
        Err(why) => return Err(SettingsFault::Usage(why)),
    };
    Ok(CommandLine {
        access,
        limits,
        stop_after,
        journal,
        store,
        places,
        joins,
        rev1,
        links,
    })
}

/// Whether a process with these replicas may be linked: with one, none that is to join, and a store.
fn may_be_linked(places: &[Place<'_>], joins: &[Join<'_>], store: Option<&str>) -> bool
    ensures { result ≡ true
        → (length places.now ≡ 1) × (length joins.now ≡ 0) × IsSome store.entry }
{
    if places.len() != 1 {
        return false;
    }
    if !joins.is_empty() {
        return false;
    }
    store.is_some()
}

/// The access that the words name; `None` if they name none, or two.
fn access_in<'a>(matches: &ArgMatches<'a>) -> Option<GivenAccess<'a>>
    ensures { IfSome result (λ access. NamesGivenAccess (rows_of (found_of matches.now)) access) }
{
    let is_preauth = matches.get_flag("preauth");
    let user = matches.get_str("user");
    let pass = matches.get_str("pass");
    let pass_file = matches.get_str("pass-file");
    given_access_of(is_preauth, user, pass, pass_file)
}

/// The limits that the words name; `None` if a value is no number in its range.
fn limits_in(matches: &ArgMatches<'_>) -> Option<ClientLimits>
    ensures { IfSome result (λ limits. NamesLimits (rows_of (found_of matches.now)) limits) }
{
    let standard = ClientLimits::STANDARD;
    let login_time = number_in(matches, "login-time", standard.login_time, u32::MAX)?;
    let idle_time = number_in(matches, "idle-time", standard.idle_time, u32::MAX)?;
    let write_time = number_in(matches, "write-time", standard.write_time, u32::MAX)?;
    let literals = number_in(matches, "literal-limit", standard.literals, MOST_LITERALS)?;
    Some(ClientLimits {
        login_time,
        idle_time,
        write_time,
        literals,
    })
}

/// The number from 1 to `most` that the value of a word spells, or `otherwise` without a value.
/// `None` if it spells no such number.
fn number_in(matches: &ArgMatches<'_>, word: &str, otherwise: u32, most: u32) -> Option<u32>
    ensures { IfSome result (λ number. IsNumberOption
        (one_of word.now (rows_of (found_of matches.now))) otherwise most number) }
{
    match matches.try_get_one::<u32>(word) {
        Ok(None) => Some(otherwise),
        Ok(Some(number)) => {
            if number == 0 || number > most {
                return None;
            }
            Some(number)
        }
        Err(_) => None,
    }
}

fn find_words<'a>(alloc: Global, words: &'a [String]) -> Result<ArgMatches<'a>, Error>
    ensures { IfOk result (λ matches. rows_of (found_of matches)
        ≡ matches_of server_words (map ⟦<String as AsStr>⟧.text words.entry.now)) }
{
    let command = command_words(alloc)?;
    command.try_get_matches_from(words)
}

/// The words that the program knows.
fn command_words<'a>(alloc: Global) -> Result<Command<'a>, AllocError>
    ensures { IfOk result (λ command. app_of command ≡ server_words) }
{
    let words = known_words(alloc)?;
    Command::new(alloc, "imap_server")
        .version(VERSION)
        .about(ABOUT)
        .args(words)
}

const ABOUT: &str =
    "Serves the mail of one user over IMAP, at several replicas that take changes from each other. Mail lives as long as the program runs, or in the folder that --store names.";

const USER_HELP: &str = "This is the name by which the user logs in.";

const PASS_HELP: &str = "This is the password with which the user logs in.";

const PASS_FILE_HELP: &str =
    "The first line of this file is the password, in place of --pass, which other users of the machine can read.";

const JOURNAL_HELP: &str =
    "Each replica's journal takes at most this many octets, and forgets its oldest entries: a number, with K, M or G for powers of 1,024, or all for no bound. Otherwise it is 64M.";

const STORE_HELP: &str =
    "Each replica's operations are stored in this folder, and are there again at the next start. Otherwise mail lives as long as the program runs.";

const LINK_LISTEN_HELP: &str =
    "Other processes open links to this one at this address, as in 0.0.0.0:1499.";

const SECRET_FILE_HELP: &str =
    "This file has the secret that all linked processes know, of 32 to 1024 octets.";

const LOGIN_TIME_HELP: &str = "A client has this many seconds to log in. Otherwise it has 60.";

const IDLE_TIME_HELP: &str =
    "A client that is logged in may be silent for this many seconds. Otherwise for 1800; RFC 9051 wants no fewer.";

const WRITE_TIME_HELP: &str =
    "A client may leave an answer untaken for this many seconds. Otherwise for 60.";

const LITERAL_LIMIT_HELP: &str =
    "The literals of a command, as a message, have at most this many octets, up to 20971520. Otherwise 1048576.";

/// The arguments for users, followed by those for limits, for the end of the server, for journals,
/// for the store, for replicas that join, for links, and for replicas.
fn known_words<'a>(alloc: Global) -> Result<Vec<Arg<'a>>, AllocError>
    ensures { IfOk result (λ words. AddWords words.items
        (λ app. with_replica_words (with_limit_words (with_access_words app)))) }
{
    let words = vec![in alloc;
        preauth(alloc),
        word_with_value(alloc, "user", USER_HELP),
        word_with_value(alloc, "pass", PASS_HELP),
        word_with_value(alloc, "pass-file", PASS_FILE_HELP),
        number_word(alloc, "login-time", 4_294_967_295, LOGIN_TIME_HELP),
        number_word(alloc, "idle-time", 4_294_967_295, IDLE_TIME_HELP),
        number_word(alloc, "write-time", 4_294_967_295, WRITE_TIME_HELP),
        number_word(alloc, "literal-limit", 20_971_520, LITERAL_LIMIT_HELP),
        stop_after(alloc),
        word_with_value(alloc, "journal", JOURNAL_HELP),
        word_with_value(alloc, "store", STORE_HELP),
        join_arg(alloc),
        rev1_arg(alloc),
        word_with_value(alloc, "link-listen", LINK_LISTEN_HELP),
        peer_arg(alloc),
        word_with_value(alloc, "secret-file", SECRET_FILE_HELP),
        replica(alloc),
    ]?;
    Ok(words)
}

fn preauth<'a>(alloc: Global) -> Arg<'a>
    ensures { IsWord result preauth_word }
{
    Arg::new(alloc, "preauth")
        .long("preauth")
        .action(ArgAction::SetTrue)
        .help("Everybody is let in without a password. Give this, or --user and --pass.")
}

/// An argument with a value.
fn word_with_value<'a>(alloc: Global, name: &'a str, help: &'a str) -> Arg<'a>
    ensures { IsWord result (word_with_value name.entry.now) }
{
    Arg::new(alloc, name)
        .long(name)
        .action(ArgAction::Set)
        .help(help)
}

/// An argument whose value is a number from 1 to `most`.
fn number_word<'a>(alloc: Global, name: &'a str, most: u64, help: &'a str) -> Arg<'a>
    ensures { IsWord result (number_word name.entry.now most) }
{
    word_with_value(alloc, name, help).value_parser(ValueParser::unsigned(1, most))
}

fn stop_after<'a>(alloc: Global) -> Arg<'a>
    ensures { IsWord result stop_word }
{
    word_with_value(
        alloc,
        "stop-after",
        "The server stops after this many connections. Otherwise it runs until it is ended.",
    )
    .value_parser(ValueParser::unsigned(0, 4_294_967_295))
}

fn rev1_arg<'a>(alloc: Global) -> Arg<'a>
    ensures { IsWord result rev1_word }
{
    Arg::new(alloc, "rev1")
        .long("rev1")
        .action(ArgAction::Append)
        .help(
            "A replica also listens at this address, for mail readers that want IMAP4rev1, as in 1=127.0.0.1:1443.",
        )
}

fn join_arg<'a>(alloc: Global) -> Arg<'a>
    ensures { IsWord result join_word }
{
    Arg::new(alloc, "join")
        .long("join")
        .action(ArgAction::Append)
        .help(
            "A further replica joins when the first connection has ended: its number, its address and, after a slash, the replica whose operations it takes, as in 3=127.0.0.1:1433/1.",
        )
}

fn peer_arg<'a>(alloc: Global) -> Arg<'a>
    ensures { IsWord result peer_word }
{
    Arg::new(alloc, "peer")
        .long("peer")
        .action(ArgAction::Append)
        .help(
            "A process to which this one opens a link: its replica's number and the address at which it listens for links, as in 2=host:1499.",
        )
}

fn replica<'a>(alloc: Global) -> Arg<'a>
    ensures { IsWord result replica_word }
{
    Arg::new(alloc, "REPLICA")
        .required(true)
        .action(ArgAction::Append)
        .num_args(1..)
        .help(
            "Each replica has a number from 1 to 65535 and an address at which it listens, as in 1=127.0.0.1:1431.",
        )
}

/// The most octets that the literals of a command may ever have: 20 MiB.
const MOST_LITERALS: u32 = 20 << 20;

/// The bound of a journal unless the command line names one: 64M.
const JOURNAL_BOUND: u64 = 64 << 20;

/// The most octets that each journal may take, by the value of `--journal`; `None` if there is no
/// bound. `Err` if the value is no number that fits, or if memory runs out.
fn journal_bound<'a>(alloc: Global, value: Option<&'a str>) -> Result<Option<u64>, Error>
    ensures { IfOk result
        (λ bound. IsJournalBound (option_map (λ text. text.now) value.entry) bound) }
{
    let Some(value) = value else {
        return Ok(Some(JOURNAL_BOUND));
    };
    if value == "all" {
        return Ok(None);
    }
    let (digits, unit) = split_unit(value);
    let count = number_of(alloc, digits, u64::MAX / unit)?;
    Ok(Some(count * unit))
}

/// A number's text without its unit, and the unit: `K`, `M` and `G` are powers of 1,024.
fn split_unit(text: &str) -> (&str, u64)
    ensures positive { 0 < result.1 }
    ensures unit { (unit : List ℕ) × (text.now ≡ result.0.now ++ unit) × IsUnit unit result.1 }
{
    if let Some(digits) = text.strip_suffix('K') {
        return (digits, 1 << 10);
    }
    if let Some(digits) = text.strip_suffix('M') {
        return (digits, 1 << 20);
    }
    if let Some(digits) = text.strip_suffix('G') {
        return (digits, 1 << 30);
    }
    (text, 1)
}

/// The number from 0 to `most` that this text is; `Err` is what clap says of any other text.
fn number_of(alloc: Global, text: &str, most: u64) -> Result<u64, Error>
    ensures number { IfOk result (λ number. IsNumberText text.now number) }
    ensures most { IfOk result (λ number. number ≤ most) }
{
    check_number(alloc, text, most)?;
    match text.parse::<u64>() {
        Ok(number) => Ok(number),
        Err(_) => unreachable!(),
    }
}

/// Has clap check that this text is a number from 0 to `most`; `Err` is what it says of any other.
fn check_number(alloc: Global, text: &str, most: u64) -> Result<(), Error>
    ensures { IfOk result (λ _. IsUnsignedIn 0 most text.now) }
{
    let words = ["imap_server", "--journal", text];
    let number = word_with_value(alloc, "journal", "").value_parser(ValueParser::unsigned(0, most));
    let command = Command::new(alloc, "imap_server").arg(number)?;
    command.try_get_matches_from(&words)?;
    Ok(())
}

/// The access that these options name: only `--preauth`, or `--user` and `--pass` without it.
/// `None` if they name none, or two.
pub fn access_of<'a>(
    preauth: bool,
    user: Option<&'a str>,
    pass: Option<&'a str>,
) -> Option<Access<'a>>
    ensures { result ≡ access_of preauth user.entry pass.entry }
{
    match (preauth, user, pass) {
        (true, None, None) => Some(Access::Preauth),
        (false, Some(user), Some(pass)) => Some(Access::Password { user, pass }),
        _ => None,
    }
}

/// The access that these options name: that of [`access_of`] without a password's file, or only a
/// user and the file. `None` if they name none, or two.
pub fn given_access_of<'a>(
    preauth: bool,
    user: Option<&'a str>,
    pass: Option<&'a str>,
    pass_file: Option<&'a str>,
) -> Option<GivenAccess<'a>>
    ensures { result ≡ given_access_of preauth user.entry pass.entry pass_file.entry }
{
    let Some(path) = pass_file else {
        return match access_of(preauth, user, pass) {
            Some(access) => Some(GivenAccess::Whole(access)),
            None => None,
        };
    };
    match (preauth, user, pass) {
        (false, Some(user), None) => Some(GivenAccess::PassFile { user, path }),
        _ => None,
    }
}

/// The replicas that the words name, in their order, and their names.
fn replicas_in<'a>(
    alloc: Global,
    names: &mut Vec<u16>,
    matches: &ArgMatches<'a>,
) -> Result<Vec<Place<'a>>, UsageFault<'a>>
    requires { names.old.items ≡ [] }
    ensures names { OnOk result (AreNames names.new.items) }
    ensures same { IfOk result (λ places. names.new.items ≡ names_of places.items) }
    ensures words { IfOk result
        (λ places. NamesReplicas (rows_of (found_of matches.now)) places.items) }
{
    let texts = matches.get_strs("REPLICA").unwrap_or(&[]);
    places_of(alloc, names, texts)
}

/// The replicas that these texts name, in their order, and their names.
fn places_of<'a>(
    alloc: Global,
    names: &mut Vec<u16>,
    texts: &[&'a str],
) -> Result<Vec<Place<'a>>, UsageFault<'a>>
    requires { names.old.items ≡ [] }
    ensures names { OnOk result (AreNames names.new.items) }
    ensures same { IfOk result (λ places. names.new.items ≡ names_of places.items) }
    ensures texts { IfOk result
        (λ places. AreTexts IsPlaceText (map (λ text. text.now) texts.now) places.items) }
{
    let mut places = Vec::new(alloc);
    for text in texts {
        match add_place(names, &mut places, text) {
            Ok(()) => {}
            Err(fault) => return Err(fault),
        }
    }
    Ok(places)
}

/// The replicas that are to join by the words, in their order. Their names are added after the
/// others.
fn joins_in<'a>(
    alloc: Global,
    names: &mut Vec<u16>,
    matches: &ArgMatches<'a>,
) -> Result<Vec<Join<'a>>, UsageFault<'a>>
    requires { AreNames names.old.items }
    ensures names { IfOk result (λ joins. AreNames (names.old.items ++ join_names_of joins.items)) }
    ensures more { IfOk result
        (λ joins. names.new.items ≡ names.old.items ++ join_names_of joins.items) }
    ensures peers { IfOk result (λ joins. HavePeers names.old.items joins.items) }
    ensures words { IfOk result
        (λ joins. NamesJoins (rows_of (found_of matches.now)) joins.items) }
{
    let texts = matches.get_strs("join").unwrap_or(&[]);
    joins_of(alloc, names, texts)
}

/// The replicas that are to join by these texts, in their order. Their names are added after the
/// others.
fn joins_of<'a>(
    alloc: Global,
    names: &mut Vec<u16>,
    texts: &[&'a str],
) -> Result<Vec<Join<'a>>, UsageFault<'a>>
    requires { AreNames names.old.items }
    ensures names { IfOk result (λ joins. AreNames (names.old.items ++ join_names_of joins.items)) }
    ensures more { IfOk result
        (λ joins. names.new.items ≡ names.old.items ++ join_names_of joins.items) }
    ensures peers { IfOk result (λ joins. HavePeers names.old.items joins.items) }
    ensures texts { IfOk result
        (λ joins. AreTexts IsJoinText (map (λ text. text.now) texts.now) joins.items) }
{
    let mut joins = Vec::new(alloc);
    for text in texts {
        match add_join(names, &mut joins, text) {
            Ok(()) => {}
            Err(fault) => return Err(fault),
        }
    }
    Ok(joins)
}

/// Where replicas with these names also listen for clients of IMAP4rev1 by the words, in their
/// order.
fn rev1_in<'a>(
    alloc: Global,
    names: &[u16],
    matches: &ArgMatches<'a>,
) -> Result<Vec<Place<'a>>, UsageFault<'a>>
    ensures among { IfOk result (λ places. AreAmong names.now places.items) }
    ensures words { IfOk result
        (λ places. NamesRev1 (rows_of (found_of matches.now)) places.items) }
{
    let texts = matches.get_strs("rev1").unwrap_or(&[]);
    let mut own = Vec::new(alloc);
    let places = match places_of(alloc, &mut own, texts) {
        Ok(places) => places,
        Err(why) => return Err(rev1_fault(why)),
    };
    match unknown_name(names, &own) {
        None => Ok(places),
        Some(name) => Err(UsageFault::UnknownRev1(name)),
    }
}

/// The first of these names that isn't among the known ones, if any.
fn unknown_name(known: &[u16], names: &[u16]) -> Option<u16>
    ensures { IfNone result (All (λ name. is_named name known.now ≡ true) names.now) }
{
    for name in names {
        if !known.contains(name) {
            return Some(*name);
        }
    }
    None
}

/// The fault in words for IMAP4rev1, by the one that the same words for replicas have.
fn rev1_fault<'a>(why: UsageFault<'a>) -> UsageFault<'a> {
    match why {
        UsageFault::BadReplica(text) => UsageFault::BadRev1(text),
        UsageFault::Twice(name) => UsageFault::Rev1Twice(name),
        why => why,
    }
}

/// Adds the replica that is to join by a word, and its name.
fn add_join<'a>(
    names: &mut Vec<u16>,
    joins: &mut Vec<Join<'a>>,
    text: &'a str,
) -> Result<(), UsageFault<'a>>
    requires { AreNames names.old.items }
    ensures names { OnOk result (AreNames names.new.items) }
    ensures more { OnOk result ((join : Join)
        × (names.new.items ≡ names.old.items ++ join.place.replica ∷ [])
        × (is_named join.peer names.old.items ≡ true)
        × IsJoinText text.entry.now join
        × (joins.new.items ≡ joins.old.items ++ join ∷ [])) }
{
    let Some(join) = join_of(text) else {
        return Err(UsageFault::BadJoin(text));
    };
    if !names.contains(&join.peer) {
        return Err(UsageFault::BadJoin(text));
    }
    let replica = join.place.replica;
    match add_name(names, replica) {
        Ok(true) => {}
        Ok(false) => return Err(UsageFault::Twice(replica)),
        Err(_) => return Err(UsageFault::NoMemory),
    }
    match joins.push(join) {
        Ok(()) => Ok(()),
        Err(_) => Err(UsageFault::NoMemory),
    }
}

/// Adds the replica that a word names, and its name.
fn add_place<'a>(
    names: &mut Vec<u16>,
    places: &mut Vec<Place<'a>>,
    text: &'a str,
) -> Result<(), UsageFault<'a>>
    requires names { AreNames names.old.items }
    requires same { names_of places.old.items ≡ names.old.items }
    ensures names { OnOk result (AreNames names.new.items) }
    ensures same { OnOk result (names_of places.new.items ≡ names.new.items) }
    ensures more { OnOk result ((place : Place)
        × IsPlaceText text.entry.now place
        × (places.new.items ≡ places.old.items ++ place ∷ [])) }
{
    let Some(place) = place_of(text) else {
        return Err(UsageFault::BadReplica(text));
    };
    let replica = place.replica;
    match add_name(names, replica) {
        Ok(true) => {}
        Ok(false) => return Err(UsageFault::Twice(replica)),
        Err(_) => return Err(UsageFault::NoMemory),
    }
    match places.push(place) {
        Ok(()) => Ok(()),
        Err(_) => Err(UsageFault::NoMemory),
    }
}

/// Adds a name unless the list has it; false if it does.
pub(crate) fn add_name(names: &mut Vec<u16>, name: u16) -> Result<bool, AllocError>
    requires positive { 0 < name }
    requires names { AreNames names.old.items }
    ensures names { IfOk result (λ is_new. is_new ≡ true → AreNames names.new.items) }
    ensures items { IfOk result
        (λ is_new. is_new ≡ true → names.new.items ≡ names.old.items ++ name ∷ []) }
{
    if names.contains(&name) {
        return Ok(false);
    }
    match names.push(name) {
        Ok(()) => Ok(true),
        Err(_) => Err(AllocError),
    }
}

/// The replica that a word names: a number from 1 to 65,535 without leading zeros, `=`, and an
/// address of at least one octet. `None` for any other text.
pub fn place_of(text: &str) -> Option<Place<'_>>
    ensures positive { IfSome result (λ place. 0 < place.replica) }
    ensures some { IfSome result (λ place. IsPlaceText text.now place) }
    ensures none { IfNone result ((place : Place) → IsPlaceText text.now place → ⊥) }
{
    let (name, address) = text.split_once('=')?;
    if address.is_empty() {
        return None;
    }
    let replica = name_of(name)?;
    Some(Place { replica, address })
}

/// The replica that is to join by a word: a replica with its address, and after the last `/` the
/// name of its peer. `None` for any other text.
pub fn join_of(text: &str) -> Option<Join<'_>>
    ensures positive { IfSome result (λ join. 0 < join.place.replica) }
    ensures some { IfSome result (λ join. IsJoinText text.now join) }
    ensures none { IfNone result ((join : Join) → IsJoinText text.now join → ⊥) }
{
    let (place, peer) = text.rsplit_once('/')?;
    let place = place_of(place)?;
    let peer = name_of(peer)?;
    Some(Join { place, peer })
}

/// The name that these digits spell: a number from 1 to 65,535 without leading zeros. `None` for
/// any other text.
pub(crate) fn name_of(digits: &str) -> Option<u16>
    ensures positive { IfSome result (λ name. 0 < name) }
    ensures some { IfSome result (λ name. IsNameText digits.now name) }
    ensures none { IfNone result ((name : ℕ) → IsNameText digits.now name → ⊥) }
{
    if !digits.bytes().all(|octet| octet.is_ascii_digit()) || digits.starts_with('0') {
        return None;
    }
    match digits.parse::<u16>() {
        Ok(0) => None,
        Ok(name) => Some(name),
        Err(_) => None,
    }
}

/// Whether the words were refused since memory ran out.
pub fn is_out_of_memory(error: &Error) -> bool {
    error.kind() == ErrorKind::OutOfMemory
}
