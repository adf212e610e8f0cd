//! The server's command lines.

use server_settings::{
    Access, ClientLimits, CommandLine, GivenAccess, SettingsFault, UsageFault, access_of,
    read_settings,
};
use std::alloc::{AllocError, Global};
use std::test::*;

/// Command lines that name who may use the server, and the settings or the fault of each.
const ACCESSES: &[(&str, &str)] = &[
    (
        "imap_server 1=127.0.0.1:1",
        "usage: give --preauth, or --user and --pass",
    ),
    (
        "imap_server --preauth --user u 1=a",
        "usage: give --preauth, or --user and --pass",
    ),
    (
        "imap_server --user u 1=a",
        "usage: give --preauth, or --user and --pass",
    ),
    ("imap_server --user u --pass p 1=a", "password 1 false"),
    ("imap_server --user u --pass-file f 1=a", "file 1 false"),
    (
        "imap_server --user u --pass p --pass-file f 1=a",
        "usage: give --preauth, or --user and --pass",
    ),
    (
        "imap_server --preauth --pass-file f 1=a",
        "usage: give --preauth, or --user and --pass",
    ),
    (
        "imap_server --pass-file f 1=a",
        "usage: give --preauth, or --user and --pass",
    ),
    ("imap_server --preauth 1=a 2=b", "preauth 2 false"),
];

/// Command lines whose last word names no replica.
const BAD_REPLICAS: &[(&str, &str)] = &[
    ("imap_server --preauth 7=b 1", "usage: bad replica 1"),
    ("imap_server --preauth 7=b =a", "usage: bad replica =a"),
    ("imap_server --preauth 7=b 1=", "usage: bad replica 1="),
    ("imap_server --preauth 7=b 0=a", "usage: bad replica 0=a"),
    ("imap_server --preauth 7=b 01=a", "usage: bad replica 01=a"),
    (
        "imap_server --preauth 7=b 65536=a",
        "usage: bad replica 65536=a",
    ),
    ("imap_server --preauth 7=b +1=a", "usage: bad replica +1=a"),
    ("imap_server --preauth 7=b x=a", "usage: bad replica x=a"),
];

/// Command lines with distinct replicas, and with one replica twice.
const DISTINCT_REPLICAS: &[(&str, &str)] = &[
    ("imap_server --preauth 65535=a=b", "preauth 1 false"),
    (
        "imap_server --preauth 1=a 2=b 1=c",
        "usage: replica 1 twice",
    ),
];

/// Command lines with a bound of connections, and with words that clap refuses.
const OTHERS: &[(&str, &str)] = &[
    (
        "imap_server --preauth --stop-after 4294967295 1=a",
        "preauth 1 true",
    ),
    ("imap_server --preauth --stop-after 4294967296 1=a", "words"),
    ("imap_server --preauth", "words"),
    ("imap_server --preauth -1=a", "words"),
];

/// Values of `--journal`, with the bound of each; `None` if clap refuses it.
const JOURNALS: &[(&str, Option<Option<u64>>)] = &[
    ("all", Some(None)),
    ("0", Some(Some(0))),
    ("1", Some(Some(1))),
    ("1K", Some(Some(1_024))),
    ("2M", Some(Some(2_097_152))),
    ("3G", Some(Some(3_221_225_472))),
    ("0G", Some(Some(0))),
    (
        "18446744073709551615",
        Some(Some(18_446_744_073_709_551_615)),
    ),
    ("17179869183G", Some(Some(18_446_744_072_635_809_792))),
    ("18446744073709551616", None),
    ("17179869184G", None),
    ("K", None),
    ("1k", None),
    ("1KB", None),
    ("1KM", None),
    ("1.5G", None),
    ("1T", None),
    ("All", None),
    ("x", None),
    ("-1", None),
];

/// Words with limits, and the seconds and octets that they name; `None` if clap refuses them.
const LIMITS: &[(&str, Option<(u32, u32, u32, u32)>)] = &[
    ("--preauth", Some((60, 1_800, 60, 1_048_576))),
    (
        "--preauth --login-time 1 --idle-time 2 --write-time 3 --literal-limit 4",
        Some((1, 2, 3, 4)),
    ),
    (
        "--preauth --login-time 4294967295 --literal-limit 20971520",
        Some((4_294_967_295, 1_800, 60, 20_971_520)),
    ),
    ("--preauth --login-time 0", None),
    ("--preauth --idle-time 0", None),
    ("--preauth --write-time 0", None),
    ("--preauth --literal-limit 0", None),
    ("--preauth --login-time 4294967296", None),
    ("--preauth --literal-limit 20971521", None),
    ("--preauth --idle-time 30m", None),
    ("--preauth --write-time -1", None),
];

/// Command lines with a word that names no replica that can join replicas 1 and 2.
const BAD_JOINS: &[(&str, &str)] = &[
    (
        "imap_server --preauth --join 3 1=a 2=b",
        "usage: bad join 3",
    ),
    (
        "imap_server --preauth --join 3=a 1=a 2=b",
        "usage: bad join 3=a",
    ),
    (
        "imap_server --preauth --join 3=a/ 1=a 2=b",
        "usage: bad join 3=a/",
    ),
    (
        "imap_server --preauth --join 3=/1 1=a 2=b",
        "usage: bad join 3=/1",
    ),
    (
        "imap_server --preauth --join =a/1 1=a 2=b",
        "usage: bad join =a/1",
    ),
    (
        "imap_server --preauth --join 3=a/4 1=a 2=b",
        "usage: bad join 3=a/4",
    ),
    (
        "imap_server --preauth --join 3=a/3 1=a 2=b",
        "usage: bad join 3=a/3",
    ),
    (
        "imap_server --preauth --join 3=a/01 1=a 2=b",
        "usage: bad join 3=a/01",
    ),
    (
        "imap_server --preauth --join 3=a/1/ 1=a 2=b",
        "usage: bad join 3=a/1/",
    ),
    (
        "imap_server --preauth --join 03=a/1 1=a 2=b",
        "usage: bad join 03=a/1",
    ),
    (
        "imap_server --preauth --join 0=a/1 1=a 2=b",
        "usage: bad join 0=a/1",
    ),
];

/// Command lines with replicas that can join, with one twice, with one whose peer comes after it,
/// and with one next to a word that names no replica.
const JOINS: &[(&str, &str)] = &[
    (
        "imap_server --preauth --join 3=a/b/2 1=a 2=b",
        "preauth 3 false",
    ),
    (
        "imap_server --preauth --join 2=a/1 1=a 2=b",
        "usage: replica 2 twice",
    ),
    (
        "imap_server --preauth --join 3=a/2 --join 4=c/3 1=a 2=b",
        "preauth 4 false",
    ),
    (
        "imap_server --preauth --join 3=a/4 --join 4=c/1 1=a 2=b",
        "usage: bad join 3=a/4",
    ),
    (
        "imap_server --preauth --join x 1=a y",
        "usage: bad replica y",
    ),
];

/// Command lines of linked processes: the settings, or the fault of each.
const LINKS: &[(&str, &str)] = &[
    (
        "imap_server --preauth --store d --link-listen l --secret-file f 1=a",
        "preauth 1 false",
    ),
    (
        "imap_server --preauth --store d --peer 2=h:1 --peer 3=[::1]:65535 --secret-file f 1=a",
        "preauth 1 false",
    ),
    (
        "imap_server --preauth --store d --link-listen l 1=a",
        "usage: give --secret-file with --link-listen or --peer, and only there",
    ),
    (
        "imap_server --preauth --store d --peer x 1=a",
        "usage: give --secret-file with --link-listen or --peer, and only there",
    ),
    (
        "imap_server --preauth --store d --secret-file f 1=a",
        "usage: give --secret-file with --link-listen or --peer, and only there",
    ),
    (
        "imap_server --preauth --link-listen l --secret-file f 1=a",
        "usage: links want one replica, --store and no --join",
    ),
    (
        "imap_server --preauth --store d --link-listen l --secret-file f 1=a 2=b",
        "usage: links want one replica, --store and no --join",
    ),
    (
        "imap_server --preauth --store d --peer x --secret-file f --join 2=b/1 1=a",
        "usage: links want one replica, --store and no --join",
    ),
    (
        "imap_server --preauth --store d --peer 2=h --secret-file f 1=a",
        "usage: bad peer 2=h",
    ),
    (
        "imap_server --preauth --store d --peer 2=h: --secret-file f 1=a",
        "usage: bad peer 2=h:",
    ),
    (
        "imap_server --preauth --store d --peer 2=:1 --secret-file f 1=a",
        "usage: bad peer 2=:1",
    ),
    (
        "imap_server --preauth --store d --peer 2=h:0 --secret-file f 1=a",
        "usage: bad peer 2=h:0",
    ),
    (
        "imap_server --preauth --store d --peer 2=h:65536 --secret-file f 1=a",
        "usage: bad peer 2=h:65536",
    ),
    (
        "imap_server --preauth --store d --peer 0=h:1 --secret-file f 1=a",
        "usage: bad peer 0=h:1",
    ),
    (
        "imap_server --preauth --store d --peer 1=h:1 --secret-file f 1=a",
        "usage: replica 1 twice",
    ),
    (
        "imap_server --preauth --store d --peer 2=h:1 --peer 2=i:2 --secret-file f 1=a",
        "usage: replica 2 twice",
    ),
];

/// Whether everybody is known, the given user and password, and the access that they name.
const ACCESS_CASES: &[(bool, Option<&str>, Option<&str>, Option<Access<'_>>)] = &[
    (
        false,
        Some("me"),
        Some("secret"),
        Some(Access::Password {
            user: "me",
            pass: "secret",
        }),
    ),
    (true, None, None, Some(Access::Preauth)),
    (true, Some("me"), Some("secret"), None),
    (true, None, Some("secret"), None),
    (false, None, Some("secret"), None),
    (false, None, None, None),
];

/// The words of a command line, cut at spaces.
fn words_of(alloc: Global, line: &str) -> Result<Vec<String>, AllocError> {
    let mut words = Vec::new(alloc);
    for word in line.split(' ') {
        words.push(String::from_str(alloc, word)?)?;
    }
    Ok(words)
}

/// The settings as text: the access, the number of replicas, and whether there is a bound of
/// connections.
fn settings_text(alloc: Global, settings: &CommandLine<'_>) -> Result<String, AllocError> {
    let access = match settings.access {
        GivenAccess::Whole(Access::Preauth) => "preauth",
        GivenAccess::Whole(Access::Password { .. }) => "password",
        GivenAccess::PassFile { .. } => "file",
    };
    format!(in alloc;
        "{access} {} {}",
        settings.places.len() + settings.joins.len(),
        settings.stop_after.is_some()
    )
}

/// The text that the program prints about a fault; `words` for faults of the words, which are
/// clap's.
fn fault_text(alloc: Global, fault: &SettingsFault<'_>) -> Result<String, AllocError> {
    match fault {
        SettingsFault::Words(_) => format!(in alloc; "words"),
        SettingsFault::Usage(why) => format!(in alloc; "{why}"),
    }
}

/// The settings of these words as text, or the text of the fault.
fn outcome_text(alloc: Global, words: &[String]) -> Result<String, AllocError> {
    match read_settings(alloc, words) {
        Ok(settings) => settings_text(alloc, &settings),
        Err(fault) => fault_text(alloc, &fault),
    }
}

/// Whether this is the expected text.
fn is_text(text: Result<String, AllocError>, expected: &str) -> bool {
    match text {
        Ok(text) => text.as_str() == expected,
        Err(_) => false,
    }
}

/// Whether the settings or the fault of a command line have the expected text.
fn has_outcome_text(alloc: Global, line: &str, expected: &str) -> bool {
    match words_of(alloc, line) {
        Ok(words) => is_text(outcome_text(alloc, &words), expected),
        Err(_) => false,
    }
}

/// The place of the first command line with another text.
fn first_wrong(alloc: Global, lines: &[(&str, &str)]) -> Option<usize> {
    lines
        .iter()
        .position(|line| !has_outcome_text(alloc, line.0, line.1))
}

/// The bound of journals that the words name; `None` if they are refused.
fn bound_of_words(alloc: Global, words: &[String]) -> Option<Option<u64>> {
    match read_settings(alloc, words) {
        Ok(settings) => Some(settings.journal),
        Err(_) => None,
    }
}

/// The bound of journals with this value of `--journal`; `None` if it is refused.
fn bound_of_value(alloc: Global, value: &str) -> Result<Option<Option<u64>>, AllocError> {
    let line = format!(in alloc; "imap_server --preauth --journal {value} 1=a")?;
    let words = words_of(alloc, line.as_str())?;
    Ok(bound_of_words(alloc, &words))
}

/// The place of the first value with another bound.
fn first_other_bound(alloc: Global, values: &[(&str, Option<Option<u64>>)]) -> Option<usize> {
    values
        .iter()
        .position(|value| bound_of_value(alloc, value.0) != Ok(value.1))
}

#[test]
fn journals_have_bounds(rt: HostRuntime) -> Result<(), Fail> {
    let alloc = rt.alloc();
    assert_eq!(rt; first_other_bound(alloc, JOURNALS), None);
    let words = words_of(alloc, "imap_server --preauth 1=a")?;
    assert_eq!(rt; bound_of_words(alloc, &words), Some(Some(67_108_864)));
    Ok(())
}

/// The limits of these words; `None` if they are refused.
fn limits_of_words(alloc: Global, words: &[String]) -> Option<ClientLimits> {
    match read_settings(alloc, words) {
        Ok(settings) => Some(settings.limits),
        Err(_) => None,
    }
}

/// Whether the words name just these limits.
fn has_limits(alloc: Global, words: &str, expected: Option<(u32, u32, u32, u32)>) -> bool {
    let Ok(line) = format!(in alloc; "imap_server {words} 1=a") else {
        return false;
    };
    let Ok(words) = words_of(alloc, line.as_str()) else {
        return false;
    };
    let limits = limits_of_words(alloc, &words).map(|it| (
        it.login_time,
        it.idle_time,
        it.write_time,
        it.literals,
    ));
    limits == expected
}

#[test]
fn limits_are_numbers(rt: HostRuntime) {
    let first = LIMITS
        .iter()
        .position(|row| !has_limits(rt.alloc(), row.0, row.1));
    assert_eq!(rt; first, None);
}

/// The access that a command line names, with a password if it is one of a file.
fn access_with_pass<'a>(alloc: Global, words: &'a [String], pass: &'a str) -> Option<Access<'a>> {
    match read_settings(alloc, words) {
        Ok(settings) => Some(settings.access.with_pass(pass)),
        Err(_) => None,
    }
}

#[test]
fn a_file_takes_the_place_of_a_password(rt: HostRuntime) -> Result<(), Fail> {
    let alloc = rt.alloc();
    let of_file = Access::Password {
        user: "u",
        pass: "of file",
    };
    let words = words_of(alloc, "imap_server --user u --pass-file f 1=a")?;
    assert!(rt; access_with_pass(alloc, &words, "of file") == Some(of_file));
    let words = words_of(alloc, "imap_server --preauth 1=a")?;
    assert!(rt; access_with_pass(alloc, &words, "of file") == Some(Access::Preauth));
    Ok(())
}

#[test]
fn access_is_named_once(rt: HostRuntime) {
    assert_eq!(rt; first_wrong(rt.alloc(), ACCESSES), None);
}

#[test]
fn replicas_are_named_well(rt: HostRuntime) {
    assert_eq!(rt; first_wrong(rt.alloc(), BAD_REPLICAS), None);
}

#[test]
fn replicas_are_named_apart(rt: HostRuntime) {
    assert_eq!(rt; first_wrong(rt.alloc(), DISTINCT_REPLICAS), None);
}

#[test]
fn other_words_are_refused(rt: HostRuntime) {
    assert_eq!(rt; first_wrong(rt.alloc(), OTHERS), None);
}

#[test]
fn joins_name_replicas_and_peers(rt: HostRuntime) {
    assert_eq!(rt; first_wrong(rt.alloc(), BAD_JOINS), None);
    assert_eq!(rt; first_wrong(rt.alloc(), JOINS), None);
}

#[test]
fn links_have_peers_and_a_secret(rt: HostRuntime) {
    assert_eq!(rt; first_wrong(rt.alloc(), LINKS), None);
}

/// The place of the first row that names another access, or none.
fn first_misnamed() -> Option<usize> {
    ACCESS_CASES
        .iter()
        .position(|row| access_of(row.0, row.1, row.2) != row.3)
}

#[test]
fn user_and_password_are_not_swapped(rt: HostRuntime) {
    assert_eq!(rt; first_misnamed(), None);
}

#[test]
fn lack_of_memory_is_a_run_fault(rt: HostRuntime) {
    let text = fault_text(rt.alloc(), &SettingsFault::Usage(UsageFault::NoMemory));
    assert!(rt; is_text(text, "run fault"));
}
