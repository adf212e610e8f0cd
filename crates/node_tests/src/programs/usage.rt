//! The server's output and status if a command line gives no settings.

use crate::programs::screen::Screen;
use server_settings::{VERSION, print_fault, settings_or_status};
use std::alloc::{AllocError, Global};

/// Command lines with a value that can't be used, and what is printed.
const BAD_VALUES: &[(&str, &str)] = &[
    (
        "imap_server 1=127.0.0.1:1",
        "usage: give --preauth, or --user and --pass\n",
    ),
    ("imap_server --preauth 1", "usage: bad replica 1\n"),
    ("imap_server --preauth 1=a 1=b", "usage: replica 1 twice\n"),
    ("imap_server --preauth --join 3 1=a", "usage: bad join 3\n"),
    ("imap_server --preauth --rev1 1 1=a", "usage: bad rev1 1\n"),
    (
        "imap_server --preauth --rev1 1=b --rev1 1=c 1=a",
        "usage: rev1 1 twice\n",
    ),
    (
        "imap_server --preauth --rev1 2=b 1=a",
        "usage: rev1 2 is no replica\n",
    ),
];

/// Command lines that clap refuses, and its texts.
const BAD_WORDS: &[(&str, &str)] = &[
    (
        "imap_server",
        "error: the following required arguments were not provided:\n  <REPLICA>...\n\nUsage: imap_server <REPLICA>...\n\nFor more information, try '--help'.\n",
    ),
    (
        "imap_server --nowhere",
        "error: unexpected argument '--nowhere' found\n\n  tip: to pass '--nowhere' as a value, use '-- --nowhere'\n\nUsage: imap_server [OPTIONS] <REPLICA>...\n\nFor more information, try '--help'.\n",
    ),
    (
        "imap_server --preauth --stop-after 4294967296 1=a",
        "error: invalid value '4294967296' for '--stop-after <stop-after>': 4294967296 is not in 0..=4294967295\n\nFor more information, try '--help'.\n",
    ),
    (
        "imap_server --preauth --login-time 0 1=a",
        "error: invalid value '0' for '--login-time <login-time>': 0 is not in 1..=4294967295\n\nFor more information, try '--help'.\n",
    ),
    (
        "imap_server --preauth --literal-limit 20971521 1=a",
        "error: invalid value '20971521' for '--literal-limit <literal-limit>': 20971521 is not in 1..=20971520\n\nFor more information, try '--help'.\n",
    ),
    (
        "imap_server --preauth --journal x 1=a",
        "error: invalid value 'x' for '--journal <journal>': invalid digit found in string\n\nFor more information, try '--help'.\n",
    ),
    (
        "imap_server 1=a --user",
        "error: a value is required for '--user <user>' but none was supplied\n\nFor more information, try '--help'.\n",
    ),
    (
        "imap_server --preauth --preauth 1=a",
        "error: the argument '--preauth' cannot be used multiple times\n\nUsage: imap_server [OPTIONS] <REPLICA>...\n\nFor more information, try '--help'.\n",
    ),
];

/// Parts of the help: how to use the program, and each word that it knows.
const HELP_PARTS: &[&str] = &[
    "\n\nUsage: imap_server [OPTIONS] <REPLICA>...\n\nArguments:\n  <REPLICA>...  ",
    "\n\nOptions:\n      --preauth                        ",
    "\n      --user <user>                    ",
    "\n      --pass <pass>                    ",
    "\n      --pass-file <pass-file>          ",
    "\n      --login-time <login-time>        ",
    "\n      --idle-time <idle-time>          ",
    "\n      --write-time <write-time>        ",
    "\n      --literal-limit <literal-limit>  ",
    "\n      --stop-after <stop-after>        ",
    "\n      --journal <journal>              ",
    "\n      --store <store>                  ",
    "\n      --join <join>                    ",
    "\n      --rev1 <rev1>                    ",
    "\n      --link-listen <link-listen>      ",
    "\n      --peer <peer>                    ",
    "\n      --secret-file <secret-file>      ",
    "\n  -h, --help                           Print help\n",
    "\n  -V, --version                        Print version\n",
];

/// The words of a command line, cut at spaces.
fn words_of(alloc: Global, line: &str) -> Result<Vec<String>, AllocError> {
    let mut words = Vec::new(alloc);
    for word in line.split(' ') {
        words.push(String::from_str(alloc, word)?)?;
    }
    Ok(words)
}

/// The status with which the program ends since a command line gives no settings; `None` if it
/// gives some.
fn status_of(alloc: Global, screen: &Screen, line: &str) -> Option<u8> {
    let words = words_of(alloc, line).ok()?;
    match settings_or_status(&(screen, alloc), &words) {
        Ok(_) => None,
        Err(status) => Some(status),
    }
}

/// Whether just this text is printed about a command line, and the status is 2.
fn is_refused(alloc: Global, line: &str, text: &str) -> bool {
    let screen = Screen::new(alloc, true);
    status_of(alloc, &screen, line) == Some(2) && screen.has_shown(text)
}

/// The place of the first command line about which another text is printed, or whose status is
/// another.
fn first_wrong(alloc: Global, lines: &[(&str, &str)]) -> Option<usize> {
    lines
        .iter()
        .position(|line| !is_refused(alloc, line.0, line.1))
}

#[test]
fn bad_values_end_with_status_2(rt: HostRuntime) {
    assert_eq!(rt; first_wrong(rt.alloc(), BAD_VALUES), None);
}

#[test]
fn bad_words_end_with_status_2(rt: HostRuntime) {
    assert_eq!(rt; first_wrong(rt.alloc(), BAD_WORDS), None);
}

/// Whether each part is printed as help, and the status is 0.
fn gives_help(alloc: Global, line: &str) -> bool {
    let screen = Screen::new(alloc, true);
    status_of(alloc, &screen, line) == Some(0)
        && HELP_PARTS.iter().all(|part| screen.has_shown_part(part))
}

#[test]
fn help_ends_with_status_0(rt: HostRuntime) {
    assert!(rt; gives_help(rt.alloc(), "imap_server --help"));
    assert!(rt; gives_help(rt.alloc(), "imap_server 1 -h"));
}

/// Whether just the program's name and its version are printed, and the status is 0.
fn gives_version(alloc: Global, line: &str) -> bool {
    let Ok(text) = format!(in alloc; "imap_server {VERSION}\n") else {
        return false;
    };
    let screen = Screen::new(alloc, true);
    status_of(alloc, &screen, line) == Some(0) && screen.has_shown(&text)
}

/// Whether a text is three numbers with dots between them.
fn is_version(text: &str) -> bool {
    text.split('.').count() == 3 && text.split('.').all(|part| part.parse::<u16>().is_ok())
}

#[test]
fn version_ends_with_status_0(rt: HostRuntime) {
    assert!(rt; gives_version(rt.alloc(), "imap_server --version"));
    assert!(rt; gives_version(rt.alloc(), "imap_server --preauth 1=a -V"));
    assert!(rt; is_version(VERSION));
}

/// Whether the status is 1 if nothing can be printed.
fn fails_without_a_screen(alloc: Global, line: &str) -> bool {
    let screen = Screen::new(alloc, false);
    status_of(alloc, &screen, line) == Some(1)
}

/// Whether a program that can't run says so, with status 1.
fn prints_a_run_fault(alloc: Global) -> bool {
    let screen = Screen::new(alloc, true);
    print_fault(&screen) == 1 && screen.has_shown("run fault\n")
}

#[test]
fn faults_of_the_run_end_with_status_1(rt: HostRuntime) {
    assert!(rt; fails_without_a_screen(rt.alloc(), "imap_server 1=127.0.0.1:1"));
    assert!(rt; fails_without_a_screen(rt.alloc(), "imap_server"));
    assert!(rt; fails_without_a_screen(rt.alloc(), "imap_server --help"));
    assert!(rt; fails_without_a_screen(rt.alloc(), "imap_server --version"));
    assert!(rt; prints_a_run_fault(rt.alloc()));
}
