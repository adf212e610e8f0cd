//! Which mailboxes RENAME renames (RFC 3501, section 6.3.5).

use crate::descriptions::latin;
use imap_types::Name;
use rev1_front::{RenamePlan, plan_rename};
use std::alloc::{AllocError, Global};
use std::test::Fail;

/// The mailboxes that exist.
const MAILBOXES: &[&str] = &[
    "INBOX",
    "INBOX/sub",
    "foo",
    "foo/bar",
    "foo/bar/baz",
    "foobar",
    "zap",
];

/// An old and a new name, and the mailboxes with their new names, or the reason of a refusal.
const ROWS: &[(&str, &str, &str)] = &[
    ("zap", "zowie", "zap>zowie,"),
    // Inferiors are renamed too.
    (
        "foo",
        "new",
        "foo>new,foo/bar>new/bar,foo/bar/baz>new/bar/baz,",
    ),
    ("foo/bar", "b", "foo/bar>b,foo/bar/baz>b/baz,"),
    // A separator at the end declares that there will be inferiors.
    ("zap", "zowie/", "zap>zowie,"),
    // INBOX is emptied into the new name, and what is below it stays.
    ("INBOX", "old-mail", "INBOX>old-mail,"),
    ("foo/bar/baz", "x", "foo/bar/baz>x,"),
    ("gone", "x", "NoSuchMailbox"),
    ("fo", "x", "NoSuchMailbox"),
    ("zap", "foo", "MailboxExists"),
    ("zap", "inbox", "MailboxExists"),
    ("foo/bar", "INBOX", "MailboxExists"),
    ("zap", "zap", "NameNotAllowed"),
    ("zap", "zap/", "NameNotAllowed"),
    ("foo", "foo/x", "NameNotAllowed"),
    ("gone", "gone", "NoSuchMailbox"),
];

/// A plan as text.
fn plan_text(alloc: Global, from: &str, to: &str) -> Result<String, AllocError> {
    let mut mailboxes = Vec::new(alloc);
    for name in MAILBOXES {
        mailboxes.push(Name::from_slice(alloc, name.as_bytes())?)?;
    }
    let from = Name::from_slice(alloc, from.as_bytes())?;
    let to = Name::from_slice(alloc, to.as_bytes())?;
    match plan_rename(alloc, &from, &to, &mailboxes)? {
        RenamePlan::Refused(reason) => format!(in alloc; "{reason:?}"),
        RenamePlan::Mailboxes(renamed) => {
            let mut text = String::new(alloc);
            for mailbox in &renamed {
                text.push_str(&latin(alloc, mailbox.from.as_bytes())?)?;
                text.push('>')?;
                text.push_str(&latin(alloc, mailbox.to.as_bytes())?)?;
                text.push(',')?;
            }
            Ok(text)
        }
    }
}

/// The first row that isn't as it says, if any.
fn first_wrong_plan(alloc: Global) -> Result<Option<String>, AllocError> {
    for row in ROWS {
        let (from, to, expected) = *row;
        let text = plan_text(alloc, from, to)?;
        if text.as_str() != expected {
            return Ok(Some(format!(in alloc; "{from} {to}: {text}")?));
        }
    }
    Ok(None)
}

#[test]
fn mailboxes_are_renamed(rt: HostRuntime) -> Result<(), Fail> {
    let wrong = first_wrong_plan(rt.alloc())?;
    assert_eq!(rt; wrong.as_deref(), None);
    Ok(())
}
