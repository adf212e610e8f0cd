//! Commands as text, so that two of them can be compared.

use imap_syntax::{Command, SearchStep, SearchTest, StatusItem, Tagged};
use imap_types::SequenceSet;
use std::alloc::{AllocError, Global};

/// A command with its tag as text.
pub fn tagged_text(alloc: Global, tagged: &Tagged) -> Result<String, AllocError> {
    let command = command_text(alloc, &tagged.command)?;
    format!(in alloc; "{} {command}", latin(alloc, tagged.tag.as_bytes())?)
}

/// Octets as text, each as the character with its number.
pub fn latin(alloc: Global, octets: &[u8]) -> Result<String, AllocError> {
    let mut text = String::new(alloc);
    for octet in octets {
        text.push(char::from(*octet))?;
    }
    Ok(text)
}

fn command_text(alloc: Global, command: &Command) -> Result<String, AllocError> {
    match command {
        Command::Capability => format!(in alloc; "CAPABILITY"),
        Command::Noop => format!(in alloc; "NOOP"),
        Command::Idle => format!(in alloc; "IDLE"),
        Command::Login { user, password } => {
            let user = latin(alloc, user.as_bytes())?;
            let password = latin(alloc, password.as_bytes())?;
            format!(in alloc; "LOGIN [{user}] [{password}]")
        }
        Command::Select { name, condstore } => {
            let name = latin(alloc, name.as_bytes())?;
            format!(in alloc; "SELECT [{name}] {condstore}")
        }
        Command::Examine { name, condstore } => {
            let name = latin(alloc, name.as_bytes())?;
            format!(in alloc; "EXAMINE [{name}] {condstore}")
        }
        _ => other_text(alloc, command),
    }
}

fn other_text(alloc: Global, command: &Command) -> Result<String, AllocError> {
    match command {
        Command::Create { name } => named_text(alloc, "CREATE", name.as_bytes()),
        Command::Delete { name } => named_text(alloc, "DELETE", name.as_bytes()),
        Command::Subscribe { name } => named_text(alloc, "SUBSCRIBE", name.as_bytes()),
        Command::Unsubscribe { name } => named_text(alloc, "UNSUBSCRIBE", name.as_bytes()),
        Command::Append(asked) => named_text(alloc, "APPEND", asked.name.as_bytes()),
        Command::Copy(asked) => named_text(alloc, "COPY", asked.name.as_bytes()),
        Command::Move(asked) => named_text(alloc, "MOVE", asked.name.as_bytes()),
        Command::ListNames(asked) => {
            let reference = latin(alloc, asked.reference.as_bytes())?;
            let pattern = latin(alloc, asked.pattern.as_bytes())?;
            let only = asked.subscribed_only;
            format!(in alloc; "LIST {only} [{reference}] [{pattern}]")
        }
        Command::Status { name, items } => {
            let name = latin(alloc, name.as_bytes())?;
            let items = items_text(alloc, items.as_slice())?;
            format!(in alloc; "STATUS [{name}] {items}")
        }
        Command::Search(asked) => {
            let steps = steps_text(alloc, asked.steps.as_slice())?;
            let by_uid = asked.by_uid;
            let options = asked.options.as_slice().len();
            format!(in alloc; "SEARCH {by_uid} {options} {steps}")
        }
        _ => format!(in alloc; "another command"),
    }
}

fn named_text(alloc: Global, word: &str, name: &[u8]) -> Result<String, AllocError> {
    let name = latin(alloc, name)?;
    format!(in alloc; "{word} [{name}]")
}

fn items_text(alloc: Global, items: &[StatusItem]) -> Result<String, AllocError> {
    let mut text = String::new(alloc);
    for item in items {
        text.push_str(&format!(in alloc; "{item:?},")?)?;
    }
    Ok(text)
}

fn steps_text(alloc: Global, steps: &[SearchStep]) -> Result<String, AllocError> {
    let mut text = String::new(alloc);
    for step in steps {
        text.push_str(&step_text(alloc, step)?)?;
    }
    Ok(text)
}

fn step_text(alloc: Global, step: &SearchStep) -> Result<String, AllocError> {
    match step {
        SearchStep::Test(test) => test_text(alloc, test),
        SearchStep::Not => format!(in alloc; "not,"),
        SearchStep::Or => format!(in alloc; "or,"),
        SearchStep::And => format!(in alloc; "and,"),
    }
}

fn test_text(alloc: Global, test: &SearchTest) -> Result<String, AllocError> {
    match test {
        SearchTest::All => format!(in alloc; "all,"),
        SearchTest::System { flag, is_set } => format!(in alloc; "{flag:?} {is_set},"),
        SearchTest::Keyword { keyword, is_set } => {
            let keyword = latin(alloc, keyword.as_bytes())?;
            format!(in alloc; "keyword {keyword} {is_set},")
        }
        SearchTest::Holds { place, text } => {
            let text = latin(alloc, text.as_bytes())?;
            format!(in alloc; "{place:?} [{text}],")
        }
        SearchTest::Header { name, text } => {
            let name = latin(alloc, name.as_bytes())?;
            let text = latin(alloc, text.as_bytes())?;
            format!(in alloc; "header [{name}] [{text}],")
        }
        SearchTest::Dated { order, day } => {
            let (year, month, of_month) = (day.year, day.month, day.day);
            format!(in alloc; "{order:?} {year}-{month}-{of_month},")
        }
        SearchTest::Larger { octets } => format!(in alloc; "larger {octets},"),
        SearchTest::Smaller { octets } => format!(in alloc; "smaller {octets},"),
        SearchTest::ModSeq { value } => format!(in alloc; "modseq {value},"),
        SearchTest::Uids { uids } => set_text(alloc, "uids", uids),
        SearchTest::Numbers { numbers } => set_text(alloc, "numbers", numbers),
    }
}

fn set_text(alloc: Global, word: &str, set: &SequenceSet) -> Result<String, AllocError> {
    let mut text = format!(in alloc; "{word}")?;
    for range in set.ranges() {
        text.push_str(&format!(in alloc; " {range:?}")?)?;
    }
    text.push(',')?;
    Ok(text)
}
