//! The octets that journal entries take.
//!
//! These are estimates: no contract says anything of them. A sum too large for a `u64` is the
//! largest one. What the replica has as well isn't counted: whole texts, which answers share with
//! the message, the text of an APPEND that was carried out, and the texts of operations.

use crate::book::JournalEntry;
use crate::compact_entry::CompactEntry;
use crate::event::BookEvent;
use crate::fetch_answers::FetchAnswers;
use crate::fetch_exchange::FetchExchange;
use crate::fetch_line::FetchLine;
use crate::outcome::Outcome;
use crdt_ops::SoundOp;
use imap_answers::{Answer, Code, FetchItems, SectionData, Sections};
use imap_node::Reply;
use imap_syntax::{Command, FetchItem, SearchStep, SearchTest, Tagged};
use imap_types::{Flags, NumberSet, Octets, Section, SequenceSet};
use merge_laws::Caused;
use session_view::SilentFlags;

/// The octets of any entry in its block.
pub const ENTRY: u64 = size_of::<CompactEntry>() as u64;

/// The C library's blocks of memory are multiples of this many octets.
const ALIGNMENT: u64 = 16;

/// The octets of a block that the C library needs itself.
const HEADER: u64 = 8;

/// The octets of the smallest block.
const SMALLEST: u64 = 32;

/// The octets of a text, besides its content.
const TEXT: u64 = size_of::<Octets>() as u64;

/// The octets of an item that a FETCH asks for.
const ITEM: u64 = size_of::<FetchItem>() as u64;

/// The octets of a step of a SEARCH, besides what it refers to.
const STEP: u64 = size_of::<SearchStep>() as u64;

/// The octets of a part of a text in an answer, besides its content.
const SECTION: u64 = size_of::<SectionData>() as u64;

/// The octets of an id, a count or a range of numbers.
const RANGE: u64 = 16;

/// The octets of a command and its reply in compact form, besides what they refer to.
const EXCHANGE: u64 = size_of::<FetchExchange>() as u64 + HEADER;

/// The octets of an entry that isn't stored in compact form, besides what it refers to.
const WHOLE: u64 = size_of::<JournalEntry>() as u64 + HEADER;

/// The octets of an answer, besides what it refers to.
const ANSWER: u64 = size_of::<Answer>() as u64;

/// The octets of a FETCH answer in compact form.
const LINE: u64 = size_of::<FetchLine>() as u64;

/// The octets of an operation, besides what it refers to.
const OP: u64 = size_of::<SoundOp>() as u64;

/// The octets of flags that were set silently, besides what they refer to.
const SILENT: u64 = size_of::<SilentFlags>() as u64;

/// The octets of a NOOP's compact entry with this tag.
pub fn octets_of_noop(tag: &Octets) -> u64 {
    ENTRY.saturating_add(octets_of_text(tag))
}

/// The octets of the compact entry of a command whose reply is only FETCH answers and its tagged
/// OK.
pub fn octets_of_exchange(exchange: &FetchExchange) -> u64 {
    ENTRY
        .saturating_add(EXCHANGE)
        .saturating_add(octets_of_tagged(&exchange.tagged))
        .saturating_add(octets_of_shown(&exchange.shown))
}

/// The octets of an entry that isn't stored in compact form.
pub fn octets_of_entry(entry: &JournalEntry) -> u64 {
    ENTRY
        .saturating_add(WHOLE)
        .saturating_add(octets_of_event(&entry.event))
        .saturating_add(octets_of_outcome(&entry.outcome))
        .saturating_add(octets_of_refused_text(&entry.event, &entry.outcome))
}

/// The octets of the block of memory with a content of so many octets; none without one.
fn octets_of_block(content: u64) -> u64 {
    if content == 0 {
        return 0;
    }
    let whole = content.saturating_add(HEADER + ALIGNMENT - 1);
    (whole - whole % ALIGNMENT).max(SMALLEST)
}

/// The octets of a list of `count` parts, each of this size.
fn octets_of_parts(count: usize, size: u64) -> u64 {
    octets_of_block((count as u64).saturating_mul(size))
}

fn octets_of_bytes(octets: &[u8]) -> u64 {
    octets_of_block(octets.len() as u64)
}

fn octets_of_text(octets: &Octets) -> u64 {
    octets_of_bytes(octets.as_bytes())
}

fn octets_of_two(one: &Octets, other: &Octets) -> u64 {
    octets_of_text(one).saturating_add(octets_of_text(other))
}

fn octets_of_texts(many: &[Octets]) -> u64 {
    let mut sum = octets_of_parts(many.len(), TEXT);
    for octets in many {
        sum = sum.saturating_add(octets_of_text(octets));
    }
    sum
}

fn octets_of_set(set: &SequenceSet) -> u64 {
    octets_of_parts(set.ranges().len(), RANGE)
}

fn octets_of_numbers(numbers: &NumberSet) -> u64 {
    octets_of_parts(numbers.runs().len(), RANGE)
}

fn octets_of_flags(flags: &Flags) -> u64 {
    octets_of_texts(flags.keywords.as_slice())
}

fn octets_of_event(event: &BookEvent) -> u64 {
    match event {
        BookEvent::Command { tagged, .. } => octets_of_tagged(tagged),
        BookEvent::Deliver { op } => octets_of_op(op),
        _ => 0,
    }
}

fn octets_of_tagged(tagged: &Tagged) -> u64 {
    octets_of_text(&tagged.tag).saturating_add(octets_of_command(&tagged.command))
}

/// The octets of a command without the text of an APPEND.
fn octets_of_command(command: &Command) -> u64 {
    match command {
        Command::Login { user, password } => octets_of_two(user, password),
        Command::Enable { names } => octets_of_texts(names.as_slice()),
        Command::Select { name, .. } => octets_of_bytes(name.as_bytes()),
        Command::Examine { name, .. } => octets_of_bytes(name.as_bytes()),
        Command::Create { name } => octets_of_bytes(name.as_bytes()),
        Command::Delete { name } => octets_of_bytes(name.as_bytes()),
        Command::Subscribe { name } => octets_of_bytes(name.as_bytes()),
        Command::Unsubscribe { name } => octets_of_bytes(name.as_bytes()),
        Command::ListNames(names) => octets_of_two(&names.reference, &names.pattern),
        Command::Status { name, items } => {
            octets_of_bytes(name.as_bytes()).saturating_add(octets_of_parts(
                items.as_slice().len(),
                RANGE,
            ))
        }
        Command::Append(append) => {
            octets_of_bytes(append.name.as_bytes()).saturating_add(octets_of_flags(&append.flags))
        }
        Command::UidExpunge { uids } => octets_of_set(uids),
        Command::Search(search) => octets_of_steps(search.steps.as_slice()),
        Command::Fetch(fetch) => {
            octets_of_set(&fetch.messages).saturating_add(octets_of_parts(
                fetch.items.as_slice().len(),
                ITEM,
            ))
        }
        Command::Store(store) => {
            octets_of_set(&store.messages).saturating_add(octets_of_flags(&store.flags))
        }
        Command::Copy(transfer) => {
            octets_of_set(&transfer.messages).saturating_add(octets_of_bytes(
                transfer.name.as_bytes(),
            ))
        }
        Command::Move(transfer) => {
            octets_of_set(&transfer.messages).saturating_add(octets_of_bytes(
                transfer.name.as_bytes(),
            ))
        }
        _ => 0,
    }
}

fn octets_of_steps(steps: &[SearchStep]) -> u64 {
    let mut sum = octets_of_parts(steps.len(), STEP);
    for step in steps {
        if let SearchStep::Test(test) = step {
            sum = sum.saturating_add(octets_of_test(test));
        }
    }
    sum
}

fn octets_of_test(test: &SearchTest) -> u64 {
    match test {
        SearchTest::Keyword { keyword, .. } => octets_of_text(keyword),
        SearchTest::Holds { text, .. } => octets_of_text(text),
        SearchTest::Header { name, text } => octets_of_two(name, text),
        SearchTest::Uids { uids } => octets_of_set(uids),
        SearchTest::Numbers { numbers } => octets_of_set(numbers),
        _ => 0,
    }
}

/// The octets of the text of an APPEND that was refused; otherwise the replica has it too.
fn octets_of_refused_text(event: &BookEvent, outcome: &Outcome) -> u64 {
    match (event, outcome) {
        (
            _,
            Outcome::Replied {
                reply: Reply::Done { issued, .. },
            },
        ) if !issued.as_slice().is_empty() => 0,
        (BookEvent::Command { tagged, .. }, _) => octets_of_append_text(&tagged.command),
        _ => 0,
    }
}

fn octets_of_append_text(command: &Command) -> u64 {
    match command {
        Command::Append(append) => octets_of_bytes(append.text.as_bytes()),
        _ => 0,
    }
}

/// The octets of an operation without its text, which the replica has too.
fn octets_of_op(op: &SoundOp) -> u64 {
    OP.saturating_add(octets_of_parts(op.clock().entries().len(), RANGE))
        .saturating_add(octets_of_parts(op.removed_ids().len(), RANGE))
        .saturating_add(octets_of_bytes(op.op().kind.name().as_bytes()))
}

fn octets_of_outcome(outcome: &Outcome) -> u64 {
    match outcome {
        Outcome::Replied {
            reply: Reply::Done {
                answers,
                silent,
                issued,
            },
        } => {
            octets_of_answers(answers.as_slice())
                .saturating_add(octets_of_silent(silent.as_slice()))
                .saturating_add(octets_of_ops(issued.as_slice()))
        }
        _ => 0,
    }
}

fn octets_of_answers(answers: &[Answer]) -> u64 {
    let mut sum = octets_of_parts(answers.len(), ANSWER);
    for answer in answers {
        sum = sum.saturating_add(octets_of_answer(answer));
    }
    sum
}

fn octets_of_silent(silents: &[SilentFlags]) -> u64 {
    let mut sum = octets_of_parts(silents.len(), SILENT);
    for silent in silents {
        sum = sum.saturating_add(octets_of_flags(&silent.flags));
    }
    sum
}

fn octets_of_ops(ops: &[SoundOp]) -> u64 {
    let mut sum = 0u64;
    for op in ops {
        sum = sum.saturating_add(octets_of_op(op));
    }
    sum
}

/// The octets to which an answer refers.
fn octets_of_answer(answer: &Answer) -> u64 {
    match answer {
        Answer::Flags { flags } => octets_of_flags(flags),
        Answer::List { name, .. } => octets_of_bytes(name.as_bytes()),
        Answer::Status { name, .. } => octets_of_bytes(name.as_bytes()),
        Answer::Search { tag, results, .. } => {
            octets_of_text(tag).saturating_add(octets_of_numbers(&results.all))
        }
        Answer::Fetch { items, .. } => octets_of_items(items),
        Answer::Completed { tag, code, .. } => octets_of_text(tag).saturating_add(octets_of_code(
            code,
        )),
        Answer::Refused { tag, .. } => octets_of_text(tag),
        _ => 0,
    }
}

fn octets_of_items(items: &FetchItems) -> u64 {
    let flags = match &items.flags {
        Some(flags) => octets_of_flags(flags),
        None => 0,
    };
    flags.saturating_add(octets_of_sections(&items.sections))
}

fn octets_of_code(code: &Option<Code>) -> u64 {
    match code {
        Some(Code::CopyUid { source, copies, .. }) => {
            octets_of_numbers(source).saturating_add(octets_of_numbers(copies))
        }
        Some(Code::Modified { refused }) => octets_of_numbers(refused),
        _ => 0,
    }
}

/// The octets of parts of texts. A whole text shares the memory of the message.
fn octets_of_sections(sections: &Sections) -> u64 {
    let mut sum = octets_of_parts(sections.parts().len(), SECTION);
    for part in sections.parts() {
        let is_whole = matches!(&part.section, Section::Whole) && part.origin.is_none();
        if !is_whole {
            sum = sum.saturating_add(octets_of_bytes(part.octets.as_bytes()));
        }
    }
    sum
}

fn octets_of_shown(shown: &FetchAnswers) -> u64 {
    match shown {
        FetchAnswers::Lines { lines } => octets_of_parts(lines.len(), LINE),
        FetchAnswers::Parts { sections, .. } => octets_of_sections(sections),
    }
}
