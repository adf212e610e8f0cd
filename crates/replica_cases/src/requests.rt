//! Executes the lines of cases of operations, clocks and inboxes.

use crate::clocks::{ClockWord, answer_clock};
use crate::fields::add_op;
use crate::given::{Given, add_any, put_pairs, put_replay};
use crate::inboxes::{InboxWord, answer_inbox};
use crate::lines::{Plays, play_text};
use crate::mutations::{findings_of_cuts, findings_of_octets, put_damage, put_findings};
use crate::operations::{finding_of, put_finding};
use crate::orders::put_orders;
use crate::sets::{SetWord, answer_set};
use crate::setup::Setup;
use case_lines::{Trouble, Words, meaning, octets, parts_around};
use imap_types::Escape;
use std::alloc::{AllocError, Global};
use std::mem;

/// A question about a text.
#[derive(Clone, Copy)]
enum TextWord {
    /// `op LINE`: the finding on the line.
    Op,
    /// `octets TEXT`: the finding on the line that TEXT spells in the escape.
    Octets,
    /// `cuts LINE`: the findings on the line's shorter prefixes.
    Cuts,
    /// `replaced OCTETS LINE`: the findings on the line with each octet at each place.
    Replaced,
}

/// A question about the operations that the case gave.
#[derive(Clone, Copy)]
enum GivenWord {
    /// `pairs`: which are the same.
    Pairs,
    /// `replay`: their result, in their order.
    Replay,
    /// `orders`: their result, in each order.
    Orders,
}

/// What the first word of a line asks for.
#[derive(Clone, Copy)]
enum Word {
    /// Nothing: the line is a comment.
    Empty,
    /// `==`: begins a case.
    Begin,
    /// `given LINE`: adds an operation that comes first.
    First,
    /// `any CAUSES LINE`: adds an operation that comes in each order.
    Any,
    /// A question, which has an answer.
    Asks(Asks),
}

/// A question.
#[derive(Clone, Copy)]
enum Asks {
    Text(TextWord),
    Clock(ClockWord),
    Set(SetWord),
    Inbox(InboxWord),
    Given(GivenWord),
}

const WORDS: &[(&str, Word)] = &[
    ("", Word::Empty),
    ("#", Word::Empty),
    ("==", Word::Begin),
    ("given", Word::First),
    ("any", Word::Any),
    ("op", Word::Asks(Asks::Text(TextWord::Op))),
    ("octets", Word::Asks(Asks::Text(TextWord::Octets))),
    ("cuts", Word::Asks(Asks::Text(TextWord::Cuts))),
    ("replaced", Word::Asks(Asks::Text(TextWord::Replaced))),
    ("id", Word::Asks(Asks::Clock(ClockWord::Id))),
    ("clock", Word::Asks(Asks::Clock(ClockWord::Clock))),
    ("number", Word::Asks(Asks::Clock(ClockWord::Number))),
    ("covers", Word::Asks(Asks::Clock(ClockWord::Covers))),
    ("compare", Word::Asks(Asks::Clock(ClockWord::Compare))),
    ("join", Word::Asks(Asks::Clock(ClockWord::Join))),
    ("push", Word::Asks(Asks::Clock(ClockWord::Push))),
    ("ids", Word::Asks(Asks::Set(SetWord::Ids))),
    ("contains", Word::Asks(Asks::Set(SetWord::Contains))),
    ("names", Word::Asks(Asks::Set(SetWord::Names))),
    ("deliver", Word::Asks(Asks::Inbox(InboxWord::Deliver))),
    ("drain", Word::Asks(Asks::Inbox(InboxWord::Drain))),
    ("issue", Word::Asks(Asks::Inbox(InboxWord::Issue))),
    ("show", Word::Asks(Asks::Inbox(InboxWord::Show))),
    ("list", Word::Asks(Asks::Inbox(InboxWord::List))),
    ("since", Word::Asks(Asks::Inbox(InboxWord::Since))),
    ("contents", Word::Asks(Asks::Inbox(InboxWord::Contents))),
    ("folder", Word::Asks(Asks::Inbox(InboxWord::Folder))),
    ("pairs", Word::Asks(Asks::Given(GivenWord::Pairs))),
    ("replay", Word::Asks(Asks::Given(GivenWord::Replay))),
    ("orders", Word::Asks(Asks::Given(GivenWord::Orders))),
];

/// Plays cases of operations, clocks and inboxes, and returns them with their new answers. `Err` if
/// memory runs out.
pub fn play(alloc: Global, text: &str) -> Result<Vec<u8>, AllocError> {
    match Setup::new(alloc) {
        Ok(setup) => play_text(alloc, setup, text),
        Err(AllocError) => Err(AllocError),
    }
}

/// Passes over a comment, begins a case, takes an operation that the case gives, or puts an answer.
impl Plays for Setup {
    fn execute(&mut self, question: &str, answer: &mut Words) {
        let (word, fields) = parts_around(question, " ");
        match meaning(WORDS, word) {
            Some(Word::Empty) => {}
            Some(Word::Begin) => restart(self, answer),
            Some(Word::First) => take_first(&mut self.given, fields, answer),
            Some(Word::Any) => take_any(&mut self.given, fields, answer),
            Some(Word::Asks(asks)) => answer_asked(self, asks, fields, answer),
            None => answer.put_trouble(" ", Trouble::NotACase),
        }
    }
}

fn restart(setup: &mut Setup, answer: &mut Words) {
    match Setup::new(answer.alloc()) {
        Ok(fresh) => drop(mem::replace(setup, fresh)),
        Err(AllocError) => answer.give_up(),
    }
}

fn take_first(given: &mut Given, line: &str, answer: &mut Words) {
    put_damage(line.as_bytes(), answer);
    if let Err(trouble) = add_op(answer.alloc(), &mut given.first, line) {
        answer.put_trouble(" ", trouble);
    }
}

fn take_any(given: &mut Given, fields: &str, answer: &mut Words) {
    if let Err(trouble) = add_any(answer.alloc(), given, fields) {
        answer.put_trouble(" ", trouble);
    }
}

fn answer_asked(setup: &mut Setup, asks: Asks, fields: &str, answer: &mut Words) {
    match asks {
        Asks::Text(word) => answer_text(word, fields, answer),
        Asks::Clock(word) => answer_clock(word, fields, answer),
        Asks::Set(word) => answer_set(word, fields, answer),
        Asks::Inbox(word) => answer_inbox(&mut setup.inbox, word, fields, answer),
        Asks::Given(word) => answer_given(&setup.given, word, answer),
    }
}

fn answer_text(word: TextWord, fields: &str, answer: &mut Words) {
    match word {
        TextWord::Op => put_finding_of(fields.as_bytes(), answer),
        TextWord::Cuts => put_findings(findings_of_cuts(answer.alloc(), fields.as_bytes()), answer),
        TextWord::Octets => put_spelled(fields, answer),
        TextWord::Replaced => put_replaced(fields, answer),
    }
}

fn put_finding_of(text: &[u8], answer: &mut Words) {
    put_finding(finding_of(answer.alloc(), text), answer);
    put_damage(text, answer);
}

fn put_spelled(fields: &str, answer: &mut Words) {
    match octets(answer.alloc(), Escape::Text, fields) {
        Ok(octets) => put_finding_of(octets.as_bytes(), answer),
        Err(trouble) => answer.put_trouble(" ", trouble),
    }
}

fn put_replaced(fields: &str, answer: &mut Words) {
    let (field, line) = parts_around(fields, " ");
    match octets(answer.alloc(), Escape::Field, field) {
        Ok(octets) => {
            let findings = findings_of_octets(answer.alloc(), line.as_bytes(), octets.as_bytes());
            put_findings(findings, answer);
        }
        Err(trouble) => answer.put_trouble(" ", trouble),
    }
}

fn answer_given(given: &Given, word: GivenWord, answer: &mut Words) {
    match word {
        GivenWord::Pairs => put_pairs(given, answer),
        GivenWord::Replay => put_replay(given, answer),
        GivenWord::Orders => put_orders(given, answer),
    }
}
