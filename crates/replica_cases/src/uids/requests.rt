//! Executes the lines of cases of UIDs.

ghost use Rattle.std.specs.Prelude.{◌≤◌, IfOk};

use crate::fields::add_op;
use crate::lines::{Plays, play_text};
use crate::uids::lists::put_lists;
use crate::uids::setup::{Node, Setup, deliver, make_ready};
use crate::uids::tables::{Question, put_asked};
use case_lines::{Trouble, Words, meaning, operation, pair, parts_around, replica};
use causal_inbox::{Arrival, DeliverFault, Delivered};
use crdt_ops::SoundOp;
use std::alloc::{AllocError, Global};
use std::mem;
use uid_projection::Counters;

/// What the first word of a line asks for.
#[derive(Clone, Copy)]
enum Word {
    /// Nothing: the line is a comment or a title.
    Empty,
    /// `node R U K`: begins a case.
    Begin,
    /// `apply LINE`: delivers an operation.
    Apply,
    /// `next LINE`: adds an operation after the other ones that come next.
    Next,
    /// `ready`: whether each of the operations that come next has the numbers that it needs.
    Ready,
    /// `lists FIRST LAST`: compares the answers after generated lists with a recount.
    Lists,
    /// A question about a folder.
    Of(Question),
}

const WORDS: &[(&str, Word)] = &[
    ("", Word::Empty),
    ("#", Word::Empty),
    ("==", Word::Empty),
    ("node", Word::Begin),
    ("apply", Word::Apply),
    ("next", Word::Next),
    ("ready", Word::Ready),
    ("lists", Word::Lists),
    ("folder", Word::Of(Question::Folder)),
    ("after", Word::Of(Question::After)),
    ("row", Word::Of(Question::Row)),
    ("changed", Word::Of(Question::Changed)),
];

/// Plays cases of UIDs and returns them with their new answers. `Err` if memory runs out.
pub fn play(alloc: Global, text: &str) -> Result<Vec<u8>, AllocError> {
    match start("1 1 1") {
        Ok(start) => play_from(alloc, start, text),
        Err(_) => Ok(Vec::new(alloc)),
    }
}

fn play_from(alloc: Global, start: Counters, text: &str) -> Result<Vec<u8>, AllocError>
    requires { 1 ≤ start.uid }
{
    match Setup::new(alloc, start) {
        Ok(setup) => play_text(alloc, setup, text),
        Err(AllocError) => Err(AllocError),
    }
}

/// Passes over comments and titles, begins a case, takes an operation, or puts an answer.
impl Plays for Setup {
    fn execute(&mut self, question: &str, answer: &mut Words) {
        let (word, fields) = parts_around(question, " ");
        match meaning(WORDS, word) {
            Some(Word::Empty) => {}
            Some(Word::Begin) => begin(self, fields, answer),
            Some(Word::Apply) => apply(&mut self.inbox, fields, answer),
            Some(Word::Next) => take_next(self, fields, answer),
            Some(Word::Ready) => put_ready(self, answer),
            Some(Word::Lists) => put_lists(fields, answer),
            Some(Word::Of(question)) => put_asked(self, question, fields, answer),
            None => answer.put_trouble(" ", Trouble::NotACase),
        }
    }
}

/// `node R U K`: begins a case. Replica R has received nothing, its first UID in INBOX is U, and K
/// is the first k of other folders.
fn begin(setup: &mut Setup, fields: &str, answer: &mut Words) {
    match start(fields) {
        Ok(start) => restart(setup, start, answer),
        Err(trouble) => answer.put_trouble(" ", trouble),
    }
}

fn restart(setup: &mut Setup, start: Counters, answer: &mut Words)
    requires { 1 ≤ start.uid }
{
    match Setup::new(answer.alloc(), start) {
        Ok(fresh) => drop(mem::replace(setup, fresh)),
        Err(AllocError) => answer.give_up(),
    }
}

fn start(fields: &str) -> Result<Counters, Trouble>
    ensures { IfOk result (λ start. 1 ≤ start.uid) }
{
    let (own, counters) = parts_around(fields, " ");
    let replica = replica(own)?;
    match pair(" ", counters)? {
        (0, _) => Err(Trouble::NotACase),
        (uid, k) => Ok(Counters { replica, uid, k }),
    }
}

/// `apply LINE`: delivers an operation; puts an answer unless this applies exactly that operation.
fn apply(inbox: &mut Node, line: &str, answer: &mut Words) {
    match operation(answer.alloc(), line) {
        Ok(op) => put_delivery(inbox, op, answer),
        Err(trouble) => answer.put_trouble(" ", trouble),
    }
}

/// Delivers an operation; puts an answer unless this applies exactly that operation.
pub fn put_delivery(inbox: &mut Node, op: SoundOp, answer: &mut Words) {
    match deliver(answer.alloc(), inbox, op) {
        Ok(delivered) => put_arrival(delivered, answer),
        Err(fault) => put_fault(fault, answer),
    }
}

fn put_arrival(delivered: Delivered, answer: &mut Words) {
    match delivered.arrival {
        Arrival::Applied(1) => {}
        Arrival::Applied(count) => answer.put_number(" Applied ", count as u64),
        Arrival::Held => answer.put(" Held"),
        Arrival::Repeat => answer.put(" Repeat"),
    }
}

fn put_fault(fault: DeliverFault, answer: &mut Words) {
    match fault {
        DeliverFault::Conflict { .. } => answer.put(" Conflict"),
        other => answer.put_name(" ", &other),
    }
}

/// `next LINE`: adds an operation after the other ones that come next.
fn take_next(setup: &mut Setup, line: &str, answer: &mut Words) {
    if let Err(trouble) = add_op(answer.alloc(), &mut setup.next, line) {
        answer.put_trouble(" ", trouble);
    }
}

/// `ready`: puts whether each of the operations that come next has the numbers that it needs.
pub fn put_ready(setup: &mut Setup, answer: &mut Words) {
    match make_ready(answer.alloc(), &mut setup.inbox, &setup.next) {
        Ok(()) => answer.put(" yes"),
        Err(fault) => answer.put_name(" ", &fault),
    }
}
