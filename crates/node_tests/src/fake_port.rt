//! A port without a replica, which counts its calls.

use imap_answers::{Answer, CompletedWord, Continuation, Login, Notice, Refusal};
use imap_connection::{Port, PortFault};
use imap_node::{Answers, Reply, ReplyOps, ReplySilentFlags};
use imap_syntax::{Command, IdleLine, Tagged};
use imap_types::Octets;
use std::alloc::{AllocError, Global};

/// A port that answers every command with OK and counts its calls. It can't be opened twice.
#[derive(Drop)]
pub struct FakePort {
    /// How often it was opened.
    pub opened: u32,
    /// How many commands it received.
    pub commands: u32,
    /// How many lines it received during IDLE.
    pub lines: u32,
    /// How often it was closed.
    pub closed: u32,
    tag: Option<Octets>,
}

impl FakePort {
    /// A port that has received no calls.
    pub fn new() -> FakePort {
        FakePort {
            opened: 0,
            commands: 0,
            lines: 0,
            closed: 0,
            tag: None,
        }
    }
}

impl Port for FakePort {
    ghost opens = { λ s r t. Unit {0} };

    ghost steps = { λ s a r t. Unit {0} };

    ghost closes = { λ s t. Unit {0} };

    fn open(&mut self, _alloc: Global) -> Result<Login, PortFault> {
        if self.opened > 0 {
            return Err(PortFault::TooManySessions);
        }
        self.opened = 1;
        Ok(Login::PreAuthenticated)
    }

    fn command(&mut self, alloc: Global, tagged: Tagged) -> Result<Reply, PortFault> {
        self.commands = self.commands.saturating_add(1);
        let Tagged { tag, command } = tagged;
        let copied = tag.copy(alloc);
        let answer = answer_of(tag, &command);
        drop(command);
        self.tag = copied.ok();
        port_reply(alloc, answer)
    }

    fn done(&mut self, alloc: Global, line: IdleLine) -> Result<Reply, PortFault> {
        self.lines = self.lines.saturating_add(1);
        let Some(tag) = self.tag.take() else {
            return Err(PortFault::PassedOver);
        };
        match line {
            IdleLine::Done => port_reply(
                alloc,
                Answer::Completed {
                    tag,
                    code: None,
                    command: CompletedWord::Idle,
                },
            ),
            IdleLine::Other => Ok(Reply::Refused {
                why: Refusal::DoneExpected,
                closed: false,
            }),
        }
    }

    fn close(&mut self, _alloc: Global) {
        self.closed = self.closed.saturating_add(1);
    }
}

fn answer_of(tag: Octets, command: &Command) -> Answer {
    match command {
        Command::Idle => Answer::Continue {
            with: Continuation::Idling,
        },
        Command::Logout => Answer::Completed {
            tag,
            code: None,
            command: CompletedWord::Logout,
        },
        _ => Answer::Completed {
            tag,
            code: None,
            command: CompletedWord::Noop,
        },
    }
}

fn port_reply(alloc: Global, answer: Answer) -> Result<Reply, PortFault> {
    match reply_of(alloc, answer) {
        Ok(reply) => Ok(reply),
        Err(_) => Err(PortFault::NoMemory),
    }
}

fn reply_of(alloc: Global, answer: Answer) -> Result<Reply, AllocError> {
    let mut answers = Vec::new(alloc);
    answers.push(answer)?;
    Ok(Reply::Done {
        answers: Answers::new(answers)?,
        silent: ReplySilentFlags::new(Vec::new(alloc))?,
        issued: ReplyOps::new(Vec::new(alloc))?,
    })
}
