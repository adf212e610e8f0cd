//! The clients that take the answers of an idling session.

use crate::client::Client;
use imap_answers::Answer;
use std::alloc::{AllocError, Global};

/// Clients of the same session: one takes all answers, the others ignore one kind of answers while
/// the session idles.
#[derive(Drop)]
pub struct IdleClients {
    /// Takes all answers.
    pub whole: Client,
    /// Ignores EXPUNGE.
    pub without_expunge: Client,
    /// Ignores EXISTS.
    pub without_exists: Client,
    /// Ignores FETCH.
    pub without_fetch: Client,
}

impl IdleClients {
    /// Clients that know nothing.
    pub fn new(alloc: Global) -> IdleClients {
        IdleClients {
            whole: Client::new(alloc),
            without_expunge: Client::new(alloc),
            without_exists: Client::new(alloc),
            without_fetch: Client::new(alloc),
        }
    }

    /// All clients take all these answers. `Err` if memory runs out.
    pub fn receive_all(&mut self, alloc: Global, answers: &[Answer]) -> Result<(), AllocError> {
        for answer in answers {
            self.whole.apply_answer(alloc, answer)?;
            self.without_expunge.apply_answer(alloc, answer)?;
            self.without_exists.apply_answer(alloc, answer)?;
            self.without_fetch.apply_answer(alloc, answer)?;
        }
        Ok(())
    }

    /// Each client takes these answers, except the kind that it ignores. `Err` if memory runs out.
    pub fn receive(&mut self, alloc: Global, answers: &[Answer]) -> Result<(), AllocError> {
        for answer in answers {
            self.receive_one(alloc, answer)?;
        }
        Ok(())
    }

    fn receive_one(&mut self, alloc: Global, answer: &Answer) -> Result<(), AllocError> {
        let kind = kind_of(answer);
        self.whole.apply_answer(alloc, answer)?;
        receive_unless(&mut self.without_expunge, alloc, answer, kind.is_expunge)?;
        receive_unless(&mut self.without_exists, alloc, answer, kind.is_exists)?;
        receive_unless(&mut self.without_fetch, alloc, answer, kind.is_fetch)
    }
}

/// Which of the ignored kinds an answer is.
#[derive(Clone, Copy)]
struct Kind {
    is_expunge: bool,
    is_exists: bool,
    is_fetch: bool,
}

const OTHER: Kind = Kind {
    is_expunge: false,
    is_exists: false,
    is_fetch: false,
};

fn kind_of(answer: &Answer) -> Kind {
    match answer {
        Answer::Expunge { .. } => Kind {
            is_expunge: true,
            ..OTHER
        },
        Answer::Exists { .. } => Kind {
            is_exists: true,
            ..OTHER
        },
        Answer::Fetch { .. } => Kind {
            is_fetch: true,
            ..OTHER
        },
        _ => OTHER,
    }
}

fn receive_unless(
    client: &mut Client,
    alloc: Global,
    answer: &Answer,
    passes: bool,
) -> Result<(), AllocError> {
    if passes {
        Ok(())
    } else {
        client.apply_answer(alloc, answer)
    }
}
