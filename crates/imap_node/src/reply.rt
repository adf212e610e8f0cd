//! A node's reply to an input.

ghost use Rattle.std.specs.Prelude.{◌≡◌, ◌≢◌, ◌↔◌, ◌⊎◌, ◌+◌, ℕ, [], IfOk, IsOk, IsTrue, false};
ghost use Rattle.std.specs.Prelude.{length, take};
ghost use Rattle.imap_node.specs.Replies.{is_done, reply_answers};

use crate::shared_list::SharedList;
use crdt_ops::SoundOp;
use imap_answers::{Answer, Refusal};
use merge_laws::Caused;
use session_view::SilentFlags;
use std::alloc::{AllocError, Global};
use std::marker::Model;

/// Answers in the order in which they are sent. Copies share one memory.
pub struct Answers {
    answers: SharedList<Answer>,
}

// By hand, so that crates above drop it whole.
impl Drop for Answers {
    fn drop(self) {
        let Self { answers: _ } = self;
    }
}

impl Model for Answers {
    ghost use Rattle.std.specs.Prelude.{List};
    ghost use Rattle.imap_answers.specs.declared.answer.Answer.{Answer};

    ghost Value = { List Answer };

    ghost view = { λ a. a.answers };
}

impl Answers {
    /// These answers, whose memory it takes over; `Err` if memory to share them runs out.
    pub fn new(answers: Vec<Answer>) -> Result<Answers, AllocError>
        ensures { IfOk result (λ shared. shared ≡ answers.items) }
    {
        Ok(Answers {
            answers: SharedList::new(answers)?,
        })
    }

    /// The answers in order.
    pub fn as_slice(&self) -> &[Answer]
        ensures { result.now ≡ self.now }
    {
        self.answers.as_slice()
    }

    /// The same answers, in the same memory. `Err` if more copies share it than can be counted.
    pub fn copy(&self) -> Result<Answers, AllocError>
        ensures { IfOk result (λ copied. copied ≡ self.now) }
    {
        Ok(Answers {
            answers: self.answers.copy()?,
        })
    }

    /// Drops the last answers, as many as are asked for, if no copy shares their memory; otherwise
    /// gives the memory up. False if none is left.
    pub fn drop_some(&mut self, most: usize) -> bool
        ensures rest { (self.new ≡ [])
            ⊎ (n : ℕ) × (n + most ≡ length self.old) × (self.new ≡ take n self.old) }
        ensures left { IsTrue result ↔ (self.new ≢ []) }
    {
        self.answers.drop_some(most)
    }
}

/// Flags that a session set silently, in their order (RFC 9051, section 6.4.6). Copies share one
/// memory.
pub struct ReplySilentFlags {
    silents: SharedList<SilentFlags>,
}

// By hand, so that crates above drop it whole.
impl Drop for ReplySilentFlags {
    fn drop(self) {
        let Self { silents: _ } = self;
    }
}

impl Model for ReplySilentFlags {
    ghost use Rattle.std.specs.Prelude.{List};
    ghost use Rattle.session_view.specs.declared.reply_replay.SilentFlags.{SilentFlags};

    ghost Value = { List SilentFlags };

    ghost view = { λ s. s.silents };
}

impl ReplySilentFlags {
    /// These flags, whose memory it takes over; `Err` if memory to share them runs out.
    pub fn new(silents: Vec<SilentFlags>) -> Result<ReplySilentFlags, AllocError>
        ensures { IfOk result (λ shared. shared ≡ silents.items) }
    {
        Ok(ReplySilentFlags {
            silents: SharedList::new(silents)?,
        })
    }

    /// The flags in order.
    pub fn as_slice(&self) -> &[SilentFlags]
        ensures { result.now ≡ self.now }
    {
        self.silents.as_slice()
    }

    /// The same flags, in the same memory. `Err` if more copies share it than can be counted.
    pub fn copy(&self) -> Result<ReplySilentFlags, AllocError>
        ensures { IfOk result (λ copied. copied ≡ self.now) }
    {
        Ok(ReplySilentFlags {
            silents: self.silents.copy()?,
        })
    }
}

/// Operations that a command issued, in the order of their numbers. Copies share one memory.
pub struct ReplyOps {
    ops: SharedList<SoundOp>,
}

// By hand, so that crates above drop it whole.
impl Drop for ReplyOps {
    fn drop(self) {
        let Self { ops: _ } = self;
    }
}

impl Model for ReplyOps {
    ghost use Rattle.std.specs.Prelude.{List};
    ghost use Rattle.crdt_ops.specs.declared.op.Op.{Op};

    ghost Value = { List Op };

    ghost view = { λ i. i.ops };
}

impl ReplyOps {
    /// These operations, whose memory it takes over; `Err` if memory to share them runs out.
    pub fn new(ops: Vec<SoundOp>) -> Result<ReplyOps, AllocError>
        ensures { IfOk result (λ shared. shared ≡ ops.items) }
    {
        Ok(ReplyOps {
            ops: SharedList::new(ops)?,
        })
    }

    /// The operations in order.
    pub fn as_slice(&self) -> &[SoundOp]
        ensures { result.now ≡ self.now }
    {
        self.ops.as_slice()
    }

    /// The same operations, in the same memory. `Err` if more copies share it than can be counted.
    pub fn copy(&self) -> Result<ReplyOps, AllocError>
        ensures { IfOk result (λ copied. copied ≡ self.now) }
    {
        Ok(ReplyOps {
            ops: self.ops.copy()?,
        })
    }
}

/// A node's reply to an input.
#[derive(Drop)]
pub enum Reply {
    /// The input was carried out.
    Done {
        /// All answers, in the order in which they are sent.
        answers: Answers,
        /// The flags that the session set silently, before the answers.
        silent: ReplySilentFlags,
        /// The operations that it issued, for the other replicas.
        issued: ReplyOps,
    },
    /// The input was refused. Nothing changed, except that a refused SELECT or EXAMINE leaves no
    /// mailbox selected, and that any line but DONE ends an IDLE.
    Refused {
        /// The reason.
        why: Refusal,
        /// Whether `* OK [CLOSED] ok` goes before the tagged line, since a mailbox was left (RFC
        /// 9051, section 7.1, CLOSED).
        closed: bool,
    },
}

impl Reply {
    /// Drops the last of its answers, as many as are asked for, or all, for a caller that needs it
    /// no more. False if none is left.
    pub fn drop_some(&mut self, most: usize) -> bool
        ensures rest { (reply_answers self.new ≡ [])
            ⊎ (n : ℕ) × (n + most ≡ length (reply_answers self.old))
            × (reply_answers self.new ≡ take n (reply_answers self.old)) }
        ensures left { IsTrue result ↔ (reply_answers self.new ≢ []) }
    {
        match self {
            Reply::Done { answers, .. } => answers.drop_some(most),
            Reply::Refused { .. } => false,
        }
    }

    /// The same reply, in the same memory. `Err` if more copies share it than can be counted, which
    /// never happens to a refusal.
    pub fn copy(&self) -> Result<Reply, AllocError>
        ensures copied { IfOk result (λ copied. copied ≡ self.now) }
        ensures refused { is_done self.now ≡ false → IsOk result }
    {
        Ok(match self {
            Reply::Done {
                answers,
                silent,
                issued,
            } => Reply::Done {
                answers: answers.copy()?,
                silent: silent.copy()?,
                issued: issued.copy()?,
            },
            Reply::Refused { why, closed } => Reply::Refused {
                why: *why,
                closed: *closed,
            },
        })
    }
}

/// Copies of the operations, in their order.
pub fn copy_ops(alloc: Global, ops: &[SoundOp]) -> Result<Vec<SoundOp>, AllocError>
    ensures { IfOk result (λ copies. copies.items ≡ ops.now) }
{
    let mut copies = Vec::with_capacity(alloc, ops.len())?;
    for op in ops {
        copies.push(op.copy(alloc)?)?;
    }
    Ok(copies)
}
