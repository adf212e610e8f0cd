//! A dump that is read line by line.

ghost use Rattle.std.specs.Prelude.{◌≡◌, ◌+◌, ◌≤◌, ◌<◌, ◌^◌, ℕ, List, [], ◌∷◌, ◌++◌, IfOk, IsTrue};
ghost use Rattle.std.specs.Prelude.{drop, length};
ghost use Rattle.mail_audit.specs.Audits.{IsVerdict};
ghost use Rattle.mail_audit.specs.DumpLines.{AreLinesAfterOps, IsCompared, IsMatchStep, IsStep};
ghost use Rattle.mail_audit.specs.DumpLines.{IsUnreadableStep};
ghost use Rattle.mail_audit.specs.DumpLines.{AreOps, IsPhase};
ghost use Rattle.mail_audit.specs.Dumps.{AreOrdered};
ghost use Rattle.mail_audit.specs.AuditProgress.{IsOpen};
ghost use Rattle.mail_audit.specs.Sessions.{Session};

use crate::expected_lines::{Expected, expected_after};
use crate::line_forms::{DumpLine, dump_line, is_other};
use crate::op_lines::OpLines;
use crate::verdict::AuditEnd;
use std::alloc::{AllocError, Global};
use tags_clocks::ReplicaId;
use text_fields::split;

/// A dump that has begun and not ended.
#[derive(Drop)]
pub struct OpenDump {
    /// The number of its first line, from 1.
    pub first: u64,
    /// The replica whose dump it is.
    pub replica: ReplicaId,
    /// The part of the dump that has been reached.
    pub phase: DumpPhase,
}

/// The part of a dump that has been reached.
#[derive(Drop)]
pub enum DumpPhase {
    /// The op lines.
    Ops(OpLines),
    /// The later lines, which must be those that the op lines define.
    State(Comparison),
}

/// The lines that must follow the op lines.
#[derive(Drop)]
pub struct Comparison {
    /// The expected lines, each with its end.
    pub lines: Vec<u8>,
    /// The number of octets of the expected lines that have been matched.
    pub pos: usize,
}

/// The effect of a line on a dump.
pub enum DumpStep {
    /// The dump continues.
    Continues,
    /// The dump has ended, and is right.
    Ends,
    /// The dump is wrong at the line of this number.
    Wrong(u64),
    /// The line can't be read.
    Unreadable,
}

impl OpenDump {
    /// A dump that begins at the line of this number.
    pub fn new(alloc: Global, first: u64, replica: ReplicaId) -> OpenDump
        ensures { (result.first ≡ first)
            × (result.replica ≡ replica)
            × IsPhase [] result.phase }
    {
        OpenDump {
            first,
            replica,
            phase: DumpPhase::Ops(OpLines::new(alloc)),
        }
    }

    /// Takes the next line, which has this number; `Err` if memory runs out.
    pub fn take(&mut self, alloc: Global, line: &[u8], number: u64) -> Result<DumpStep, AllocError>
        requires { (inside : List (List ℕ))
            × IsPhase inside self.old.phase
            × (number ≡ self.old.first + 1 + length inside) }
        ensures place { (self.new.first ≡ self.old.first) × (self.new.replica ≡ self.old.replica) }
        ensures step { (inside : List (List ℕ))
            → IsPhase inside self.old.phase
            → number ≡ self.old.first + 1 + length inside
            → IfOk result (IsStep self.old.first inside line.now self.new.phase) }
    {
        match &mut self.phase {
            DumpPhase::State(comparison) => comparison.take(alloc, line, number),
            DumpPhase::Ops(lines) => match dump_line(alloc, line)? {
                DumpLine::Op(op) => {
                    lines.push(op)?;
                    Ok(DumpStep::Continues)
                }
                DumpLine::Unreadable => step_if_unreadable(alloc, self.first, lines),
                DumpLine::Other => match lines_after_ops(alloc, lines)? {
                    Expected::WrongOp(place) => Ok(DumpStep::Wrong(self.first + 1 + place as u64)),
                    Expected::Lines(lines) => {
                        let mut comparison = Comparison { lines, pos: 0 };
                        let step = comparison.take(alloc, line, number)?;
                        self.phase = DumpPhase::State(comparison);
                        Ok(step)
                    }
                },
            },
        }
    }

    /// The verdict if the input ends here, within the dump, at the line of this number; `Err` if
    /// memory runs out.
    pub fn end(self, alloc: Global, last: u64) -> Result<AuditEnd, AllocError>
        requires { (lines : List (List ℕ))
            × (sessions : List Session)
            × IsOpen lines sessions self
            × (last ≡ length lines) }
        ensures { (lines : List (List ℕ)) (sessions : List Session)
            → IsOpen lines sessions self → last ≡ length lines
            → IfOk result (IsVerdict lines) }
    {
        match &self.phase {
            DumpPhase::State(_) => Ok(AuditEnd::Unreadable(last)),
            DumpPhase::Ops(lines) => match lines.first_wrong(alloc, true)? {
                Some(place) => Ok(AuditEnd::No(self.first + 1 + place as u64)),
                None => Ok(AuditEnd::Unreadable(last)),
            },
        }
    }
}

/// The lines that must follow these op lines once they end, or the place at which the op lines are
/// wrong.
fn lines_after_ops(alloc: Global, lines: &OpLines) -> Result<Expected, AllocError>
    requires { AreOrdered lines.now.ops.items }
    ensures { (inside : List (List ℕ))
        → AreOps inside lines.now → IfOk result (AreLinesAfterOps inside) }
{
    match lines.first_wrong(alloc, false)? {
        Some(place) => Ok(Expected::WrongOp(place)),
        None => expected_after(alloc, &lines.ops),
    }
}

/// The effect of a line that can't be read while op lines may still follow.
fn step_if_unreadable(alloc: Global, first: u64, lines: &OpLines) -> Result<DumpStep, AllocError>
    requires { first + 1 + length lines.now.ops.items < 2 ^ 64 }
    ensures { IfOk result (IsUnreadableStep first lines.now) }
{
    match lines.first_wrong(alloc, true)? {
        Some(place) => Ok(DumpStep::Wrong(first + 1 + place as u64)),
        None => Ok(DumpStep::Unreadable),
    }
}

impl Comparison {
    /// Takes the next line, which has this number; `Err` if memory runs out.
    fn take(&mut self, alloc: Global, line: &[u8], number: u64) -> Result<DumpStep, AllocError>
        requires { self.old.pos ≤ length self.old.lines.items }
        ensures { IfOk result (IsCompared self.old line.now number self.new) }
    {
        if self.is_next_line(line) {
            self.pos += line.len() + 1;
            return Ok(self.match_step(line, number));
        }
        if is_other(alloc, line)? || is_op(alloc, line)? {
            Ok(DumpStep::Wrong(number))
        } else {
            Ok(DumpStep::Unreadable)
        }
    }

    /// Whether this is the next expected line.
    fn is_next_line(&self, line: &[u8]) -> bool
        requires { self.now.pos ≤ length self.now.lines.items }
        ensures { IsTrue result
            → (rest : List ℕ) × (drop self.now.pos self.now.lines.items ≡ line.now ++ 10 ∷ rest) }
    {
        match split(b'\n', &self.lines[self.pos..]) {
            Some((next, _)) => next == line,
            None => false,
        }
    }

    /// The effect of the next expected line, which has this number.
    fn match_step(&self, line: &[u8], number: u64) -> DumpStep
        ensures { IsMatchStep self.now line.now number result }
    {
        if line != b"end".as_slice() {
            DumpStep::Continues
        } else if self.pos == self.lines.len() {
            DumpStep::Ends
        } else {
            DumpStep::Wrong(number)
        }
    }
}

/// Whether the line is an op line; `Err` if memory runs out.
fn is_op(alloc: Global, line: &[u8]) -> Result<bool, AllocError> {
    match dump_line(alloc, line)? {
        DumpLine::Op(op) => {
            drop(op);
            Ok(true)
        }
        _ => Ok(false),
    }
}
