//! Answers, put together from a server's octets. An answer is a line with literals in it (RFC 9051,
//! sections 2.2.2 and 4.3); the octets of literals aren't stored.

ghost use Rattle.std.specs.Prelude.{◌≡◌, ◌⊎◌, ◌≤◌, ◌<◌, ◌+◌, ◌++◌, [], IfErr, IfOk, None, OnOk};
ghost use Rattle.std.specs.Prelude.{Some, drop, false, length, true};
ghost use Rattle.mail_bench.specs.Replies.{at_literal, count_more, is_ended, is_text};
ghost use Rattle.mail_bench.specs.Replies.{line_after, line_stage_after, longest_line, refusal};
ghost use Rattle.mail_bench.specs.Replies.{refusal_at, scan, stage_after};
ghost use Rattle.mail_bench.specs.declared.replies.ReplyFault.TheVariants as faults;
ghost use Rattle.mail_bench.specs.declared.replies.ReplyStage.TheVariants.{Line, Literal};

use memchr::memchr2;
use std::alloc::Global;

/// The largest number of octets in an answer's line, without its literals.
pub const MAX_LINE: usize = 4_194_304;

/// The largest number of octets in a literal.
pub const MAX_LITERAL: u64 = 1_073_741_824;

/// The part of an answer that the next octet belongs to.
#[derive(Clone, Copy)]
pub enum ReplyStage {
    /// A line.
    Line,
    /// After `{`.
    Open,
    /// After `{` and digits that spell this number.
    Count {
        /// The number.
        octets: u64,
    },
    /// After the `}` that follows the digits.
    Closed {
        /// The number.
        octets: u64,
    },
    /// After the CR that follows the `}`.
    Announced {
        /// The number.
        octets: u64,
    },
    /// In a literal with this number of octets left, at least one.
    Literal {
        /// The number.
        left: u64,
    },
    /// After the answer's end.
    Ended,
}

/// Why an answer can't be read.
#[derive(Clone, Copy)]
pub enum ReplyFault {
    /// Its line is longer than `MAX_LINE`.
    LongLine,
    /// It has a literal longer than `MAX_LITERAL`.
    LongLiteral,
    /// Memory ran out for its line.
    NoMemory,
}

/// An answer, as far as it was read.
#[derive(Drop)]
pub struct Reading {
    /// Its line, without the octets of its literals.
    pub line: Vec<u8>,
    /// The part that the next octet belongs to.
    pub stage: ReplyStage,
}

impl Reading {
    /// An answer before its first octet.
    pub fn new(alloc: Global) -> Reading
        ensures { (result.line.items ≡ []) × (result.stage ≡ Line) }
    {
        Reading {
            line: Vec::new(alloc),
            stage: ReplyStage::Line,
        }
    }
}

impl Reading {
    /// Clears the line for the next answer.
    pub fn begin(&mut self)
        ensures line { self.new.line.items ≡ [] }
        ensures stage { self.new.stage ≡ Line }
    {
        self.line.clear();
        self.stage = ReplyStage::Line;
    }

    /// Whether the answer has ended.
    pub fn is_ended(&self) -> bool
        ensures { result ≡ is_ended self.now.stage }
    {
        matches!(self.stage, ReplyStage::Ended)
    }

    /// Reads until the answer has ended or all octets were read, and returns how many were read.
    /// After an `Err` the answer can't be read further.
    #[tactic(auto, using(crate::proofs::ReplyLemmas::scan_ended, crate::proofs::ReplyLemmas::scan_nothing))]
    pub fn read(&mut self, octets: &[u8]) -> Result<usize, ReplyFault>
        ensures within { IfOk result (λ count. count ≤ length octets.now) }
        ensures scan { IfOk result (λ count. scan self.old.stage self.old.line.items octets.now
            ≡ (self.new.stage, self.new.line.items, drop count octets.now)) }
        ensures ended { IfOk result
            (λ count. count < length octets.now → is_ended self.new.stage ≡ true) }
    {
        let mut at = 0;
        while at < octets.len() {
            if self.is_ended() {
                return Ok(at);
            }
            let count = self.read_some(&octets[at..])?;
            at += count;
        }
        Ok(at)
    }

    /// Reads octets of one kind, at least one, of an answer that hasn't ended, and returns how many
    /// were read.
    fn read_some(&mut self, octets: &[u8]) -> Result<usize, ReplyFault>
        requires some { 0 < length octets.now }
        requires not_ended { is_ended self.old.stage ≡ false }
        ensures some { IfOk result (λ count. 0 < count) }
        ensures within { IfOk result (λ count. count ≤ length octets.now) }
        ensures scan { IfOk result (λ count. scan self.old.stage self.old.line.items octets.now
            ≡ scan self.new.stage self.new.line.items (drop count octets.now)) }
    {
        match self.stage {
            ReplyStage::Line => self.read_text(octets),
            ReplyStage::Literal { left } => Ok(self.pass(left, octets)),
            _ => self.read_one(octets),
        }
    }

    /// Reads octets of a line up to and including the first that may begin an announcement or that
    /// ends the answer, and returns how many were read.
    fn read_text(&mut self, octets: &[u8]) -> Result<usize, ReplyFault>
        requires some { 0 < length octets.now }
        requires text { self.old.stage ≡ Line }
        ensures some { IfOk result (λ count. 0 < count) }
        ensures within { IfOk result (λ count. count ≤ length octets.now) }
        ensures scan { IfOk result (λ count. scan Line self.old.line.items octets.now
            ≡ scan self.new.stage self.new.line.items (drop count octets.now)) }
    {
        match memchr2(b'{', b'\n', octets) {
            Some(at) => {
                self.push_text(&octets[..at + 1], line_stage_after(octets[at]))?;
                Ok(at + 1)
            }
            None => {
                self.push_text(octets, ReplyStage::Line)?;
                Ok(octets.len())
            }
        }
    }

    /// Adds octets to the line, and sets the stage after them. `LongLine` exactly when the line
    /// would be too long.
    fn push_text(&mut self, text: &[u8], after: ReplyStage) -> Result<(), ReplyFault>
        ensures stage { OnOk result (self.new.stage ≡ after) }
        ensures line { OnOk result (self.new.line.items ≡ self.old.line.items ++ text.now) }
        ensures fine { OnOk result (length self.new.line.items ≤ longest_line) }
        ensures refused { IfErr result (λ fault. (fault ≡ faults.NoMemory)
            ⊎ ((fault ≡ faults.LongLine)
            × (longest_line < length self.old.line.items + length text.now))) }
    {
        if self.line.len().saturating_add(text.len()) > MAX_LINE {
            return Err(ReplyFault::LongLine);
        }
        if self.line.extend_from_slice(text).is_err() {
            return Err(ReplyFault::NoMemory);
        }
        self.stage = after;
        Ok(())
    }

    /// Passes over the octets of a literal that has `left` octets left, and returns how many
    /// were passed.
    fn pass(&mut self, left: u64, octets: &[u8]) -> usize
        requires some { 0 < length octets.now }
        requires literal { self.old.stage ≡ Literal left }
        ensures some { 0 < result }
        ensures within { result ≤ length octets.now }
        ensures scan { scan (Literal left) self.old.line.items octets.now
            ≡ scan self.new.stage self.new.line.items (drop result octets.now) }
    {
        let count = (octets.len() as u64).min(left.max(1));
        self.stage = at_literal(left.saturating_sub(count));
        count as usize
    }

    /// Reads the first of these octets, and returns 1.
    #[tactic(auto, using(crate::proofs::ReplyLemmas::scan_next))]
    fn read_one(&mut self, octets: &[u8]) -> Result<usize, ReplyFault>
        requires some { 0 < length octets.now }
        requires not_ended { is_ended self.old.stage ≡ false }
        ensures some { IfOk result (λ count. 0 < count) }
        ensures within { IfOk result (λ count. count ≤ length octets.now) }
        ensures scan { IfOk result (λ count. scan self.old.stage self.old.line.items octets.now
            ≡ scan self.new.stage self.new.line.items (drop count octets.now)) }
    {
        self.take(octets[0])?;
        Ok(1)
    }

    /// Reads one octet of an answer that hasn't ended. `LongLine` and `LongLiteral` exactly when
    /// the answer is too long with it.
    fn take(&mut self, octet: u8) -> Result<(), ReplyFault>
        ensures stage { OnOk result (self.new.stage ≡ stage_after self.old.stage octet) }
        ensures line { OnOk result
            (self.new.line.items ≡ line_after self.old.stage self.old.line.items octet) }
        ensures fine { OnOk result (refusal (stage_after self.old.stage octet)
            (length (line_after self.old.stage self.old.line.items octet)) ≡ None) }
        ensures refused { IfErr result (λ fault. (fault ≡ faults.NoMemory)
            ⊎ (refusal (stage_after self.old.stage octet)
            (length (line_after self.old.stage self.old.line.items octet)) ≡ Some fault)) }
    {
        if is_text(self.stage) && self.line.push(octet).is_err() {
            return Err(ReplyFault::NoMemory);
        }
        self.stage = stage_after(self.stage, octet);
        match refusal(self.stage, self.line.len()) {
            Some(fault) => Err(fault),
            None => Ok(()),
        }
    }
}

/// Whether the octet at this stage is part of the line.
fn is_text(stage: ReplyStage) -> bool
    ensures { result ≡ is_text stage }
{
    !matches!(stage, ReplyStage::Literal { .. } | ReplyStage::Ended)
}

/// The stage after an octet.
fn stage_after(stage: ReplyStage, octet: u8) -> ReplyStage
    ensures { result ≡ stage_after stage octet }
{
    match stage {
        ReplyStage::Open if octet.is_ascii_digit() => ReplyStage::Count {
            octets: count_more(0, octet),
        },
        ReplyStage::Count { octets } if octet.is_ascii_digit() => ReplyStage::Count {
            octets: count_more(octets, octet),
        },
        ReplyStage::Count { octets } if octet == b'}' => ReplyStage::Closed { octets },
        ReplyStage::Closed { octets } if octet == b'\r' => ReplyStage::Announced { octets },
        ReplyStage::Announced { octets } if octet == b'\n' => at_literal(octets),
        ReplyStage::Literal { left } => at_literal(left.saturating_sub(1)),
        ReplyStage::Ended => ReplyStage::Ended,
        _ => line_stage_after(octet),
    }
}

/// The stage after an octet that continues no announcement.
fn line_stage_after(octet: u8) -> ReplyStage
    ensures { result ≡ line_stage_after octet }
{
    match octet {
        b'{' => ReplyStage::Open,
        b'\n' => ReplyStage::Ended,
        _ => ReplyStage::Line,
    }
}

/// The count with one further digit.
fn count_more(octets: u64, digit: u8) -> u64
    ensures { result ≡ count_more octets digit }
{
    octets
        .saturating_mul(10)
        .saturating_add(u64::from(digit.saturating_sub(b'0')))
        .min(MAX_LITERAL + 1)
}

/// The stage in or after a literal with this number of octets left.
fn at_literal(octets: u64) -> ReplyStage
    ensures { result ≡ at_literal octets }
{
    match octets {
        0 => ReplyStage::Line,
        left => ReplyStage::Literal { left },
    }
}

/// Why an answer can't be read further at this stage, with a line of this length.
fn refusal(stage: ReplyStage, length: usize) -> Option<ReplyFault>
    ensures { result ≡ refusal stage length }
{
    if length > MAX_LINE {
        return Some(ReplyFault::LongLine);
    }
    refusal_at(stage)
}

fn refusal_at(stage: ReplyStage) -> Option<ReplyFault>
    ensures { result ≡ refusal_at stage }
{
    match stage {
        ReplyStage::Literal { left } if left > MAX_LITERAL => Some(ReplyFault::LongLiteral),
        _ => None,
    }
}
