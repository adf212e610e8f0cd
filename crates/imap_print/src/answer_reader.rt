//! Reading of printed answers.

ghost use Rattle.std.specs.Prelude.{◌≡◌, ◌++◌, List, ℕ, drop, length, IfOk, IfSome};
ghost use Rattle.imap_answers.specs.Printable.{IsPrintable};
ghost use Rattle.imap_answers.specs.AnswerText.{text_of_answer};
ghost use Rattle.imap_answers.specs.declared.answer.Answer.{Answer};

use crate::fault::ReadFault;
use crate::line_readers::line;
use crate::printable::is_printable;
use crate::printer::print;
use crate::scanner::skip;
use imap_answers::Answer;
use std::alloc::{AllocError, Global};

/// The answer whose text the octets begin with, among those that may be sent, and the length of
/// that text in octets; `None` exactly when there is no such answer. `Err` if memory runs out.
pub fn read(alloc: Global, text: &[u8]) -> Result<Option<(Answer, usize)>, AllocError>
    // The octets begin with the text of the answer that is read.
    ensures printed { IfOk result (λ read. IfSome read (λ x. (text.now
        ≡ text_of_answer x.0 ++ drop x.1 text.now) × (x.1 ≡ length (text_of_answer x.0)))) }
    // The answer that is read may be sent.
    ensures printable { IfOk result (λ read. IfSome read (λ x. IsPrintable x.0)) }
    // An answer whose text the octets begin with is read, whatever follows it, unless memory runs
    // out.
    ensures only { (answer : Answer) (rest : List ℕ) → IsPrintable answer
        → text.now ≡ text_of_answer answer ++ rest
        → IfOk result (λ read. read ≡ Some (answer, length (text_of_answer answer))) }
{
    match line(alloc, text) {
        Err(ReadFault::NoMemory) => Err(AllocError),
        Err(ReadFault::NotPrinted) => Ok(None),
        Ok((answer, _)) => {
            if !is_printable(&answer) {
                drop(answer);
                return Ok(None);
            }
            printed_prefix(alloc, answer, text)
        }
    }
}

/// The answer and the length of its text, if the octets begin with that text.
fn printed_prefix(
    alloc: Global,
    answer: Answer,
    text: &[u8],
) -> Result<Option<(Answer, usize)>, AllocError>
    ensures printed { IfOk result (λ read. IfSome read (λ x. (text.now
        ≡ text_of_answer x.0 ++ drop x.1 text.now) × (x.1 ≡ length (text_of_answer x.0)))) }
    ensures same { IfOk result (λ read. IfSome read (λ x. x.0 ≡ answer)) }
    ensures only { (rest : List ℕ)
        → text.now ≡ text_of_answer answer ++ rest
        → IfOk result (λ read. read ≡ Some (answer, length (text_of_answer answer))) }
{
    match printed_length(alloc, &answer, text) {
        Ok(Some(length)) => Ok(Some((answer, length))),
        Ok(None) => {
            drop(answer);
            Ok(None)
        }
        Err(AllocError) => {
            drop(answer);
            Err(AllocError)
        }
    }
}

/// The length of an answer's text, if the octets begin with that text.
fn printed_length(alloc: Global, answer: &Answer, text: &[u8]) -> Result<Option<usize>, AllocError>
    ensures printed { IfOk result (λ read. IfSome read (λ size. (text.now
        ≡ text_of_answer answer.now ++ drop size text.now)
        × (size ≡ length (text_of_answer answer.now)))) }
    ensures only { (rest : List ℕ)
        → text.now ≡ text_of_answer answer.now ++ rest
        → IfOk result (λ read. read ≡ Some (length (text_of_answer answer.now))) }
{
    let mut out = Vec::new(alloc);
    print(answer, &mut out)?;
    match skip(text, &out) {
        None => Ok(None),
        Some(_) => Ok(Some(out.len())),
    }
}

/// No answer's text is a prefix of another's: octets begin with the text of at most one answer that
/// may be sent.
pub fn one_reading()
    ensures { (one other : Answer) (rest more : List ℕ) → IsPrintable one → IsPrintable other
        → text_of_answer one ++ rest ≡ text_of_answer other ++ more
        → (one ≡ other) × (rest ≡ more) }
{}
