//! Lines of the output. Each is printed once more if memory runs out, and the result is `Err` if it
//! runs out twice.

use imap_connection::Reply;
use imap_lex::Item;
use imap_print::{Answer, Notice, Refusal, print};
use imap_types::Octets;
use mail_script::{OutcomeLine, SessionName, Speaker, write_outcome, write_transcript_line};
use std::alloc::{AllocError, Global};

/// Prints the line of an outcome.
pub fn print_outcome(outcome: &OutcomeLine, printed: &mut Vec<u8>) -> Result<(), AllocError> {
    match write_outcome(*outcome, printed) {
        Ok(()) => Ok(()),
        Err(AllocError) => write_outcome(*outcome, printed),
    }
}

/// Prints what the client sent as an item.
pub fn print_item(
    session: &SessionName,
    item: &Item,
    printed: &mut Vec<u8>,
) -> Result<(), AllocError> {
    match item {
        Item::Ready => Ok(()),
        Item::Frame(frame) => print_line(session, Speaker::Client, frame.bytes(), printed),
        Item::Refused(front) => print_line(session, Speaker::Client, front.bytes(), printed),
    }
}

fn print_line(
    session: &SessionName,
    speaker: Speaker,
    octets: &[u8],
    printed: &mut Vec<u8>,
) -> Result<(), AllocError> {
    match write_transcript_line(session, speaker, octets, printed) {
        Ok(()) => Ok(()),
        Err(AllocError) => write_transcript_line(session, speaker, octets, printed),
    }
}

/// Prints an answer.
pub fn print_answer(
    alloc: Global,
    session: &SessionName,
    answer: &Answer,
    printed: &mut Vec<u8>,
) -> Result<(), AllocError> {
    let text = text_of(alloc, answer)?;
    print_line(session, Speaker::Server, &text, printed)
}

fn text_of(alloc: Global, answer: &Answer) -> Result<Vec<u8>, AllocError> {
    match text_once(alloc, answer) {
        Ok(text) => Ok(text),
        Err(AllocError) => text_once(alloc, answer),
    }
}

fn text_once(alloc: Global, answer: &Answer) -> Result<Vec<u8>, AllocError> {
    let mut text = Vec::new(alloc);
    print(answer, &mut text)?;
    Ok(text)
}

/// Prints answers.
pub fn print_answers(
    alloc: Global,
    session: &SessionName,
    answers: &[Answer],
    printed: &mut Vec<u8>,
) -> Result<(), AllocError> {
    for answer in answers {
        print_answer(alloc, session, answer, printed)?;
    }
    Ok(())
}

/// Prints the answers of a reply to the command or the IDLE with this tag.
pub fn print_reply(
    alloc: Global,
    session: &SessionName,
    tag: &Octets,
    reply: &Reply,
    printed: &mut Vec<u8>,
) -> Result<(), AllocError> {
    match reply {
        Reply::Done { answers, .. } => print_answers(alloc, session, answers.as_slice(), printed),
        Reply::Refused { why, closed } => {
            if *closed {
                print_closed(alloc, session, printed)?;
            }
            print_refusal(alloc, session, tag, *why, printed)
        }
    }
}

/// Prints that a mailbox was left.
pub fn print_closed(
    alloc: Global,
    session: &SessionName,
    printed: &mut Vec<u8>,
) -> Result<(), AllocError> {
    let closed = Answer::UntaggedOk {
        notice: Notice::Closed,
    };
    print_answer(alloc, session, &closed, printed)
}

fn print_refusal(
    alloc: Global,
    session: &SessionName,
    tag: &Octets,
    reason: Refusal,
    printed: &mut Vec<u8>,
) -> Result<(), AllocError> {
    let refused = Answer::Refused {
        tag: copy_of(alloc, tag)?,
        reason,
    };
    print_answer(alloc, session, &refused, printed)
}

fn copy_of(alloc: Global, tag: &Octets) -> Result<Octets, AllocError> {
    match tag.copy(alloc) {
        Ok(copy) => Ok(copy),
        Err(AllocError) => tag.copy(alloc),
    }
}
