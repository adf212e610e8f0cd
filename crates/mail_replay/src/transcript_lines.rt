//! Transcript lines of turns and answers.

ghost use Rattle.std.specs.Prelude.{◌≡◌, ◌++◌, ℕ, OnErr, OnOk, take};
ghost use Rattle.imap_answers.specs.AnswerText.{text_of_answer as text_of};
ghost use Rattle.mail_script.specs.Transcript.{transcript_line};
ghost use Rattle.mail_script.specs.declared.transcript.Speaker.TheVariants.{Server};
ghost use Rattle.mail_replay.specs.Transcript.{transcript, turn_line};
ghost use Rattle.imap_connection.specs.declared.turn.Turn.{Turn};

use imap_connection::Turn;
use imap_print::{Answer, print};
use mail_script::{SessionName, Speaker, write_transcript_line};
use std::alloc::{AllocError, Global};

/// Appends a line for each turn; `Err` if memory runs out, and then lines for some of the first
/// turns were appended.
pub fn write_turns(
    session: &SessionName,
    turns: &[Turn],
    printed: &mut Vec<u8>,
) -> Result<(), AllocError>
    ensures ok { OnOk result
        (printed.new.items ≡ printed.old.items ++ transcript session.now turns.now) }
    ensures err { OnErr result ((count : ℕ)
        × (printed.new.items
        ≡ printed.old.items ++ transcript session.now (take count turns.now))) }
{
    for turn in turns {
        write_turn(session, turn, printed)?;
    }
    Ok(())
}

fn write_turn(session: &SessionName, turn: &Turn, printed: &mut Vec<u8>) -> Result<(), AllocError>
    ensures ok { OnOk result
        (printed.new.items ≡ printed.old.items ++ turn_line session.now turn.now) }
    ensures err { OnErr result (printed.new.items ≡ printed.old.items) }
{
    match turn {
        Turn::Got(octets) => write_transcript_line(
            session,
            Speaker::Client,
            octets.as_bytes(),
            printed,
        ),
        Turn::Sent(octets) => write_transcript_line(
            session,
            Speaker::Server,
            octets.as_bytes(),
            printed,
        ),
    }
}

/// Appends a line for an answer; `Err` if memory runs out, and then nothing changes.
pub fn write_answer(
    alloc: Global,
    session: &SessionName,
    answer: &Answer,
    printed: &mut Vec<u8>,
) -> Result<(), AllocError>
    ensures ok { OnOk result (printed.new.items
        ≡ printed.old.items ++ transcript_line session.now Server (text_of answer.now)) }
    ensures err { OnErr result (printed.new.items ≡ printed.old.items) }
{
    let mut text = Vec::new(alloc);
    print(answer, &mut text)?;
    write_transcript_line(session, Speaker::Server, &text, printed)
}
