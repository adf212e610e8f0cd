//! Batches of brief commands that arrived one after another. They are given to the port together,
//! so that a replica takes all of them in one turn.

ghost use Rattle.std.specs.Prelude.{◌≡◌, ◌≤◌, ◌++◌, ◌∷◌, [], true, length, List, Ok, OnOk, OnErr};
ghost use Rattle.std.specs.Prelude.{IfErr};
ghost use Rattle.imap_answers.specs.declared.answer.Answer.{Answer};
ghost use Rattle.imap_node.specs.declared.reply.Reply.{Reply};
ghost use Rattle.imap_commands.specs.Commands.{is_brief};
ghost use Rattle.imap_connection.specs.Batches.{CarriesCommands, EndsInBatch, answers_by};
ghost use Rattle.imap_connection.specs.Batches.{EndsInReply, tags_of};
ghost use Rattle.imap_connection.specs.EndReasons.{failed_reads, failed_writes};
ghost use Rattle.imap_connection.specs.Requests.{texts};

use crate::answer_writer::print_reply;
use crate::end_reason::{Ended, end_reason_of};
use crate::io_traits::Port;
use imap_node::Reply;
use imap_syntax::Tagged;
use imap_types::Octets;
use std::alloc::{AllocError, Global};
use std::marker::Model;
use std::mem;

/// Brief commands of a session that doesn't idle, with their tags, not given to the port yet.
#[derive(Drop)]
pub struct Batch {
    tags: Vec<Octets>,
    commands: Vec<Tagged>,
}

impl Model for Batch {
    ghost use Rattle.std.specs.Prelude.{◌≡◌, List, true};
    ghost use Rattle.imap_syntax.specs.declared.command.Tagged.{Tagged};
    ghost use Rattle.imap_connection.specs.Batches.{are_brief, tags_of};

    ghost Value = { List Tagged };

    ghost view = { λ b. b.commands.items };

    ghost invariant = { λ b. record {
      tags : b.tags.items ≡ tags_of b.commands.items;
      brief : are_brief b.commands.items ≡ true;
    } };
}

impl Batch {
    /// A batch without commands.
    pub fn new(alloc: Global) -> Batch
        ensures { result ≡ [] }
    {
        Batch {
            tags: Vec::new(alloc),
            commands: Vec::new(alloc),
        }
    }

    /// Appends a brief command. `Err`, and no change, if memory runs out.
    pub fn push(&mut self, alloc: Global, tagged: Tagged) -> Result<(), AllocError>
        requires { is_brief tagged.command ≡ true }
        ensures ok { OnOk result (self.new ≡ self.old ++ tagged ∷ []) }
        ensures err { OnErr result (self.new ≡ self.old) }
    {
        self.tags.reserve(1)?;
        self.commands.reserve(1)?;
        let tag = tagged.tag.copy(alloc)?;
        self.tags.push_reserved(tag);
        self.commands.push_reserved(tagged);
        Ok(())
    }

    /// Gives the commands to the port, and adds the answers. `Err` if the conversation ends at one
    /// of them.
    pub fn carry_out<P: Port>(
        &mut self,
        alloc: Global,
        port: &mut P,
        text: &mut Vec<u8>,
    ) -> Result<(), Ended>
        ensures ok { OnOk result ((replies : List Reply)
            × CarriesCommands P.steps port.old self.old replies (Ok tt) port.new
            × (text.new.items ≡ text.old.items ++ texts (answers_by (tags_of self.old) replies))
            × (self.new ≡ [])) }
        ensures err { IfErr result (λ ended. (answers : List Answer)
            × EndsInBatch P.steps port.old self.old ended answers port.new
            × (text.new.items ≡ text.old.items ++ texts answers)) }
        ensures devices { IfErr result
            (λ ended. (failed_reads ended ≡ 0) × (failed_writes ended ≡ 0)) }
    {
        if self.commands.is_empty() {
            return Ok(());
        }
        let Ok(mut replies) = Vec::with_capacity(alloc, self.commands.len()) else {
            return Err(Ended::NoMemory);
        };
        let Batch { tags, commands } = mem::replace(self, Batch::new(alloc));
        let given = port.commands(alloc, commands, &mut replies);
        let Ok(()) = print_replies(alloc, &tags, &replies, text) else {
            return Err(Ended::NoMemory);
        };
        match given {
            Ok(()) => Ok(()),
            Err(fault) => Err(end_reason_of(fault)),
        }
    }
}

/// Adds the answers of replies to the commands with these tags. `Err` if memory runs out for one of
/// the replies; then the answers before it and some of its first were added.
fn print_replies(
    alloc: Global,
    tags: &[Octets],
    replies: &[Reply],
    text: &mut Vec<u8>,
) -> Result<(), AllocError>
    requires { length replies.now ≤ length tags.now }
    ensures ok { OnOk result
        (text.new.items ≡ text.old.items ++ texts (answers_by tags.now replies.now)) }
    ensures err { OnErr result ((front : List Answer)
        × (text.new.items ≡ text.old.items ++ texts front)
        × EndsInReply tags.now replies.now front) }
{
    for i in 0..replies.len() {
        match print_reply(alloc, text, &tags[i], &replies[i]) {
            Ok(()) => {}
            Err(_) => return Err(AllocError),
        }
    }
    Ok(())
}
