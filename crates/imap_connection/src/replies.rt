//! What a node's reply says about its input.

ghost use Rattle.std.specs.Prelude.{◌≡◌};
ghost use Rattle.imap_connection.specs.Replies.{is_out_of_memory};

use imap_answers::Refusal;
use imap_node::Reply;

/// Whether the input was refused because memory ran out.
pub fn is_out_of_memory(reply: &Reply) -> bool
    ensures { result ≡ is_out_of_memory reply.now }
{
    matches!(
        reply,
        Reply::Refused {
            why: Refusal::NoMemory,
            ..
        }
    )
}
