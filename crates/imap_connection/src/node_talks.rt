//! The law of a conversation over a node's port (`specs/NodeTalks.antt`): the contract of a
//! function that does nothing.

ghost use Rattle.std.specs.Prelude.{◌≡◌, ◌++◌, ℕ, List, Bool, Some};
ghost use Rattle.imap_lex.specs.declared.limits.Limits.{Limits};
ghost use Rattle.imap_node.specs.declared.sessions.Auth.{Auth};
ghost use Rattle.imap_connection.specs.NodePorts.{NodeCloses, NodeOpens, NodeSession, NodeSteps};
ghost use Rattle.imap_connection.specs.NodeTalks.{IsWhole, TalksAtNode};
ghost use Rattle.imap_connection.specs.Conversations.{IsConversation};
ghost use Rattle.imap_connection.specs.declared.end_reason.Ended.{Ended};

use crate::interleaving::Others;

/// The promise of `converse` over a node's port, with others using the node between the port's
/// calls, if the conversation ends after all that the client sent or after a LOGOUT, and the octets
/// of source and sink are known. The node's own conversation (`talk`) answers the items that the
/// octets read give, each item at the moment and in the state of the node at which it arrives,
/// whatever operations other replicas and sessions add in between. The output is the greeting, what
/// that conversation's turns send, and the final BYE. At the end the session is closed.
pub fn nodes_converse<O: Others>()
    ensures { (old new : NodeSession O) (limits : Limits) (left rest before after : List ℕ)
        (at_end : Bool) (ended : Ended) → IsWhole ended
        → IsConversation NodeOpens (NodeSteps O.takes_turn) (NodeCloses O.takes_turn) old new limits
        (Some left)
        (Some rest) at_end (Some before) (Some after) ended
        → (auth : Auth)
        × (octets : List ℕ)
        × (output : List ℕ)
        × (old.auth ≡ Some auth)
        × (left ≡ octets ++ rest)
        × (after ≡ before ++ output)
        × TalksAtNode old.node auth limits octets ended output new.node }
{}
