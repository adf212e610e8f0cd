//! The law that joins dumps of nodes with the audit.

ghost use Rattle.std.specs.Prelude.{ℕ, List, ◌++◌};
ghost use Rattle.mail_audit.specs.Audits.{IsRight};
ghost use Rattle.mail_audit.specs.Dumps.{IsRightDump};
ghost use Rattle.mail_script.specs.Lines.{lines_of};
ghost use Rattle.imap_connection.specs.Dumps.{IsDump};

use crate::dump_forms::{ops_have_texts, replica_fits};
use imap_connection::Node;

/// The text that `write_dump` writes of a node is a right dump. If the audit's `Yes` is true of an
/// input, it is also true of the input followed by that dump.
pub fn dumps_are_right(node: &Node)
    ensures dumps { (text : List ℕ)
        → IsDump node.now.state.start.replica node.now.state.applied text
        → IsRightDump text }
    ensures lines { (text : List ℕ)
        → IsDump node.now.state.start.replica node.now.state.applied text → (front : List (List ℕ))
        → IsRight front
        → IsRight (front ++ lines_of text) }
{
    ops_have_texts(node.op_list());
    replica_fits(node.replica().id());
}
