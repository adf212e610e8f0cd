//! A law on whatever a server sends, without code.

ghost use Rattle.mail_bench.specs.Replies.{LiteralsArePassed};

/// Whatever octets a literal has, and so whatever a message says, none of them is read as part of
/// the line: the line continues with the octets after the literal.
pub fn literals_are_passed()
    ensures { LiteralsArePassed }
{}
