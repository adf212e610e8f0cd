//! ENVELOPE, BODY and BODYSTRUCTURE of messages as IMAP text (RFC 3501, section 7.4.2; RFC 9051,
//! section 7.5.2).
//!
//! `push_envelope` appends the envelope of a message with a header, `push_body` the body of a text
//! with the parts that `mail_parts::cut` gives. A string is between quotes if all its octets are
//! US-ASCII without NUL, CR and LF, else it is a literal.
//!
//! The contracts define each result as the text of a value, which is NIL, a string, a number or a
//! list (`specs/Values.antt`): the value of an envelope by the header's fields
//! (`specs/Envelopes.antt`, `specs/FieldTexts.antt`), that of a body by the parts and those in them
//! (`specs/PartNodes.antt`, `specs/Bodies.antt`). Laws: a text begins with one printed value at
//! most (`one_reading`), so that envelopes and bodies read back (`envelope_reads_back`,
//! `body_reads_back`). `Err` is returned only if memory runs out.
//!
//! # Decided
//!
//! - The first field of a name counts; the addresses of all fields of a name are one list. Sender
//!   and Reply-To without addresses are From's.
//! - Types and parameters are shown as written. A text without a charset shows US-ASCII, a part
//!   without an encoding 7bit. A multipart without a boundary is shown as a text, one without parts
//!   shows an empty text, and a part that is too deep is `application/octet-stream`.
//! - Date, subject and ids are empty strings if their fields are empty; a part's fields are NIL.
#![tactic(auto)]

mod bodies;
mod envelopes;
mod field_texts;
mod laws;
mod media;
mod parameters;
mod part_items;
mod strings;

pub use bodies::push_body;
pub use envelopes::push_envelope;
pub use laws::{body_reads_back, envelope_reads_back, one_reading};
