//! The parts of a message's text by the delimiter lines of its multiparts (RFC 2046, section 5.1),
//! each with its places.
//!
//! `cut` takes any octets. A line is a delimiter line if it begins with `--` and a boundary in
//! force, whatever follows; of several boundaries the longest counts, and of equally long ones the
//! innermost. A boundary is in force from the end of its multipart's header to its closing
//! delimiter line. A delimiter line of an outer multipart ends all parts within it, in their
//! headers too. The CRLF before a delimiter line is the delimiter's, also if it is a header's empty
//! line. Lines end with CRLF only, and headers as `mail_text` says. Parts at level 99 have no
//! parts; after 10,000 parts no multipart has further ones, and what follows its next delimiter
//! line is its epilogue. Time is linear in the text's length for each level.
//!
//! What is proved: `cut` gives the entries of a tree of parts (`specs/PartTrees.antt`) that is a
//! cutting of the text (`specs/Cuttings.antt`): its lines, one after another, are the text's lines,
//! and each is a header's, a body's, a delimiter or beside a multipart's parts as RFC 2046 composes
//! them. The places are within the text, a part's are within the body of the part that contains it
//! and after those of the parts before it, and the first part is the whole text with the header and
//! body that `mail_text` gives (`specs/Nesting.antt`, `specs/Compositions.antt`). Laws: a text has
//! one cutting (`one_cutting`); one that is composed with boundaries that occur nowhere in it is
//! cut into what it was composed of (`composed_are_cut`); one without parts is one part
//! (`single_is_text`). What a part contains is by definition what its first Content-Type field
//! says, as `mail_fields` reads it (`specs/ContentTypes.antt`); a boundary that was written in
//! quotes is read (`written_boundaries_are_read`). `Err` is returned only if memory runs out.
//!
//! # Decided
//!
//! - A multipart without a boundary, and a Content-Type that isn't `type/subtype`, is a text (RFC
//!   2045, section 5.2). The first Content-Type field counts, and the first boundary that isn't
//!   empty. A boundary that isn't quoted may have octets that RFC 2045 wants quoted, such as `=`.
//!   MIME-Version isn't required.
//! - A part without lines, which another delimiter line follows at once, is empty and lies before
//!   the CRLF that ends its own delimiter line: that CRLF is the following delimiter's.
//! - A multipart whose header is cut off by a delimiter line has no parts, and a message whose
//!   header is cut off is an empty message.
#![tactic(auto)]

mod content;
mod content_type;
mod cutting;
mod delimiters;
mod laws;
mod part;
mod part_lines;

pub use cutting::cut;
pub use laws::{composed_are_cut, one_cutting, single_is_text, written_boundaries_are_read};
pub use part::{Part, PartKind};
