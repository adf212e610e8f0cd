//! Tests of what a front for IMAP4rev1 reads and writes: names of mailboxes in modified UTF-7, with
//! the examples of RFC 3501, section 5.1.3, and octets that are the encoding of no name; types
//! with parameters (RFC 2045, section 5.1); lists of addresses (RFC 5322, section 3.4); the parts
//! of texts, with the places that RFC 2046, section 5.1, gives them; and the envelopes and bodies
//! of messages (RFC 3501, section 7.4.2), with other octets in each place of them.
#![tactic(auto)]

#[cfg(test)]
mod addresses;
#[cfg(test)]
mod bodies;
#[cfg(test)]
mod field_values;
#[cfg(test)]
mod mailbox_names;
#[cfg(test)]
mod parts;
