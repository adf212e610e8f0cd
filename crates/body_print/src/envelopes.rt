//! Printing of envelopes (RFC 3501, section 7.4.2). Each function appends a text to `out`. An
//! `Err`, if memory runs out, may leave part of it.

ghost use Rattle.std.specs.Prelude.{◌≡◌, ◌++◌, codes, OnOk};
ghost use Rattle.body_print.specs.Envelopes.{address_list, address_value, address_values};
ghost use Rattle.body_print.specs.Envelopes.{envelope_of, field_named, or_senders};
ghost use Rattle.body_print.specs.Envelopes.{with_ids, with_recipients, with_senders};
ghost use Rattle.body_print.specs.FieldTexts.{text_or_nil};
ghost use Rattle.body_print.specs.Values.{joined_text, next, spaced_text, text_of};
ghost use Rattle.body_print.specs.Values.Spaced.{NoSpaced};
ghost use Rattle.body_print.specs.Values.Value.{TextValue};
ghost use Rattle.mail_fields.specs.FieldValues.{addresses_named};
ghost use Rattle.mail_fields.specs.declared.address_list.Address.TheVariants.{Mailbox as OfMailbox};

use crate::field_texts::push_field;
use crate::strings::{push_nil, push_string, push_text_or_nil};
use mail_fields::{Address, Mailbox, addresses_named};
use std::alloc::{AllocError, Global};

/// Appends the envelope of a message with this header, which may have its empty line (RFC 3501,
/// section 7.4.2; RFC 9051, section 7.5.2). Time is linear in the header's length. `Err` if memory
/// runs out; `out` may then have part of it.
pub fn push_envelope(alloc: Global, header: &[u8], out: &mut Vec<u8>) -> Result<(), AllocError>
    ensures { OnOk result (out.new.items ≡ out.old.items ++ text_of (envelope_of header.now)) }
{
    out.extend_from_slice(b"(")?;
    push_date(alloc, header, out)?;
    push_correspondents(alloc, header, out)?;
    out.extend_from_slice(b")")
}

/// Appends the date, and the subject after a blank.
fn push_date(alloc: Global, header: &[u8], out: &mut Vec<u8>) -> Result<(), AllocError>
    ensures { OnOk result (out.new.items
        ≡ out.old.items ++ (text_of (field_named (codes "Date") header.now)
        ++ spaced_text (next (field_named (codes "Subject") header.now) NoSpaced))) }
{
    push_field(alloc, header, b"Date", out)?;
    out.extend_from_slice(b" ")?;
    push_field(alloc, header, b"Subject", out)
}

/// Appends the senders, the recipients and the ids.
fn push_correspondents(alloc: Global, header: &[u8], out: &mut Vec<u8>) -> Result<(), AllocError>
    ensures { OnOk result (out.new.items ≡ out.old.items ++ spaced_text
        (with_senders header.now (addresses_named (codes "From") header.now)
        (with_recipients header.now (with_ids header.now NoSpaced)))) }
{
    push_senders(alloc, header, out)?;
    push_recipients(alloc, header, out)?;
    push_ids(alloc, header, out)
}

/// Appends the senders: From, Sender and Reply-To.
fn push_senders(alloc: Global, header: &[u8], out: &mut Vec<u8>) -> Result<(), AllocError>
    ensures { OnOk result (out.new.items ≡ out.old.items ++ spaced_text
        (with_senders header.now (addresses_named (codes "From") header.now) NoSpaced)) }
{
    let senders = addresses_named(alloc, header, b"From")?;
    out.extend_from_slice(b" ")?;
    push_address_list(&senders, out)?;
    push_or_senders(alloc, header, b"Sender", &senders, out)?;
    push_or_senders(alloc, header, b"Reply-To", &senders, out)
}

/// Appends a blank and the addresses of this name, or the senders if there are none.
fn push_or_senders(
    alloc: Global,
    header: &[u8],
    name: &[u8],
    senders: &[Address],
    out: &mut Vec<u8>,
) -> Result<(), AllocError>
    ensures { OnOk result (out.new.items ≡ out.old.items ++ (codes " " ++ text_of (address_list
        (or_senders senders.now (addresses_named name.now header.now))))) }
{
    let addresses = addresses_named(alloc, header, name)?;
    out.extend_from_slice(b" ")?;
    if addresses.is_empty() {
        return push_address_list(senders, out);
    }
    push_address_list(&addresses, out)
}

/// Appends the recipients: To, Cc and Bcc.
fn push_recipients(alloc: Global, header: &[u8], out: &mut Vec<u8>) -> Result<(), AllocError>
    ensures { OnOk result
        (out.new.items ≡ out.old.items ++ spaced_text (with_recipients header.now NoSpaced)) }
{
    push_named(alloc, header, b"To", out)?;
    push_named(alloc, header, b"Cc", out)?;
    push_named(alloc, header, b"Bcc", out)
}

/// Appends a blank and the addresses of this name.
fn push_named(
    alloc: Global,
    header: &[u8],
    name: &[u8],
    out: &mut Vec<u8>,
) -> Result<(), AllocError>
    ensures { OnOk result (out.new.items ≡ out.old.items ++ (codes " " ++ text_of
        (address_list (addresses_named name.now header.now)))) }
{
    let addresses = addresses_named(alloc, header, name)?;
    out.extend_from_slice(b" ")?;
    push_address_list(&addresses, out)
}

/// Appends In-Reply-To and Message-ID.
fn push_ids(alloc: Global, header: &[u8], out: &mut Vec<u8>) -> Result<(), AllocError>
    ensures { OnOk result
        (out.new.items ≡ out.old.items ++ spaced_text (with_ids header.now NoSpaced)) }
{
    out.extend_from_slice(b" ")?;
    push_field(alloc, header, b"In-Reply-To", out)?;
    out.extend_from_slice(b" ")?;
    push_field(alloc, header, b"Message-ID", out)
}

/// Appends a list of addresses, or NIL if it is empty.
fn push_address_list(addresses: &[Address], out: &mut Vec<u8>) -> Result<(), AllocError>
    ensures { OnOk result
        (out.new.items ≡ out.old.items ++ text_of (address_list addresses.now)) }
{
    if addresses.is_empty() {
        return push_nil(out);
    }
    out.extend_from_slice(b"(")?;
    push_each(addresses, out)?;
    out.extend_from_slice(b")")
}

/// Appends addresses.
fn push_each(addresses: &[Address], out: &mut Vec<u8>) -> Result<(), AllocError>
    ensures { OnOk result
        (out.new.items ≡ out.old.items ++ joined_text (address_values addresses.now)) }
{
    for address in addresses {
        push_address(address, out)?;
    }
    Ok(())
}

/// Appends an address.
fn push_address(address: &Address, out: &mut Vec<u8>) -> Result<(), AllocError>
    ensures { OnOk result
        (out.new.items ≡ out.old.items ++ text_of (address_value address.now)) }
{
    match address {
        Address::Mailbox(mailbox) => push_mailbox(mailbox, out),
        Address::GroupStart(name) => {
            out.extend_from_slice(b"(NIL NIL ")?;
            push_string(name.as_bytes(), out)?;
            out.extend_from_slice(b" NIL)")
        }
        Address::GroupEnd => out.extend_from_slice(b"(NIL NIL NIL NIL)"),
    }
}

/// Appends a mailbox.
fn push_mailbox(mailbox: &Mailbox, out: &mut Vec<u8>) -> Result<(), AllocError>
    ensures { OnOk result
        (out.new.items ≡ out.old.items ++ text_of (address_value (OfMailbox mailbox.now))) }
{
    out.extend_from_slice(b"(")?;
    push_text_or_nil(mailbox.name.as_bytes(), out)?;
    push_route(mailbox, out)?;
    out.extend_from_slice(b")")
}

/// Appends a mailbox's route, its local part and its host, each after a blank.
fn push_route(mailbox: &Mailbox, out: &mut Vec<u8>) -> Result<(), AllocError>
    ensures { OnOk result (out.new.items ≡ out.old.items ++ spaced_text
        (next (text_or_nil mailbox.now.route) (next (TextValue mailbox.now.local_part)
        (next (TextValue mailbox.now.host) NoSpaced)))) }
{
    out.extend_from_slice(b" ")?;
    push_text_or_nil(mailbox.route.as_bytes(), out)?;
    push_local_part(mailbox, out)
}

/// Appends a mailbox's local part and its host, each after a blank.
fn push_local_part(mailbox: &Mailbox, out: &mut Vec<u8>) -> Result<(), AllocError>
    ensures { OnOk result (out.new.items ≡ out.old.items ++ spaced_text
        (next (TextValue mailbox.now.local_part) (next (TextValue mailbox.now.host) NoSpaced))) }
{
    out.extend_from_slice(b" ")?;
    push_string(mailbox.local_part.as_bytes(), out)?;
    out.extend_from_slice(b" ")?;
    push_string(mailbox.host.as_bytes(), out)
}
