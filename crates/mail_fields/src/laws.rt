//! What is true of all values.

ghost use Rattle.std.specs.Prelude.{◌≡◌, ◌∷◌, ℕ, List, Some, map};
ghost use Rattle.mail_fields.specs.Addresses.{addresses_of};
ghost use Rattle.mail_fields.specs.Parameters.{media_type_of};
ghost use Rattle.mail_fields.specs.Written.{AreParameters, IsToken, written_value};
ghost use Rattle.mail_fields.specs.WrittenAddresses.{AreCanonical, IsCanonical, written_list};
ghost use Rattle.mail_fields.specs.declared.address_list.Address.TheVariants.{Mailbox as OfMailbox};
ghost use Rattle.mail_fields.specs.declared.mailboxes.Mailbox.{Mailbox};
ghost use Rattle.mail_fields.specs.declared.parameters.Parameter.{Parameter};

/// A type with parameters is read as it was written.
pub fn written_types_are_read()
    ensures { (major minor : List ℕ) (parameters : List Parameter) → IsToken major → IsToken minor
        → AreParameters parameters
        → media_type_of (written_value major minor parameters)
        ≡ Some ((major, minor), parameters) }
{}

/// Mailboxes are read as they were written.
pub fn written_addresses_are_read()
    ensures { (mailbox : Mailbox) (mailboxes : List Mailbox) → IsCanonical mailbox
        → AreCanonical mailboxes → addresses_of (written_list mailbox mailboxes)
        ≡ map OfMailbox (mailbox ∷ mailboxes) }
{}
