//! Writers of fields.

ghost use Rattle.std.specs.Prelude.{◌≡◌, ◌++◌, ℕ, List, OnOk};
ghost use Rattle.std.specs.Fmt.{decimal};
ghost use Rattle.text_fields.specs.Fields.{id_text};

use itoa::Buffer;
use std::alloc::AllocError;
use tags_clocks::OpId;

/// Appends the number in decimal digits. `Err` if memory runs out; `out` then still begins with its
/// former contents.
pub fn push_number(number: u64, out: &mut Vec<u8>) -> Result<(), AllocError>
    ensures ok { OnOk result (out.new.items ≡ out.old.items ++ decimal number) }
    ensures extends { (more : List ℕ) × (out.new.items ≡ out.old.items ++ more) }
{
    let mut buffer = Buffer::new();
    out.extend_from_slice(buffer.format(number).as_bytes())
}

/// Appends the id: the replica, a colon and the number. `Err` if memory runs out; `out` then still
/// begins with its former contents.
pub fn push_id(id: OpId, out: &mut Vec<u8>) -> Result<(), AllocError>
    ensures ok { OnOk result (out.new.items ≡ out.old.items ++ id_text id) }
    ensures extends { (more : List ℕ) × (out.new.items ≡ out.old.items ++ more) }
{
    push_number(u64::from(id.replica.get()), out)?;
    out.push(b':')?;
    push_number(u64::from(id.number.get()), out)
}
