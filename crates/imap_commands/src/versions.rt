//! The ids by which operations name all versions of a message.

ghost use Rattle.std.specs.Prelude.{◌≡◌, IfOk};
ghost use Rattle.imap_types.specs.Unions.{version_ids};

use crdt_ops::Ids;
use imap_types::{Version, Versions};
use std::alloc::{AllocError, Global};
use tags_clocks::OpId;

/// The ids of all versions of a message, as operations name them. A listing's versions have
/// ascending ids; for other versions the result may be `Err`. `Err` also if memory runs out.
pub fn ids_of_versions(alloc: Global, versions: &Versions<'_>) -> Result<Ids, AllocError>
    ensures { IfOk result (λ old_ids. old_ids ≡ version_ids versions.now.list.now) }
{
    Ids::new(ids_of(alloc, versions.as_slice())?).map_err(|_| AllocError)
}

fn ids_of(alloc: Global, versions: &[Version]) -> Result<Vec<OpId>, AllocError>
    ensures { IfOk result (λ ids. ids.items ≡ version_ids versions.now) }
{
    let mut ids = Vec::with_capacity(alloc, versions.len())?;
    for version in versions {
        ids.push(version.id)?;
    }
    Ok(ids)
}
