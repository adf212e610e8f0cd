//! A version of a message.

ghost use Rattle.std.specs.Prelude.{◌≡◌, IfOk};

use crate::flags::Flags;
use std::alloc::{AllocError, Global};
use tags_clocks::OpId;

/// A version of a message: a message tag that is present, with its flags.
pub struct Version {
    /// The id of the tag, and of the operation that added it.
    pub id: OpId,
    /// The flags that the tag carries.
    pub flags: Flags,
}

// By hand, so that crates above drop it whole.
impl Drop for Version {
    fn drop(self) {
        let Self { id: _, flags: _ } = self;
    }
}

impl Version {
    /// A copy of the version. `Err` if memory runs out.
    pub fn copy(&self, alloc: Global) -> Result<Version, AllocError>
        ensures { IfOk result (λ copied. copied ≡ self.now) }
    {
        Ok(Version {
            id: self.id,
            flags: self.flags.copy(alloc)?,
        })
    }
}

/// Copies of the versions, in their order. `Err` if memory runs out.
pub fn copy_versions(alloc: Global, versions: &[Version]) -> Result<Vec<Version>, AllocError>
    ensures { IfOk result (λ copies. copies.items ≡ versions.now) }
{
    let mut copies = Vec::with_capacity(alloc, versions.len())?;
    for version in versions {
        copies.push(version.copy(alloc)?)?;
    }
    Ok(copies)
}
