//! The codes in brackets after an OK (RFC 9051, section 7.1; RFC 7162, sections 3.1.2 and 3.1.3).

ghost use Rattle.std.specs.Prelude.{◌≡◌, ◌↔◌, IfOk, IsTrue};

use imap_types::{Flags, NumberSet};
use std::alloc::{AllocError, Global};

/// The code of a tagged OK. UIDVALIDITY and UIDs are from 1 on.
pub enum Code {
    /// SELECT opened the mailbox for reading and writing.
    ReadWrite,
    /// EXAMINE opened the mailbox for reading only.
    ReadOnly,
    /// The appended message has this UID under this UIDVALIDITY.
    AppendUid {
        uidvalidity: u32,
        uid: u32,
    },
    /// The messages with the UIDs in `source` were copied; the copies have the UIDs in `copies`, in
    /// the same order, under this UIDVALIDITY.
    CopyUid {
        uidvalidity: u32,
        source: NumberSet,
        copies: NumberSet,
    },
    /// The messages that UNCHANGEDSINCE left unchanged: message numbers, or UIDs after UID STORE.
    Modified {
        refused: NumberSet,
    },
    /// Some of the named messages were removed.
    ExpungeIssued,
}

// By hand, so that crates above drop it whole.
impl Drop for Code {
    fn drop(self) {
        match self {
            Self::ReadWrite => {}
            Self::ReadOnly => {}
            Self::AppendUid {
                uidvalidity: _,
                uid: _,
            } => {}
            Self::CopyUid {
                uidvalidity: _,
                source: _,
                copies: _,
            } => {}
            Self::Modified { refused: _ } => {}
            Self::ExpungeIssued => {}
        }
    }
}

impl Code {
    /// Whether both are the same code, compared by value.
    pub fn same(&self, other: &Code) -> bool
        ensures { IsTrue result ↔ (self.now ≡ other.now) }
    {
        match (self, other) {
            (Code::ReadWrite, Code::ReadWrite) => true,
            (Code::ReadOnly, Code::ReadOnly) => true,
            (
                Code::AppendUid { uidvalidity, uid },
                Code::AppendUid {
                    uidvalidity: other_validity,
                    uid: other_uid,
                },
            ) => uidvalidity == other_validity && uid == other_uid,
            (
                Code::CopyUid {
                    uidvalidity,
                    source,
                    copies,
                },
                Code::CopyUid {
                    uidvalidity: other_validity,
                    source: other_source,
                    copies: other_copies,
                },
            ) => uidvalidity == other_validity
                && source.same(other_source)
                && copies.same(other_copies),
            (Code::Modified { refused }, Code::Modified { refused: others }) => refused.same(
                others,
            ),
            (Code::ExpungeIssued, Code::ExpungeIssued) => true,
            _ => false,
        }
    }

    /// An equal code; `Err` if memory runs out.
    pub fn copy(&self, alloc: Global) -> Result<Code, AllocError>
        ensures { IfOk result (λ copied. copied ≡ self.now) }
    {
        Ok(match self {
            Code::ReadWrite => Code::ReadWrite,
            Code::ReadOnly => Code::ReadOnly,
            Code::AppendUid { uidvalidity, uid } => Code::AppendUid {
                uidvalidity: *uidvalidity,
                uid: *uid,
            },
            Code::CopyUid {
                uidvalidity,
                source,
                copies,
            } => Code::CopyUid {
                uidvalidity: *uidvalidity,
                source: source.copy(alloc)?,
                copies: copies.copy(alloc)?,
            },
            Code::Modified { refused } => Code::Modified {
                refused: refused.copy(alloc)?,
            },
            Code::ExpungeIssued => Code::ExpungeIssued,
        })
    }
}

/// The code of an untagged OK.
pub enum Notice {
    /// The mailbox that was selected is closed.
    Closed,
    /// The UIDVALIDITY of the mailbox, from 1 on.
    UidValidity {
        value: u32,
    },
    /// The UIDNEXT of the mailbox, from 1 on.
    UidNext {
        uid: u32,
    },
    /// The flags that can be changed permanently, and any new keyword; `None` if nothing can be
    /// changed.
    PermanentFlags {
        flags: Option<Flags>,
    },
    /// The greatest mod-sequence of the mailbox, from 1 on.
    HighestModSeq {
        modseq: u64,
    },
    /// The messages with the UIDs in `source` were moved; they now have the UIDs in `copies`, in
    /// the same order, under this UIDVALIDITY.
    CopyUid {
        uidvalidity: u32,
        source: NumberSet,
        copies: NumberSet,
    },
}

// By hand, so that crates above drop it whole.
impl Drop for Notice {
    fn drop(self) {
        match self {
            Self::Closed => {}
            Self::UidValidity { value: _ } => {}
            Self::UidNext { uid: _ } => {}
            Self::PermanentFlags { flags: _ } => {}
            Self::HighestModSeq { modseq: _ } => {}
            Self::CopyUid {
                uidvalidity: _,
                source: _,
                copies: _,
            } => {}
        }
    }
}

impl Notice {
    /// Whether both are the same notice, compared by value.
    pub fn same(&self, other: &Notice) -> bool
        ensures { IsTrue result ↔ (self.now ≡ other.now) }
    {
        match (self, other) {
            (Notice::Closed, Notice::Closed) => true,
            (Notice::UidValidity { value }, Notice::UidValidity { value: other }) => value == other,
            (Notice::UidNext { uid }, Notice::UidNext { uid: other }) => uid == other,
            (Notice::PermanentFlags { flags }, Notice::PermanentFlags { flags: others }) => {
                are_same_flags(flags, others)
            }
            (Notice::HighestModSeq { modseq }, Notice::HighestModSeq { modseq: other }) => {
                modseq == other
            }
            (
                Notice::CopyUid {
                    uidvalidity,
                    source,
                    copies,
                },
                Notice::CopyUid {
                    uidvalidity: other_validity,
                    source: other_source,
                    copies: other_copies,
                },
            ) => uidvalidity == other_validity
                && source.same(other_source)
                && copies.same(other_copies),
            _ => false,
        }
    }

    /// An equal notice; `Err` if memory runs out.
    pub fn copy(&self, alloc: Global) -> Result<Notice, AllocError>
        ensures { IfOk result (λ copied. copied ≡ self.now) }
    {
        Ok(match self {
            Notice::Closed => Notice::Closed,
            Notice::UidValidity { value } => Notice::UidValidity { value: *value },
            Notice::UidNext { uid } => Notice::UidNext { uid: *uid },
            Notice::PermanentFlags { flags } => Notice::PermanentFlags {
                flags: copy_flags(alloc, flags)?,
            },
            Notice::HighestModSeq { modseq } => Notice::HighestModSeq { modseq: *modseq },
            Notice::CopyUid {
                uidvalidity,
                source,
                copies,
            } => Notice::CopyUid {
                uidvalidity: *uidvalidity,
                source: source.copy(alloc)?,
                copies: copies.copy(alloc)?,
            },
        })
    }
}

/// Whether both are the same flags, or both none.
pub fn are_same_flags(flags: &Option<Flags>, others: &Option<Flags>) -> bool
    ensures { IsTrue result ↔ (flags.now ≡ others.now) }
{
    match (flags, others) {
        (None, None) => true,
        (Some(flags), Some(others)) => flags.same(others),
        _ => false,
    }
}

/// Equal flags, if any; `Err` if memory runs out.
pub fn copy_flags(alloc: Global, flags: &Option<Flags>) -> Result<Option<Flags>, AllocError>
    ensures { IfOk result (λ copied. copied ≡ flags.now) }
{
    Ok(match flags {
        None => None,
        Some(flags) => Some(flags.copy(alloc)?),
    })
}
