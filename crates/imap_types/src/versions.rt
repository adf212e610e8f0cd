//! Borrowed versions of a message.

ghost use Rattle.std.specs.Prelude.{◌≡◌, ◌↔◌, IfOk, IsTrue, OnOk};
ghost use Rattle.std.specs.List.{fold};
ghost use Rattle.imap_types.specs.Keywords.{has_keyword, with_word};
ghost use Rattle.imap_types.specs.Unions.{united_flags};

use crate::flag_tests::{
    any_has_keyword, any_is_answered, any_is_deleted, any_is_draft, any_is_flagged, any_is_seen,
};
use crate::flags::Flags;
use crate::keywords::Keywords;
use crate::unions::{add_flags, add_version_keywords, is_keyword_union};
use crate::version::Version;
use std::alloc::{AllocError, Global};

/// The versions of a message, borrowed from the table that owns them, ascending by id (by replica,
/// then by number). The message's flags are the union of theirs: each system flag that any version
/// has, and all their keywords.
#[derive(Clone, Copy)]
pub struct Versions<'a> {
    /// The versions, in order.
    pub list: &'a [Version],
}

impl<'a> Versions<'a> {
    /// The versions of this list.
    pub fn new(list: &'a [Version]) -> Versions<'a>
        ensures { result.list.now ≡ list.now }
    {
        Versions { list }
    }

    /// The versions, in order.
    pub fn as_slice(&self) -> &'a [Version]
        ensures { result.now ≡ self.now.list.now }
    {
        self.list
    }

    /// Whether any version is `\Answered`.
    pub fn answered(&self) -> bool
        ensures { result ≡ (united_flags self.now.list.now).answered }
    {
        any_is_answered(self.list)
    }

    /// Whether any version is `\Flagged`.
    pub fn flagged(&self) -> bool
        ensures { result ≡ (united_flags self.now.list.now).flagged }
    {
        any_is_flagged(self.list)
    }

    /// Whether any version is `\Deleted`.
    pub fn deleted(&self) -> bool
        ensures { result ≡ (united_flags self.now.list.now).deleted }
    {
        any_is_deleted(self.list)
    }

    /// Whether any version is `\Seen`.
    pub fn seen(&self) -> bool
        ensures { result ≡ (united_flags self.now.list.now).seen }
    {
        any_is_seen(self.list)
    }

    /// Whether any version is `\Draft`.
    pub fn draft(&self) -> bool
        ensures { result ≡ (united_flags self.now.list.now).draft }
    {
        any_is_draft(self.list)
    }

    /// Whether any version has this keyword, compared without case.
    pub fn has_keyword(&self, word: &[u8]) -> bool
        ensures { result ≡ has_keyword word.now (united_flags self.now.list.now).keywords }
    {
        any_has_keyword(self.list, word)
    }

    /// Whether the union of the versions' flags is exactly `flags`. Doesn't allocate.
    pub fn has_flags(&self, flags: &Flags) -> bool
        ensures { IsTrue result ↔ (united_flags self.now.list.now ≡ flags.now) }
    {
        self.answered() == flags.answered
            && self.flagged() == flags.flagged
            && self.deleted() == flags.deleted
            && self.seen() == flags.seen
            && self.draft() == flags.draft
            && is_keyword_union(self.list, &flags.keywords)
    }

    /// The union of the versions' flags. `Err` if memory runs out.
    pub fn flags(&self, alloc: Global) -> Result<Flags, AllocError>
        ensures { IfOk result (λ flags. flags ≡ united_flags self.now.list.now) }
    {
        let mut union = Flags::none(alloc);
        for version in self.list {
            add_flags(alloc, &mut union, &version.flags)?;
        }
        Ok(union)
    }

    /// Adds all keywords of the versions to `keywords`. `Err` if memory runs out; some may have
    /// been added then.
    pub fn add_keywords_to(&self, alloc: Global, keywords: &mut Keywords) -> Result<(), AllocError>
        ensures { OnOk result (keywords.new
            ≡ fold (λ done word. with_word word done) keywords.old
            (united_flags self.now.list.now).keywords) }
    {
        let _words = keywords.as_slice();
        add_version_keywords(alloc, keywords, self.list)
    }
}
