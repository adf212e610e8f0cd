//! `Folders`: the replicated folders.

ghost use Rattle.crdt_ops.specs.Ops.{clock_of, id_of};

use crate::after_ops::{has_tag_after_all, has_tags, has_version_after_all, has_versions};
use crate::folder::Folder;
use crate::folder_lists::{all_ids, folder_names, is_inbox, tag_ids, version_ids};
use crate::message_reader::folder_messages;
use crate::message_ref::{MessageRef, message_ref, message_table};
use crate::op_room::{empty_lists, reserve_folders, reserve_one};
use crate::tag_changes::{add_tag_of, remove_tags_of};
use crate::tag_counts::TagCounts;
use crdt_ops::{Ids, Message, SoundOp, copy_ops};
use imap_types::{Name, Version};
use indexmap::IndexMap;
use mailbox_rows::{DatedText, FolderMessages};
use merge_laws::{Caused, Replicated};
use std::alloc::{AllocError, Global};
use std::collections::VecDeque;
use tags_clocks::OpId;

/// Folders with their messages, changed by operations in any causal order.
pub struct Folders {
    by_name: IndexMap<Vec<u8>, Folder>,
    dated_texts: IndexMap<OpId, DatedText>,
    spare: VecDeque<SoundOp>,
    lists: VecDeque<Vec<Version>>,
}

// By hand, so that crates above drop it whole.
impl Drop for Folders {
    fn drop(self) {
        let Self {
            by_name: _,
            dated_texts: _,
            spare: _,
            lists: _,
        } = self;
    }
}

impl Folders {
    ghost use Rattle.std.specs.Prelude.{◌≡◌, ◌↔◌, List, None, Some, IfOk, IsTrue, true};
    ghost use Rattle.std.specs.Prelude.{if◌then◌else◌};
    ghost use Rattle.std.specs.List.{list_any};
    ghost use Rattle.std.specs.Option.{option_copied, option_map};
    ghost use Rattle.tags_clocks.specs.declared.id.OpId.{OpId};
    ghost use Rattle.imap_types.specs.Ascending.{octet_order};
    ghost use Rattle.std.specs.Prelude.{◌++◌};
    ghost use Rattle.merge_laws.specs.Orders.{AreSound, IsCausal, IsIn};
    ghost use Rattle.crdt_ops.specs.Sound.{IsSound};
    ghost use Rattle.folder_state.specs.AfterOps.{contents_after};
    ghost use Rattle.folder_state.specs.FolderTables.{tag_data_in, has_tag_in};
    ghost use Rattle.folder_state.specs.MessageRefs.{message_ref, stored_dated_text};
    ghost use Rattle.folder_state.specs.MessageRefs.{message_of_data};
    ghost use Rattle.mailbox_rows.specs.MessageData.{stored_message_data};
    ghost use Rattle.crdt_ops.specs.declared.op.Op.{Op};
    ghost use Rattle.crdt_ops.specs.SortedSets.{IsListOf, id_order, same_id};
    ghost use Rattle.crdt_ops.specs.Sets.{delete_set_of, folder_tags_of, folders_of, message_of};
    ghost use Rattle.crdt_ops.specs.Sets.{messages_of, origins_of, versions_of};
    ghost use Rattle.folder_state.specs.Contents.{AreMessages, AreVersions, HasTag, HasVersion};
    ghost use Rattle.folder_state.specs.Contents.{IsFolder, IsMadeBy, IsMessageOf, no_contents};
    ghost use Rattle.folder_state.specs.Tables.{contents_of};

    /// Only INBOX, without messages; doesn't allocate.
    pub fn new(alloc: Global) -> Folders
        ensures { contents_of result ≡ no_contents }
    {
        Folders {
            by_name: IndexMap::new(alloc),
            dated_texts: IndexMap::new(alloc),
            spare: VecDeque::new(alloc),
            lists: VecDeque::new(alloc),
        }
    }

    /// The tables of this folder, if any. Cost: a look-up.
    pub fn folder(&self, name: &Name) -> Option<&Folder>
        ensures tags { (i : OpId)
            → (contents_of self.now).tags name.now i ≡ has_tag_in (option_copied result) i }
        ensures tag_data { (i : OpId)
            → (contents_of self.now).tag_data name.now i ≡ tag_data_in (option_copied result) i }
    {
        self.by_name.get(name.as_bytes())
    }

    /// The folder's stored messages, borrowed, with the dates and texts of all Appends. Cost: a
    /// look-up.
    pub fn mailbox(&self, name: &Name) -> FolderMessages<'_>
        ensures contents { (origin : OpId)
            → IsMessageOf (contents_of self.now) name.now origin
            (option_map (message_of_data origin) (stored_message_data result origin)) }
    {
        FolderMessages {
            messages: message_table(self.folder(name)),
            dated_texts: &self.dated_texts,
        }
    }

    /// The date and text of the Append with this id, if one was applied, in any folder. Cost:
    /// a look-up.
    pub fn dated_text(&self, id: &OpId) -> Option<&DatedText>
        ensures { option_map stored_dated_text (option_copied result)
            ≡ (contents_of self.now).dated_texts id.now }
    {
        self.dated_texts.get(id)
    }

    /// Whether this folder exists: it is INBOX, or has a present tag. Takes no memory. Cost: a
    /// look-up.
    pub fn exists(&self, name: &Name) -> bool
        ensures contents { IsTrue result ↔ IsFolder (contents_of self.now) name.now }
        ensures set { (ops : List Op)
            → IsMadeBy (contents_of self.now) ops
            → IsTrue result ↔ IsIn name.now (folders_of ops) }
    {
        is_inbox(name) || has_tags(self.folder(name))
    }

    /// Whether this folder will exist after these operations, applied in this order. Takes no
    /// memory. Cost: at most the number of operations times that of the folder's tags and the
    /// operations together.
    pub fn exists_after(&self, name: &Name, ops: &[SoundOp]) -> bool
        ensures contents { IsTrue result
            ↔ IsFolder (contents_after (contents_of self.now) ops.now) name.now }
        ensures set { (list : List Op)
            → IsMadeBy (contents_of self.now) list
            → AreSound IsSound (list ++ ops.now)
            → IsCausal id_of clock_of (list ++ ops.now)
            → IsTrue result ↔ IsIn name.now (folders_of (list ++ ops.now)) }
    {
        is_inbox(name) || has_tag_after_all(self.folder(name), name, ops)
    }

    /// Whether the origin has a version in the folder. Takes no memory. Cost: a look-up.
    pub fn has_version(&self, folder: &Name, origin: &OpId) -> bool
        ensures contents { IsTrue result ↔ HasVersion (contents_of self.now) folder.now origin.now }
        ensures set { (ops : List Op)
            → IsMadeBy (contents_of self.now) ops
            → IsTrue result ↔ IsIn origin.now (origins_of ops folder.now) }
    {
        has_versions(self.folder(folder), origin)
    }

    /// Whether the origin will have a version in the folder after these operations, applied in this
    /// order. Takes no memory.
    pub fn has_version_after(&self, folder: &Name, origin: &OpId, ops: &[SoundOp]) -> bool
        ensures contents { IsTrue result
            ↔ HasVersion (contents_after (contents_of self.now) ops.now) folder.now origin.now }
        ensures set { (list : List Op)
            → IsMadeBy (contents_of self.now) list
            → AreSound IsSound (list ++ ops.now)
            → IsCausal id_of clock_of (list ++ ops.now)
            → IsTrue result ↔ IsIn origin.now (origins_of (list ++ ops.now) folder.now) }
    {
        has_version_after_all(self.folder(folder), folder, origin, ops)
    }

    /// The folder's message of this origin, borrowed; None if the origin has no version in the
    /// folder. Takes no memory. Cost: at most three look-ups.
    pub fn message<'a>(&'a self, folder: &Name, origin: &OpId) -> Option<MessageRef<'a>>
        ensures contents { IsMessageOf (contents_of self.now) folder.now origin.now
            (option_map message_ref result) }
        ensures set { (list : List Op)
            → IsMadeBy (contents_of self.now) list
            → option_map message_ref result
            ≡ (if list_any (same_id origin.now) (origins_of list folder.now)
            then Some (message_of list folder.now origin.now)
            else None) }
    {
        match self.folder(folder) {
            Some(tables) => message_ref(tables, &self.dated_texts, origin),
            None => None,
        }
    }

    /// The names of the existing folders, INBOX among them, ascending by octets; `Err` if memory
    /// runs out.
    pub fn names(&self, alloc: Global) -> Result<Vec<Name>, AllocError>
        ensures contents { IfOk result
            (λ names. IsListOf octet_order (IsFolder (contents_of self.now)) names.items) }
        ensures set { (ops : List Op)
            → IsMadeBy (contents_of self.now) ops
            → IfOk result (λ names. names.items ≡ folders_of ops) }
    {
        let names = folder_names(alloc, &self.by_name)?;
        Ok(names)
    }

    /// The ids of the folder's present folder tags; `Err` if memory runs out.
    pub fn tags(&self, alloc: Global, folder: &Name) -> Result<Ids, AllocError>
        ensures contents { IfOk result
            (λ ids. IsListOf id_order (λ i. (contents_of self.now).tags folder.now i ≡ true) ids) }
        ensures set { (ops : List Op)
            → IsMadeBy (contents_of self.now) ops
            → IfOk result (λ ids. ids ≡ folder_tags_of ops folder.now) }
    {
        let ids = tag_ids(alloc, self.folder(folder))?;
        Ok(ids)
    }

    /// The ids of the origin's versions in the folder, which are the folder's present message tags
    /// with this origin; `Err` if memory runs out.
    pub fn versions(&self, alloc: Global, folder: &Name, origin: &OpId) -> Result<Ids, AllocError>
        ensures contents { IfOk result
            (λ ids. AreVersions (contents_of self.now) folder.now origin.now ids) }
        ensures set { (ops : List Op)
            → IsMadeBy (contents_of self.now) ops
            → IfOk result (λ ids. ids ≡ versions_of ops folder.now origin.now) }
    {
        let ids = version_ids(alloc, self.folder(folder), origin)?;
        Ok(ids)
    }

    /// The folder's messages, ascending by origin: one for each origin with a version. Each has its
    /// versions, the union of their flags, and the date and text of the Append that is its origin,
    /// in any folder. If no such Append was applied, the text is empty and the date is
    /// the first moment of 1970. `Err` if memory runs out.
    pub fn messages(&self, alloc: Global, folder: &Name) -> Result<Vec<Message>, AllocError>
        ensures contents { IfOk result
            (λ messages. AreMessages (contents_of self.now) folder.now messages.items) }
        ensures set { (ops : List Op)
            → IsMadeBy (contents_of self.now) ops
            → IfOk result (λ messages. messages.items ≡ messages_of ops folder.now) }
    {
        let messages = folder_messages(alloc, self.folder(folder), &self.dated_texts)?;
        Ok(messages)
    }

    /// The ids that a Delete of the folder lists, which are those of all its present tags, of both
    /// kinds; `Err` if memory runs out.
    pub fn delete_set(&self, alloc: Global, folder: &Name) -> Result<Ids, AllocError>
        ensures contents { IfOk result
            (λ ids. IsListOf id_order (HasTag (contents_of self.now) folder.now) ids) }
        ensures set { (ops : List Op)
            → IsMadeBy (contents_of self.now) ops
            → IfOk result (λ ids. ids ≡ delete_set_of ops folder.now) }
    {
        let ids = all_ids(alloc, self.folder(folder))?;
        Ok(ids)
    }
}

impl Replicated for Folders {
    ghost use Rattle.folder_state.specs.Contents.{Contents, effect_of, no_contents};
    ghost use Rattle.folder_state.specs.Tables.{IsPrepared, contents_of, prepared_first};
    ghost use Rattle.folder_state.specs.Laws.{effects_commute};

    type Op = SoundOp;

    ghost Meaning = { Contents };

    ghost meaning = { contents_of };

    ghost effect = { effect_of };

    ghost initial = { no_contents };

    ghost is_prepared = { IsPrepared };

    ghost first = { prepared_first };

    ghost commutes = { effects_commute };

    fn prepare(&mut self, alloc: Global, ops: &[SoundOp]) -> Result<(), AllocError> {
        match ops {
            [op] => self.prepare_one(alloc, op),
            _ => self.prepare_all(alloc, ops),
        }
    }

    fn apply(&mut self, op: &SoundOp) {
        remove_tags_of(&mut self.by_name, op.op());
        match self.spare.pop_front() {
            Some(copy) => match self.lists.pop_front() {
                Some(list) => add_tag_of(
                    &mut self.by_name,
                    &mut self.dated_texts,
                    copy.into_op(),
                    list,
                ),
                None => unreachable!(),
            },
            None => unreachable!(),
        }
    }
}

impl Folders {
    ghost use Rattle.std.specs.Prelude.{◌≡◌, ◌∷◌, [], OnOk};
    ghost use Rattle.folder_state.specs.Tables.{IsPrepared, contents_of};

    /// Makes room for one operation. `Err` if memory runs out: the contents stay.
    fn prepare_one(&mut self, alloc: Global, op: &SoundOp) -> Result<(), AllocError>
        ensures content { contents_of self.new ≡ contents_of self.old }
        ensures prepared { OnOk result (IsPrepared self.new (op.now ∷ [])) }
    {
        let copy = op.copy(alloc)?;
        let list = Vec::with_capacity(alloc, 1)?;
        reserve_one(alloc, &mut self.by_name, op.op())?;
        self.dated_texts.reserve(1)?;
        self.lists.clear();
        self.spare.clear();
        self.lists.push_back(list)?;
        self.spare.push_back(copy)?;
        Ok(())
    }

    /// Makes room for these operations, to be applied in this order. `Err` if memory runs out: the
    /// contents stay.
    fn prepare_all(&mut self, alloc: Global, ops: &[SoundOp]) -> Result<(), AllocError>
        ensures content { contents_of self.new ≡ contents_of self.old }
        ensures prepared { OnOk result (IsPrepared self.new ops.now) }
    {
        let copies = copy_ops(alloc, ops)?;
        let tag_counts = TagCounts::of_ops(alloc, ops)?;
        let lists = empty_lists(alloc, ops, &tag_counts)?;
        reserve_folders(alloc, &mut self.by_name, ops, &tag_counts)?;
        self.dated_texts.reserve(ops.len())?;
        self.spare = copies;
        self.lists = lists;
        Ok(())
    }
}
