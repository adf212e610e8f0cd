//! Every sound operation has a text: the types of its fields guarantee that octets, numbers and
//! lists are in range. These functions do nothing; each states what holds of every value of a type.

ghost use Rattle.std.specs.Prelude.{◌≡◌, ℕ, ◌<◌, ◌≤◌, length};
ghost use Rattle.imap_types.specs.DateTimes.{IsDateTime};
ghost use Rattle.imap_types.specs.Escape.{AreOctets};
ghost use Rattle.imap_types.specs.Flags.{IsLawfulFlags};
ghost use Rattle.tags_clocks.specs.Clock.{IsClock};
ghost use Rattle.crdt_ops.specs.Form.{AreIds, Each, HasFields, HasWords, IsDated, IsEntry, IsId};
ghost use Rattle.crdt_ops.specs.Form.{IsInForm, IsReplica};
ghost use Rattle.crdt_ops.specs.Sound.{HasLawfulFlags};

use crdt_ops::{Ids, Kind, SoundOp};
use imap_types::{DateTime, Flags, Name, Text};
use tags_clocks::{Clock, OpId, ReplicaId};

/// A sound operation has a text. So whoever writes operations to a log needs no test of their
/// fields.
pub fn op_has_text(op: &SoundOp)
    ensures { IsInForm op.now }
{
    let plain = op.op();
    id_fits(plain.id);
    clock_fits(&plain.clock);
    kind_fits(&plain.kind);
}

/// A replica's number is from 1 to 65,535.
fn replica_fits(replica: ReplicaId)
    ensures { IsReplica replica }
{
    let _number = replica.get();
}

fn id_fits(id: OpId)
    ensures { IsId id }
{
    replica_fits(id.replica);
    let _number = id.number.get();
}

fn ids_fit(ids: &Ids)
    ensures { AreIds ids.now }
{
    each_id_fits(ids.as_slice());
}

fn each_id_fits(ids: &[OpId])
    ensures { Each IsId ids.now }
{
    for id in ids {
        id_fits(*id);
    }
}

fn clock_fits(clock: &Clock)
    ensures clock { IsClock clock.now }
    ensures entries { Each IsEntry clock.now }
{
    entries_fit(clock.entries());
}

/// The numbers of a clock's entries have 32 bits; that they begin at 1 is the clock's own
/// invariant.
fn entries_fit(entries: &[(ReplicaId, u32)])
    ensures { Each (λ (entry : ℕ × ℕ). IsReplica entry.0 × (entry.1 ≤ 4294967295)) entries.now }
{
    for (replica, number) in entries {
        replica_fits(*replica);
        number_fits(*number);
    }
}

fn number_fits(number: u32)
    ensures { number ≤ 4294967295 }
{}

/// The fields of an operation with lawful flags, its date among them, are in range.
fn kind_fits(kind: &Kind)
    requires { HasLawfulFlags kind.now }
    ensures fields { HasFields kind.now }
    ensures date { IsDated kind.now }
{
    match kind {
        Kind::Create { folder } => name_fits(folder),
        Kind::Delete { folder, seen } => {
            name_fits(folder);
            ids_fit(seen);
        }
        Kind::Append {
            folder,
            flags,
            date,
            text,
        } => {
            name_fits(folder);
            flags_fit(flags);
            date_fits(date);
            text_fits(text);
        }
        Kind::Expunge { folder, old_ids } => {
            name_fits(folder);
            ids_fit(old_ids);
        }
        Kind::Store {
            folder,
            flags,
            old_ids,
            origin,
        } => {
            name_fits(folder);
            flags_fit(flags);
            ids_fit(old_ids);
            id_fits(*origin);
        }
        Kind::Subscribe { name } => name_fits(name),
        Kind::Unsubscribe { name, seen } => {
            name_fits(name);
            ids_fit(seen);
        }
    }
}

fn name_fits(name: &Name)
    ensures { AreOctets name.now }
{
    octets_fit(name.as_bytes());
}

fn text_fits(text: &Text)
    ensures { AreOctets text.now }
{
    octets_fit(text.as_bytes());
}

fn octets_fit(octets: &[u8])
    ensures { AreOctets octets.now }
{
    for octet in octets {
        octet_fits(*octet);
    }
}

fn octet_fits(octet: u8)
    ensures { octet < 256 }
{}

/// Lawful keywords are words.
fn flags_fit(flags: &Flags)
    requires { IsLawfulFlags flags.now }
    ensures { HasWords flags.now }
{
    let _words = flags.keywords.as_slice();
}

fn date_fits(date: &DateTime)
    ensures form { IsDateTime date.now }
    ensures octets { length date.now ≡ 28 }
{
    let _octets = date.as_bytes();
}
