//! UIDs, UIDVALIDITY and mod-sequences in plain lists: each operation goes through all messages of
//! its folder.

use crate::drafts::added_origin;
use crate::fixtures::Trouble;
use crate::plain_mailboxes::PlainMailboxes;
use crdt_ops::{Kind, Message, Op};
use imap_types::Name;
use std::alloc::{AllocError, Global};
use tags_clocks::OpId;

/// The numbers of a message.
#[derive(Drop)]
struct PlainLine {
    origin: OpId,
    uid: u32,
    modseq: u64,
}

/// A message with its numbers.
#[derive(Drop)]
pub struct PlainRow {
    /// Its UID.
    pub uid: u32,
    /// Its mod-sequence.
    pub modseq: u64,
    /// Its origin, versions, flags, date and text.
    pub message: Message,
}

/// The numbers of a folder.
#[derive(Drop)]
struct PlainChart {
    folder: Name,
    is_present: bool,
    k: u32,
    uidnext: u32,
    highest: u64,
    lines: Vec<PlainLine>,
}

/// The state in plain lists of a replica whose counters begin at 1.
#[derive(Drop)]
pub struct PlainReplica {
    /// Its number.
    number: u32,
    next_k: u32,
    /// Its folders and subscriptions.
    pub mailboxes: PlainMailboxes,
    charts: Vec<PlainChart>,
}

impl PlainReplica {
    /// The replica with this number, to which no operation was applied.
    pub fn new(alloc: Global, number: u32) -> Result<PlainReplica, AllocError> {
        let mut charts = Vec::new(alloc);
        charts.push(chart_of(alloc, Name::inbox(alloc)?, true))?;
        Ok(PlainReplica {
            number,
            next_k: 1,
            mailboxes: PlainMailboxes::new(alloc),
            charts,
        })
    }

    /// Applies an operation.
    pub fn apply(&mut self, alloc: Global, op: &Op) -> Result<(), Trouble> {
        let lost = self.mailboxes.losing_origins(alloc, op)?;
        self.mailboxes.apply(alloc, op)?;
        match &op.kind {
            Kind::Subscribe { .. } => Ok(()),
            Kind::Unsubscribe { .. } => Ok(()),
            _ => self.note(alloc, op, lost.as_slice()),
        }
    }

    /// Updates the folder's chart for an operation that was applied; by it, the origins in `lost`
    /// lost a version.
    fn note(&mut self, alloc: Global, op: &Op, lost: &[OpId]) -> Result<(), Trouble> {
        let folder = op.kind.name();
        let is_present = self.mailboxes.exists(folder);
        let at = match place_of(&self.charts, folder) {
            Some(at) => at,
            None => {
                self.charts
                    .push(chart_of(alloc, folder.copy(alloc)?, false))?;
                self.charts.len().saturating_sub(1)
            }
        };
        match self.charts.get_mut(at) {
            None => Ok(()),
            Some(chart) => {
                if is_present && !chart.is_present {
                    chart.k = self.next_k;
                    self.next_k = self.next_k.saturating_add(1);
                }
                step(chart, &self.mailboxes, is_present, op, lost)
            }
        }
    }

    /// The UIDVALIDITY of an existing folder; `None` if it doesn't exist.
    pub fn uidvalidity(&self, folder: &Name) -> Option<u32> {
        if folder.as_bytes() == b"INBOX".as_slice() {
            return Some(self.number);
        }
        match self.chart(folder) {
            Some(chart) if chart.is_present => {
                Some(chart.k.saturating_mul(65536).saturating_add(self.number))
            }
            _ => None,
        }
    }

    /// UIDNEXT and HIGHESTMODSEQ of the folder.
    pub fn counters(&self, folder: &Name) -> (u32, u64) {
        match self.chart(folder) {
            Some(chart) => (chart.uidnext, chart.highest),
            None => (1, 1),
        }
    }

    /// The folder's messages with their numbers, by ascending UIDs.
    pub fn rows(&self, alloc: Global, folder: &Name) -> Result<Vec<PlainRow>, AllocError> {
        let mut rows = Vec::new(alloc);
        for line in self.lines(folder) {
            let message = self.mailboxes.message(alloc, folder, &line.origin)?;
            rows.push(PlainRow {
                uid: line.uid,
                modseq: line.modseq,
                message,
            })?;
        }
        Ok(rows)
    }

    /// The numbers of the folder's messages, by ascending UIDs.
    fn lines(&self, folder: &Name) -> &[PlainLine] {
        match self.chart(folder) {
            Some(chart) => &chart.lines,
            None => &[],
        }
    }

    /// The folder's chart, if an operation was about the folder.
    fn chart(&self, folder: &Name) -> Option<&PlainChart> {
        for chart in &self.charts {
            if chart.folder.same(folder) {
                return Some(chart);
            }
        }
        None
    }
}

fn chart_of(alloc: Global, folder: Name, is_present: bool) -> PlainChart {
    PlainChart {
        folder,
        is_present,
        k: 1,
        uidnext: 1,
        highest: 1,
        lines: Vec::new(alloc),
    }
}

fn place_of(charts: &[PlainChart], folder: &Name) -> Option<usize> {
    for (at, chart) in charts.iter().enumerate() {
        if chart.folder.same(folder) {
            return Some(at);
        }
    }
    None
}

/// Updates the chart for an operation about its folder; `is_present` says whether the folder exists
/// afterwards.
fn step(
    chart: &mut PlainChart,
    mailboxes: &PlainMailboxes,
    is_present: bool,
    op: &Op,
    lost: &[OpId],
) -> Result<(), Trouble> {
    chart.is_present = is_present;
    if !is_present {
        chart.uidnext = 1;
        chart.highest = 1;
        chart.lines.clear();
        return Ok(());
    }
    chart.highest = chart.highest.saturating_add(1);
    let added = added_origin(op);
    set_modseq(&mut chart.lines, lost, &added, chart.highest);
    let folder = &chart.folder;
    chart
        .lines
        .retain(|line| mailboxes.has_version(folder, &line.origin));
    match added {
        Some(origin) => begin(chart, &origin),
        None => Ok(()),
    }
}

/// Gives this mod-sequence to the messages that lost a version and to the one that got one.
fn set_modseq(lines: &mut [PlainLine], lost: &[OpId], added: &Option<OpId>, modseq: u64) {
    for line in lines.iter_mut() {
        if *added == Some(line.origin) || lost.contains(&line.origin) {
            line.modseq = modseq;
        }
    }
}

/// Whether a message of this origin is listed.
fn has_line(lines: &[PlainLine], origin: &OpId) -> bool {
    for line in lines {
        if line.origin == *origin {
            return true;
        }
    }
    false
}

/// Gives the next UID to the message of this origin if it isn't listed yet.
fn begin(chart: &mut PlainChart, origin: &OpId) -> Result<(), Trouble> {
    if has_line(&chart.lines, origin) {
        return Ok(());
    }
    chart.lines.push(PlainLine {
        origin: *origin,
        uid: chart.uidnext,
        modseq: chart.highest,
    })?;
    chart.uidnext = chart.uidnext.saturating_add(1);
    Ok(())
}
