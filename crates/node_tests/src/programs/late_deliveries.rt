//! A long script with late, repeated and reordered deliveries.

ghost use Rattle.std.specs.Prelude.{◌<◌};

use itoa::Buffer;
use mail_replay::{ReplayEnd, replay};
use std::alloc::{AllocError, Global};
use std::str;

/// The number of replicas that issue operations.
const REPLICAS: u32 = 5;

/// The replica under whose name operations are forged.
const FORGER: u32 = 9;

/// The number of turns of the script. In each turn every replica issues an operation, 2,000 in all,
/// and one that no session issued is forged.
const TURNS: u32 = 400;

/// The largest number of pending deliveries when a turn ends.
const MAX_PENDING: usize = 2_000;

/// The lines of the script. `#` is replaced by a turn, `@` by the turn before it, and `^` by the
/// turn after it, which is the number of the operation that the turn issues; `!` by the replica,
/// and `?` by the one that issued the delivered operation.
const OPEN: &str = "node !\nopen ! s!\n";

const CREATE: &str = "line s! a CREATE f!x#\n";

const DELETE: &str = "line s! a DELETE f!x@\n";

const DELIVER: &str = "deliver ?:^ !\n";

const SHOW: &str = "show !\n";

const FIRST_FORGED: &str = "forge ! 9:1 - append f1x0 () \"01-Jan-1970 00:00:00 +0000\" =x\n";

const FORGED: [&str; 7] = [
    "forge ! 9:^ 9=# append f1x# () \"01-Jan-1970 00:00:00 +0000\" =x\n",
    "forge ! 9:^ 9=# store f1x@ (\\Seen) 9:# 9:#\n",
    "forge ! 9:^ 9=# subscribe n#\n",
    "forge ! 9:^ 9=# unsubscribe n@ 9:#\n",
    "forge ! 9:^ 9=# append INBOX (\\Flagged) \"01-Jan-1970 00:00:00 +0000\" =\n",
    "forge ! 9:^ 9=# expunge INBOX 9:#\n",
    "forge ! 9:^ 9=# subscribe m#\n",
];

/// The delivery to `replica` of the operation that `source` issued in a turn.
#[derive(Clone, Copy)]
struct Delivery {
    source: u32,
    turn: u32,
    replica: u32,
}

fn line_of(delivery: Delivery) -> &'static str {
    if delivery.source != FORGER {
        DELIVER
    } else if delivery.turn == 0 {
        FIRST_FORGED
    } else {
        FORGED[(delivery.turn % 7) as usize]
    }
}

/// A script under construction, with its pending deliveries and the state of a linear
/// congruential generator.
#[derive(Drop)]
struct ScriptDraft {
    script: Vec<u8>,
    late: Vec<Delivery>,
    state: u64,
}

impl ScriptDraft {
    /// The next pseudo-random number below this limit.
    fn below(&mut self, limit: usize) -> usize
        requires { 0 < limit }
        ensures { result < limit }
    {
        self.state = self
            .state
            .wrapping_mul(6_364_136_223_846_793_005)
            .wrapping_add(1_442_695_040_888_963_407);
        (self.state >> 33) as usize % limit
    }

    fn put_number(&mut self, number: u32) -> Result<(), AllocError> {
        let mut digits = Buffer::new();
        self.script
            .extend_from_slice(digits.format(number).as_bytes())
    }

    fn put_octet(&mut self, octet: u8, at: Delivery) -> Result<(), AllocError> {
        match octet {
            b'#' => self.put_number(at.turn),
            b'@' => self.put_number(at.turn.saturating_sub(1)),
            b'^' => self.put_number(at.turn.saturating_add(1)),
            b'!' => self.put_number(at.replica),
            b'?' => self.put_number(at.source),
            _ => self.script.extend_from_slice(&[octet]),
        }
    }

    fn put(&mut self, line: &str, at: Delivery) -> Result<(), AllocError> {
        for octet in line.as_bytes() {
            self.put_octet(*octet, at)?;
        }
        Ok(())
    }

    /// Appends a line for each replica.
    fn put_for_each(&mut self, line: &str, turn: u32) -> Result<(), AllocError> {
        for replica in 1..=REPLICAS {
            let source = replica;
            self.put(
                line,
                Delivery {
                    source,
                    turn,
                    replica,
                },
            )?;
        }
        Ok(())
    }

    /// Adds two late deliveries of an operation to each replica but its own.
    fn hold(&mut self, source: u32, turn: u32) -> Result<(), AllocError> {
        for number in 0..2 * REPLICAS {
            let replica = number / 2 + 1;
            if replica != source {
                self.late.push(Delivery {
                    source,
                    turn,
                    replica,
                })?;
            }
        }
        Ok(())
    }

    /// Appends late deliveries, in a pseudo-random order, until `left` of them are left.
    fn release(&mut self, left: usize) -> Result<(), AllocError> {
        for count in (left..self.late.len()).rev() {
            let place = self.below(count + 1);
            if place < self.late.len() {
                let delivery = self.late.swap_remove(place);
                self.put(line_of(delivery), delivery)?;
            }
        }
        Ok(())
    }

    /// Appends a turn: every replica issues an operation, and in each third turn it deletes the
    /// folder of the turn before.
    fn turn(&mut self, turn: u32) -> Result<(), AllocError> {
        let line = if turn % 3 == 2 { DELETE } else { CREATE };
        self.put_for_each(line, turn)?;
        self.hold(FORGER, turn)
    }

    fn hold_all(&mut self, turn: u32) -> Result<(), AllocError> {
        for source in 1..=REPLICAS {
            self.hold(source, turn)?;
        }
        self.release(MAX_PENDING)
    }

    fn turns(&mut self) -> Result<(), AllocError> {
        for turn in 0..TURNS {
            self.turn(turn)?;
            self.hold_all(turn)?;
        }
        self.release(0)
    }
}

/// A script in which five replicas issue operations, and receive those of the others late, twice
/// and out of order.
fn script(alloc: Global) -> Result<Vec<u8>, AllocError> {
    let mut draft = ScriptDraft {
        script: Vec::new(alloc),
        late: Vec::new(alloc),
        state: 2_017,
    };
    draft.put_for_each(OPEN, 0)?;
    draft.turns()?;
    draft.put_for_each(SHOW, 0)?;
    Ok(draft.script)
}

/// The output of the script, if it runs to its end.
fn printed(alloc: Global) -> Option<Vec<u8>> {
    let script = script(alloc).ok()?;
    let mut reader = script.as_slice();
    let mut printed = Vec::new(alloc);
    let end = replay(alloc, &mut reader, &mut printed);
    if end == ReplayEnd::Done {
        Some(printed)
    } else {
        None
    }
}

/// Whether operations arrived early and repeatedly, and none was refused.
fn has_late_deliveries(results: &str) -> bool {
    results.contains(": Held\n")
        && results.contains(": Repeat\n")
        && !results.contains("Conflict")
        && !results.contains(" stalled")
        && !results.contains("Unsound")
}

/// The number of operations in a dump that has messages and subscriptions; 0 for one that lacks
/// either.
fn ops_of(dump: &str) -> usize {
    if !dump.contains("\nmessage ") || !dump.contains("\nsubscribed ") {
        return 0;
    }
    dump.lines().filter(|line| line.starts_with("op ")).count()
}

/// The number of dumps in `others` that equal the first but for their first lines.
fn same_dumps(first: &str, others: &str) -> usize {
    others
        .split("\ndump ")
        .filter(|dump| dump.get(1..).map(str::trim_end) == first.get(1..).map(str::trim_end))
        .count()
}

/// Whether the five dumps are the same, with all operations.
fn replicas_agree(alloc: Global) -> bool {
    let Some(printed) = printed(alloc) else {
        return false;
    };
    let Ok(text) = str::from_utf8(&printed) else {
        return false;
    };
    let Some((results, dumps)) = text.split_once("\ndump ") else {
        return false;
    };
    let first = dumps.split("\ndump ").next().unwrap_or("");
    has_late_deliveries(results) && ops_of(first) == 2_400 && same_dumps(first, dumps) == 5
}

#[test]
fn replicas_agree_after_late_and_repeated_deliveries(rt: HostRuntime) {
    assert!(rt; replicas_agree(rt.alloc()));
}
