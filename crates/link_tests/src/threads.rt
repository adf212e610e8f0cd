//! Threads at a replica, and over a link.

use crate::actions::{Action, FinalReport, HOUR, Scene, Sign};
use crate::scene::wrong_scene;
use std::test::*;

/// A caller that opens a session once another has begun, and adds 1 to `Over` when it is answered.
const OPENS: &[Action] = &[
    Action::Awaits(Sign::Started, 1),
    Action::Opens,
    Action::Raises(Sign::Over),
];

/// A caller that gives a hundred NOOPs in one session.
const NOOPS: &[Action] = &[Action::Opens, Action::Noops, Action::Closes];

const SCENES: &[Scene] = &[
    // A call at the other replica is answered while a lock is held, and one at the same replica
    // isn't; both are answered in the end.
    Scene {
        name: "locks are apart: the other replica",
        uid: 1,
        actions: &[],
        first: &[&[Action::Holds(1_000_000)]],
        second: &[OPENS],
        final_report: FinalReport::Entries,
        expected: "over meanwhile 1\n0 entries\n1 entries\n",
    },
    Scene {
        name: "locks are apart: the same replica",
        uid: 1,
        actions: &[],
        first: &[&[Action::Holds(1_000_000)], OPENS],
        second: &[],
        final_report: FinalReport::Entries,
        expected: "over meanwhile 0\n1 entries\n0 entries\n",
    },
    // One caller waits for the first entry, which another makes after many turns.
    Scene {
        name: "a change ends the wait",
        uid: 1,
        actions: &[],
        first: &[
            &[Action::AwaitsChange(0), Action::Looks(Sign::Started)],
            &[Action::Yields, Action::Raises(Sign::Started), Action::Opens],
        ],
        second: &[],
        final_report: FinalReport::Entries,
        expected: "length 1\nsign 1\n1 entries\n0 entries\n",
    },
    // Four sessions make one history.
    Scene {
        name: "four threads make one history",
        uid: 1,
        actions: &[],
        first: &[NOOPS, NOOPS, NOOPS, NOOPS],
        second: &[],
        final_report: FinalReport::History,
        expected: "408 entries, 408 as seen, 400 own commands\n",
    },
    // Two sessions idle in different mailboxes, in which nothing has changed since they selected
    // them. A third does what changes neither mailbox, then what changes one of them, and reports
    // the journal's length many turns after each; it ends the scene by changing both.
    Scene {
        name: "only an idling session with unsent changes wakes",
        uid: 1,
        actions: &[],
        first: &[
            &[
                Action::Gives("SELECT INBOX"),
                Action::Gives("NOOP"),
                Action::Gives("IDLE"),
                Action::Raises(Sign::Started),
                Action::Awaits(Sign::Started, 2),
                Action::Feeds,
            ],
            &[
                Action::Awaits(Sign::Started, 1),
                Action::Gives("CREATE other"),
                Action::Gives("SELECT other"),
                Action::Gives("NOOP"),
                Action::Gives("IDLE"),
                Action::Raises(Sign::Started),
                Action::Feeds,
            ],
            &[
                Action::Awaits(Sign::Started, 2),
                Action::Opens,
                Action::Gives("NOOP"),
                Action::Gives("CREATE another"),
                Action::Drains,
                Action::Yields,
                Action::AwaitsChange(u64::MAX),
                Action::Gives("APPEND INBOX {1+}\r\nx"),
                Action::AwaitsChange(14),
                Action::Yields,
                Action::AwaitsChange(u64::MAX),
                Action::Raises(Sign::Over),
                Action::Gives("APPEND INBOX {1+}\r\nx"),
                Action::Gives("APPEND other {1+}\r\nx"),
            ],
        ],
        second: &[],
        final_report: FinalReport::Entries,
        expected: "length 13\nlength 15\nlength 15\n17 entries\n0 entries\n",
    },
    // Each client gives a thousand commands. Once both have, it checks whether its replica has
    // applied what both issued, and then stops its own link.
    Scene {
        name: "linked replicas end agreeing",
        uid: 1,
        actions: &[],
        first: &[
            &[
                Action::Makes,
                Action::Raises(Sign::Started),
                Action::Awaits(Sign::Started, 2),
                Action::AwaitsClock("1=1000,2=1000"),
                Action::Stops(0),
            ],
            &[Action::Serves(HOUR)],
        ],
        second: &[
            &[
                Action::Makes,
                Action::Raises(Sign::Started),
                Action::Awaits(Sign::Started, 2),
                Action::AwaitsClock("1=1000,2=1000"),
                Action::Stops(1),
            ],
            &[Action::Serves(HOUR)],
        ],
        final_report: FinalReport::Common,
        expected: "sent 1000\nsent 1000\n2000 applied, 2000 by both\n",
    },
    // The first replica creates three folders, and the third isn't sent, as if the message were
    // lost. The link of the second asks every five milliseconds.
    Scene {
        name: "a last message that is lost is asked for",
        uid: 1,
        actions: &[
            (0, Action::GivesAndSends("CREATE a")),
            (0, Action::AwaitsClock("1=1")),
            (0, Action::GivesAndSends("CREATE b")),
            (0, Action::AwaitsClock("1=2")),
            (0, Action::Gives("CREATE c")),
            (0, Action::AwaitsClock("1=3")),
        ],
        first: &[&[Action::Serves(HOUR)]],
        second: &[
            &[Action::Serves(5)],
            &[
                Action::AwaitsClock("1=3"),
                Action::Stops(0),
                Action::Stops(1),
            ],
        ],
        final_report: FinalReport::FirstAnswers,
        expected: "agreed\n1:1 Applied 1\n1:2 Applied 1\n1:3 Applied 1\n",
    },
];

#[test]
fn threads_play_as_expected(rt: HostRuntime) -> Result<(), Fail> {
    let wrong = wrong_scene(&rt, rt.alloc(), SCENES)?;
    assert_eq!(rt; wrong.as_str(), "");
    Ok(())
}
