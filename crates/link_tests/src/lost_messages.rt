//! Messages that are lost, repeated or reordered.

use crate::actions::{Action, FinalReport, Scene, Step};
use crate::scene::wrong_scene;
use std::test::*;

/// Two messages, the last first, each of them twice. The next constants do it with three, four and
/// five.
const TWO: &[Step] = &[Step::Twice(1), Step::Twice(0)];

const THREE: &[Step] = &[Step::Twice(2), Step::Twice(1), Step::Twice(0)];

const FOUR: &[Step] = &[
    Step::Twice(3),
    Step::Twice(2),
    Step::Twice(1),
    Step::Twice(0),
];

const FIVE: &[Step] = &[
    Step::Twice(4),
    Step::Twice(3),
    Step::Twice(2),
    Step::Twice(1),
    Step::Twice(0),
];

const SCENES: &[Scene] = &[
    Scene {
        name: "what is lost is asked for",
        uid: 1,
        actions: &[
            (0, Action::GivesAndSends("CREATE a")),
            (0, Action::GivesAndSends("CREATE b")),
            (0, Action::GivesAndSends("CREATE c")),
            (
                1,
                Action::Takes(&[Step::Pass(0), Step::Lose(0), Step::Pass(0)]),
            ),
            (0, Action::Takes(&[Step::Pass(0)])),
            (1, Action::Takes(&[Step::Pass(0)])),
        ],
        first: &[],
        second: &[],
        final_report: FinalReport::Answers,
        expected: "1 to 2: 1:1\n1 to 2: 1:2\n1 to 2: 1:3\n2 to 1: have 1=1\n1 to 2: 1:2 1:3\nat 1\nat 2\n1:1 Applied 1\n1:3 Held\n1:2 Applied 2\n1:3 Repeat\nagreed\n",
    },
    Scene {
        name: "each message twice and in reverse order",
        uid: 1,
        actions: &[
            (0, Action::GivesAndSends("CREATE a")),
            (0, Action::GivesAndSends("CREATE b")),
            (0, Action::GivesAndSends("CREATE c")),
            (1, Action::GivesAndSends("CREATE d")),
            (1, Action::GivesAndSends("CREATE e")),
            (1, Action::Takes(THREE)),
            (0, Action::Takes(FOUR)),
            (1, Action::Takes(FIVE)),
            (0, Action::Takes(TWO)),
        ],
        first: &[],
        second: &[],
        final_report: FinalReport::Answers,
        expected: "1 to 2: 1:1\n1 to 2: 1:2\n1 to 2: 1:3\n2 to 1: 2:1\n2 to 1: 2:2\n2 to 1: have 2=2\n2 to 1: have 2=2\n1 to 2: 1:1 1:2 1:3\n1 to 2: 1:1 1:2 1:3\n1 to 2: 1:1 1:2 1:3\n1 to 2: 1:1 1:2 1:3\n1 to 2: have 1=3\n2 to 1: 2:1 2:2\n2 to 1: 2:1 2:2\nat 1\n2:2 Held\n2:2 Repeat\n2:1 Applied 2\n2:1 Repeat\n2:1 Repeat\n2:2 Repeat\n2:1 Repeat\n2:2 Repeat\n2:1 Repeat\n2:2 Repeat\n2:1 Repeat\n2:2 Repeat\nat 2\n1:3 Held\n1:3 Repeat\n1:2 Held\n1:2 Repeat\n1:1 Applied 3\n1:1 Repeat\n1:1 Repeat\n1:2 Repeat\n1:3 Repeat\n1:1 Repeat\n1:2 Repeat\n1:3 Repeat\n1:1 Repeat\n1:2 Repeat\n1:3 Repeat\n1:1 Repeat\n1:2 Repeat\n1:3 Repeat\n1:1 Repeat\n1:2 Repeat\n1:3 Repeat\n1:1 Repeat\n1:2 Repeat\n1:3 Repeat\n1:1 Repeat\n1:2 Repeat\n1:3 Repeat\n1:1 Repeat\n1:2 Repeat\n1:3 Repeat\nagreed\n",
    },
    Scene {
        name: "who lacks nothing is sent nothing",
        uid: 1,
        actions: &[
            (0, Action::GivesAndSends("CREATE a")),
            (1, Action::Takes(&[Step::Pass(0)])),
            (1, Action::Asks),
            (0, Action::Takes(&[Step::Pass(0)])),
            (1, Action::GivesAndSends("CREATE b")),
            (1, Action::Asks),
            (0, Action::Takes(&[Step::Lose(0), Step::Pass(0)])),
        ],
        first: &[],
        second: &[],
        final_report: FinalReport::Answers,
        expected: "1 to 2: 1:1\n2 to 1: have 1=1\n2 to 1: 2:1\n2 to 1: have 1=1,2=1\nat 1\nat 2\n1:1 Applied 1\napart\n",
    },
    Scene {
        name: "a stalled delivery is drained before the next message",
        uid: 4_294_967_294,
        actions: &[
            (0, Action::GivesAndSends("APPEND INBOX {1}\r\nx")),
            (0, Action::GivesAndSends("APPEND INBOX {1}\r\nx")),
            (0, Action::GivesAndSends("CREATE a")),
            (
                1,
                Action::Takes(&[Step::Pass(1), Step::Pass(0), Step::Pass(0)]),
            ),
        ],
        first: &[],
        second: &[],
        final_report: FinalReport::Answers,
        expected: "1 to 2: 1:1\n1 to 2: 1:2\n1 to 2: 1:3\n2 to 1: have -\n2 to 1: have 1=1\nat 1\nat 2\n1:2 Held\n1:1 Applied 1 stalled\ndrain Applied 0 stalled\n1:3 Held stalled\ndrain Applied 0 stalled\napart\n",
    },
    Scene {
        name: "what is refused is asked for",
        uid: 4_294_967_294,
        actions: &[
            (0, Action::GivesAndSends("APPEND INBOX {1}\r\nx")),
            (0, Action::GivesAndSends("APPEND INBOX {1}\r\nx")),
            (1, Action::Takes(&[Step::Pass(0), Step::Pass(0)])),
        ],
        first: &[],
        second: &[],
        final_report: FinalReport::Answers,
        expected: "1 to 2: 1:1\n1 to 2: 1:2\n2 to 1: have 1=1\nat 1\nat 2\n1:1 Applied 1\n1:2 Exhausted\napart\n",
    },
    Scene {
        name: "what stays refused is asked for after each answer",
        uid: 4_294_967_294,
        actions: &[
            (0, Action::GivesAndSends("APPEND INBOX {1}\r\nx")),
            (0, Action::GivesAndSends("APPEND INBOX {1}\r\nx")),
            (1, Action::Takes(&[Step::Pass(0), Step::Pass(0)])),
            (0, Action::Takes(&[Step::Pass(0)])),
            (1, Action::Takes(&[Step::Pass(0)])),
        ],
        first: &[],
        second: &[],
        final_report: FinalReport::Answers,
        expected: "1 to 2: 1:1\n1 to 2: 1:2\n2 to 1: have 1=1\n1 to 2: 1:2\n2 to 1: have 1=1\nat 1\nat 2\n1:1 Applied 1\n1:2 Exhausted\n1:2 Exhausted\napart\n",
    },
    Scene {
        name: "nothing is asked for at a conflict",
        uid: 1,
        actions: &[
            (0, Action::GivesAndSends("CREATE a")),
            (0, Action::Forges("1:1 - create z")),
            (1, Action::Takes(&[Step::Pass(0), Step::Pass(0)])),
        ],
        first: &[],
        second: &[],
        final_report: FinalReport::Answers,
        expected: "1 to 2: 1:1\n1 to 2: 1:1\nat 1\nat 2\n1:1 Applied 1\n1:1 Conflict 1:1\nagreed\n",
    },
];

#[test]
fn lost_and_doubled_messages_play_as_expected(rt: HostRuntime) -> Result<(), Fail> {
    let wrong = wrong_scene(&rt, rt.alloc(), SCENES)?;
    assert_eq!(rt; wrong.as_str(), "");
    Ok(())
}
