//! Scenes at two replicas, as data.

/// An hour, in milliseconds.
pub const HOUR: u64 = 3_600_000;

/// What happens to a message, given by its place among those on the link; the first place is 0.
#[derive(Clone, Copy)]
pub enum Step {
    /// It is delivered.
    Pass(usize),
    /// It is lost.
    Lose(usize),
    /// It is delivered twice.
    Twice(usize),
}

impl Step {
    /// The place of the message.
    pub fn place(self) -> usize {
        match self {
            Step::Pass(place) => place,
            Step::Lose(place) => place,
            Step::Twice(place) => place,
        }
    }
}

/// A counter by which threads show one another their progress; 0 at first.
#[derive(Clone, Copy)]
pub enum Sign {
    /// The number of threads that have begun, or that have finished their commands.
    Started,
    /// Not 0 once the scene is over, or a call was answered.
    Over,
}

/// An action of a caller of one of two replicas.
#[derive(Clone, Copy)]
pub enum Action {
    /// It opens a session.
    Opens,
    /// It closes its session.
    Closes,
    /// It gives a command, whose operations aren't sent. If it has no session it first opens one.
    Gives(&'static str),
    /// It gives a command, whose operations are sent to the other replica in one message. If it has
    /// no session it first opens one.
    GivesAndSends(&'static str),
    /// It gives a hundred NOOPs with tags of its own.
    Noops,
    /// It gives a thousand commands, sends their operations, and reports how many these are.
    Makes,
    /// It has the replica drain its held operations.
    Drains,
    /// It idles: it polls its session after each change that may have to be sent, until the scene
    /// is over.
    Feeds,
    /// It holds the replica's lock for this number of turns, or until the scene is over, and
    /// reports whether it was.
    Holds(u64),
    /// It waits until the journal's length differs from this number, and reports the new length.
    AwaitsChange(u64),
    /// It checks many times whether the clock of the replica is this one.
    AwaitsClock(&'static str),
    /// It cuts off a pass and drops it. If the value is true, it first opens a session with the
    /// pass.
    LosesPass(bool),
    /// It asks the other replica for all operations that this one lacks.
    Asks,
    /// It takes steps of the link to its replica, and then receives the delivered messages, one
    /// after another.
    Takes(&'static [Step]),
    /// It receives messages until it is stopped, and asks the other replica each time that this
    /// number of milliseconds has passed.
    Serves(u64),
    /// It sends an operation that no replica need have issued.
    Forges(&'static str),
    /// It stops the link to the replica at this place.
    Stops(usize),
    /// It adds 1 to a counter.
    Raises(Sign),
    /// It waits until a counter has this value.
    Awaits(Sign, u64),
    /// It reports the value of a counter.
    Looks(Sign),
    /// It lets other threads run for a while.
    Yields,
}

/// The final report on both replicas.
#[derive(Clone, Copy)]
pub enum FinalReport {
    /// The outcomes of all deliveries at each replica, and whether their clocks agree.
    Answers,
    /// Whether their clocks agree, and the outcomes of deliveries at the second replica;
    /// only the first ones are compared.
    FirstAnswers,
    /// The number of operations that the first replica applied, and how many of these the second
    /// applied.
    Common,
    /// The number of entries of the first replica's journal, how many of the outcomes that callers
    /// noted are at their places, and how many entries are commands of the callers that noted them
    /// there.
    History,
    /// The number of entries of each replica's journal, or why it isn't returned.
    Entries,
}

/// A scene at two replicas, and its expected text.
pub struct Scene {
    /// What the scene shows.
    pub name: &'static str,
    /// The first UID of INBOX at the second replica; 0 if it joins with two operations of the
    /// first.
    pub uid: u32,
    /// The first actions, one after another, each at the replica at a place.
    pub actions: &'static [(usize, Action)],
    /// The actions of the first replica's callers after that, each caller in a thread.
    pub first: &'static [&'static [Action]],
    /// The actions of the second replica's callers at the same time.
    pub second: &'static [&'static [Action]],
    /// The final report.
    pub final_report: FinalReport,
    /// The expected text.
    pub expected: &'static str,
}

impl Scene {
    /// Whether this is the expected text.
    pub fn is_expected(&self, output: &str) -> bool {
        match self.final_report {
            FinalReport::FirstAnswers => output.starts_with(self.expected),
            _ => output == self.expected,
        }
    }
}
