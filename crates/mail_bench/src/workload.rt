//! The workloads that can be measured.

ghost use Rattle.std.specs.Prelude.{◌≡◌, IfNone, IfSome};
ghost use Rattle.mail_bench.specs.Workloads.{NamesNone, word_of};

use std::fmt;

/// The work that the connections of a run do over and over.
#[derive(Clone, Copy)]
pub enum Workload {
    /// NOOP, one in flight.
    Noop,
    /// 32 NOOPs in one write, and their 32 answers.
    NoopPipelined,
    /// APPEND of 1 KiB.
    AppendSmall,
    /// APPEND of 64 KiB.
    AppendLarge,
    /// FETCH of the flags of all messages.
    FetchFlags,
    /// FETCH of one message's body, one after another.
    FetchBody,
    /// STORE of `\Flagged` on one message, then its removal, one message after another.
    Store,
    /// SEARCH UNSEEN.
    SearchUnseen,
    /// SEARCH for a subject that no message of the program has.
    SearchSubject,
    /// At random, of 100 commands 10 NOOP, 5 FETCH of all flags, 40 of a body, 25 STORE, 5 SEARCH
    /// UNSEEN and 15 APPEND of 1 KiB.
    Mixed,
    /// A connection, its greeting, LOGIN and LOGOUT.
    Login,
    /// APPEND, timed until each of many idling connections received its EXISTS.
    IdleFanOut,
    /// NOOP by itself, then while many connections idle.
    NoopBesideIdle,
}

impl Workload {
    /// All workloads, in the order in which the help lists them.
    pub const ALL: [Workload; 13] = [
        Workload::Noop,
        Workload::NoopPipelined,
        Workload::AppendSmall,
        Workload::AppendLarge,
        Workload::FetchFlags,
        Workload::FetchBody,
        Workload::Store,
        Workload::SearchUnseen,
        Workload::SearchSubject,
        Workload::Mixed,
        Workload::Login,
        Workload::IdleFanOut,
        Workload::NoopBesideIdle,
    ];

    /// The workload's word on the command line.
    pub fn word(self) -> &'static str
        ensures { result.now ≡ word_of self }
    {
        match self {
            Workload::Noop => "noop",
            Workload::NoopPipelined => "noop-pipelined",
            Workload::AppendSmall => "append-1k",
            Workload::AppendLarge => "append-64k",
            Workload::FetchFlags => "fetch-flags",
            Workload::FetchBody => "fetch-body",
            Workload::Store => "store",
            Workload::SearchUnseen => "search-unseen",
            Workload::SearchSubject => "search-subject",
            Workload::Mixed => "mixed",
            Workload::Login => "login",
            Workload::IdleFanOut => "idle-fan-out",
            Workload::NoopBesideIdle => "noop-beside-idle",
        }
    }

    /// The workload with this word; `None` exactly when there is none.
    pub fn from_word(word: &str) -> Option<Workload>
        ensures some { IfSome result (λ workload. word_of workload ≡ word.now) }
        ensures none { IfNone result (NamesNone word.now) }
    {
        for place in 0..Workload::ALL.len() {
            let workload = Workload::ALL[place];
            if workload.word() == word {
                return Some(workload);
            }
        }
        None
    }
}

impl fmt::Display for Workload {
    fn fmt<W: fmt::Write>(&self, f: &mut fmt::Formatter<W>) -> fmt::Result {
        f.write_str(self.word())
    }
}
