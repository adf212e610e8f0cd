//! When a link's writer writes what nothing else asks for. Times are milliseconds of this process.

ghost use Rattle.std.specs.Prelude.{◌≡◌, ◌≤◌, ◌↔◌, ◌+◌, IsTrue, if◌then◌else◌, min};
ghost use Rattle.link_runtime.specs.Times.{doubled, later};

/// The time between two clocks that say what this end has.
const HAVE_TIME: u64 = 60_000;

/// How long a writer is silent before it says that its end is alive.
const PING_TIME: u64 = 10_000;

/// The shortest time between two clocks that say what this end lacks.
const FIRST_WANT_TIME: u64 = 1_000;

/// The longest time between two, while it lacks something.
const LAST_WANT_TIME: u64 = 60_000;

/// When a link's writer says next what its end has or lacks, or that it is alive.
#[derive(Clone, Copy, Debug, PartialEq, Eq)]
pub struct LinkTimes {
    have: u64,
    ping: u64,
    want: u64,
    /// The time between the next two clocks that say what it lacks.
    want_time: u64,
}

impl LinkTimes {
    /// Those of a link that begins now: it says at once what its end has.
    pub fn new(now: u64) -> LinkTimes
        ensures { result
            ≡ record { have = now; ping = later now 10000; want = now; want_time = 1000 } }
    {
        LinkTimes {
            have: now,
            ping: now.saturating_add(PING_TIME),
            want: now,
            want_time: FIRST_WANT_TIME,
        }
    }

    /// Whether it is time to say what this end has.
    pub fn is_have_due(&self, now: u64) -> bool
        ensures { IsTrue result ↔ (self.now.have ≤ now) }
    {
        self.have <= now
    }

    /// Whether it is time to say what it lacks, if it lacks something.
    pub fn is_want_due(&self, now: u64) -> bool
        ensures { IsTrue result ↔ (self.now.want ≤ now) }
    {
        self.want <= now
    }

    /// Whether it is time to say that it is alive.
    pub fn is_ping_due(&self, now: u64) -> bool
        ensures { IsTrue result ↔ (self.now.ping ≤ now) }
    {
        self.ping <= now
    }

    /// Something was written: it is silent from now on.
    pub fn note_write(&mut self, now: u64)
        ensures { self.new ≡ record self.old { ping = later now 10000 } }
    {
        self.ping = now.saturating_add(PING_TIME);
    }

    /// It said what it has, and says so again after a minute.
    pub fn note_have(&mut self, now: u64)
        ensures { self.new ≡ record self.old { have = later now 60000 } }
    {
        self.have = now.saturating_add(HAVE_TIME);
    }

    /// It said what it lacks. The next time comes after the time between two, which doubles then, up
    /// to a minute.
    pub fn note_want(&mut self, now: u64)
        ensures { self.new ≡ record self.old {
          want = later now self.old.want_time;
          want_time = min 60000 (later self.old.want_time self.old.want_time);
        } }
    {
        self.want = now.saturating_add(self.want_time);
        self.want_time = LAST_WANT_TIME.min(self.want_time.saturating_add(self.want_time));
    }

    /// It lacks nothing: the time between two is a second again, and the next one comes within a
    /// second, if it lacks something then.
    pub fn note_complete(&mut self, now: u64)
        ensures { self.new ≡ record self.old {
          want = min self.old.want (later now 1000);
          want_time = 1000;
        } }
    {
        self.want = self.want.min(now.saturating_add(FIRST_WANT_TIME));
        self.want_time = FIRST_WANT_TIME;
    }

    /// When something is due next.
    pub fn next(&self, lacks: bool) -> u64
        ensures { result ≡ (if lacks then min (min self.now.have self.now.ping) self.now.want
            else min self.now.have self.now.ping) }
    {
        let next = self.have.min(self.ping);
        if lacks { next.min(self.want) } else { next }
    }
}
