//! A runtime with words of a test's choice, that stores what is printed and logged.

use log::kv::Source;
use log::span::Spans;
use log::{Log, Record};
use std::alloc::{Allocator, Global};
use std::env::FillError;
use std::fmt::Display;
use std::fs::{Metadata, OpenOptions};
use std::io;
use std::io::ErrorKind;
use std::net::{Net, SocketAddr};
use std::random::RandomSource;
use std::rt::{Clock, Env, Files};
use std::sync::{Mutex, Wait};
use std::thread::Threads;
use std::time::Duration;

/// A runtime that gives a program these words, and stores what it prints and logs. All else is the
/// inner runtime's.
#[derive(Drop)]
pub struct Terminal<'a, R: Wait> {
    rt: R,
    alloc: Global,
    words: &'a [&'a [u8]],
    /// Whether it prints; otherwise each print fails.
    prints: bool,
    printed: Mutex<Vec<u8>>,
    logged: Mutex<Vec<u8>>,
}

impl<'a, R: Wait> Terminal<'a, R> {
    /// A terminal with these words, of which the first is the program's name, and nothing printed;
    /// `prints` says whether it prints.
    pub fn new(rt: R, alloc: Global, words: &'a [&'a [u8]], prints: bool) -> Terminal<'a, R> {
        Terminal {
            rt,
            alloc,
            words,
            prints,
            printed: Mutex::new(Vec::new(alloc)),
            logged: Mutex::new(Vec::new(alloc)),
        }
    }

    /// Whether just this text was printed.
    pub fn has_printed(&self, text: &str) -> bool {
        self.printed.lock(&self.rt).as_slice() == text.as_bytes()
    }

    /// How often a text is part of what was logged.
    pub fn times_logged(&self, text: &str) -> u32 {
        times_of(self.logged.lock(&self.rt).as_slice(), text.as_bytes())
    }
}

/// How often a text is part of another.
fn times_of(output: &[u8], text: &[u8]) -> u32 {
    let mut times = 0u32;
    for part in output.windows(text.len().max(1)) {
        if part == text {
            times = times.saturating_add(1);
        }
    }
    times
}

impl<'a, R: Wait> Wait for Terminal<'a, R> {}

impl<'a, R: Wait + Threads> Threads for Terminal<'a, R> {}

impl<'a, R: Wait> Alloc for Terminal<'a, R> {
    type A = Global;

    fn alloc(&self) -> Global {
        self.alloc
    }
}

impl<'a, R: Wait + Clock> Clock for Terminal<'a, R> {
    fn monotonic(&self) -> io::Result<Duration> {
        self.rt.monotonic()
    }

    fn since_1970(&self) -> io::Result<Duration> {
        self.rt.since_1970()
    }

    fn sleep(&self, duration: Duration) {
        self.rt.sleep(duration)
    }
}

impl<'a, R: Wait + Net> Net for Terminal<'a, R> {
    type Stream = R::Stream;

    type Listener = R::Listener;

    fn bind(&self, addr: SocketAddr) -> io::Result<R::Listener> {
        self.rt.bind(addr)
    }

    fn connect(&self, addr: SocketAddr) -> io::Result<R::Stream> {
        self.rt.connect(addr)
    }
}

impl<'a, R: Wait + RandomSource> RandomSource for Terminal<'a, R> {
    fn fill_bytes(&self, buf: &mut [u8]) -> io::Result<()> {
        self.rt.fill_bytes(buf)
    }
}

impl<'a, R: Wait + Files> Files for Terminal<'a, R> {
    type File = R::File;

    type Dir = R::Dir;

    fn open_file(&self, how: &OpenOptions, path: &str) -> io::Result<R::File> {
        self.rt.open_file(how, path)
    }

    fn open_dir(&self, path: &str) -> io::Result<R::Dir> {
        self.rt.open_dir(path)
    }

    fn metadata(&self, path: &str) -> io::Result<Metadata> {
        self.rt.metadata(path)
    }

    fn symlink_metadata(&self, path: &str) -> io::Result<Metadata> {
        self.rt.symlink_metadata(path)
    }

    fn copy(&self, from: &str, to: &str) -> io::Result<u64> {
        self.rt.copy(from, to)
    }

    fn rename(&self, from: &str, to: &str) -> io::Result<()> {
        self.rt.rename(from, to)
    }

    fn remove_file(&self, path: &str) -> io::Result<()> {
        self.rt.remove_file(path)
    }

    fn create_dir(&self, path: &str) -> io::Result<()> {
        self.rt.create_dir(path)
    }

    fn remove_dir(&self, path: &str) -> io::Result<()> {
        self.rt.remove_dir(path)
    }

    fn remove_dir_all<B: Allocator>(&self, alloc: B, path: &str) -> io::Result<()> {
        self.rt.remove_dir_all(alloc, path)
    }

    fn create_dir_with_mode(&self, path: &str, mode: u32) -> io::Result<()> {
        self.rt.create_dir_with_mode(path, mode)
    }
}

impl<'a, R: Wait> Env for Terminal<'a, R> {
    fn arg(&self, i: usize, buf: &mut [u8]) -> Result<usize, FillError> {
        let Some(word) = self.words.get(i) else {
            return Err(FillError::NotPresent);
        };
        if word.len() > buf.len() {
            return Err(FillError::TooLong);
        }
        buf[..word.len()].copy_from_slice(word);
        Ok(word.len())
    }

    fn var(&self, _name: &str, _buf: &mut [u8]) -> Result<usize, FillError> {
        Err(FillError::NotPresent)
    }

    fn var_at(&self, _i: usize, _buf: &mut [u8]) -> Result<usize, FillError> {
        Err(FillError::NotPresent)
    }
}

impl<'a, R: Wait> Print for Terminal<'a, R> {
    fn print<D: Display + Drop>(&self, value: D) -> io::Result<()> {
        let text = format!(in self.alloc; "{value}")?;
        self.write_all(text.as_bytes())
    }

    fn println<D: Display + Drop>(&self, value: D) -> io::Result<()> {
        let text = format!(in self.alloc; "{value}\n")?;
        self.write_all(text.as_bytes())
    }

    fn write_all(&self, bytes: &[u8]) -> io::Result<()> {
        if !self.prints {
            return Err(ErrorKind::Other.into());
        }
        self.printed.lock(&self.rt).extend_from_slice(bytes)?;
        Ok(())
    }
}

impl<'a, R: Wait> Log for Terminal<'a, R> {
    fn enabled(&self, _metadata: &log::Metadata<'_>) -> bool {
        true
    }

    fn log<D: Display, K: Source, S: Spans>(&self, record: &Record<'_, D, K, S>) {
        if let Ok(line) = format!(in self.alloc; "{}\n", record.args()) {
            let _ = self
                .logged
                .lock(&self.rt)
                .extend_from_slice(line.as_bytes());
        }
    }

    fn flush(&self) {}

    fn target(&self) -> &str {
        ""
    }
}
