//! A screen for programs: it stores what they print, or fails.

use std::alloc::Global;
use std::cell::RefCell;
use std::fmt::Display;
use std::io;
use std::io::ErrorKind;

/// A screen that stores what is printed, or fails to print.
#[derive(Drop)]
pub struct Screen {
    alloc: Global,
    shown: RefCell<Vec<u8>>,
    works: bool,
}

impl Screen {
    /// An empty screen; `works` says whether it prints.
    pub fn new(alloc: Global, works: bool) -> Screen {
        Screen {
            alloc,
            shown: RefCell::new(Vec::new(alloc)),
            works,
        }
    }

    /// Whether just this text was printed.
    pub fn has_shown(&self, text: &str) -> bool {
        self.shown
            .try_borrow()
            .is_ok_and(|shown| shown.as_slice() == text.as_bytes())
    }

    /// Whether this text is part of what was printed.
    pub fn has_shown_part(&self, text: &str) -> bool {
        match self.shown.try_borrow() {
            Ok(shown) => shown
                .windows(text.len().max(1))
                .any(|part| part == text.as_bytes()),
            Err(_) => false,
        }
    }
}

impl Print for Screen {
    fn print<D: Display + Drop>(&self, value: D) -> io::Result<()> {
        let text = format!(in self.alloc; "{value}")?;
        self.write_all(text.as_bytes())
    }

    fn println<D: Display + Drop>(&self, value: D) -> io::Result<()> {
        let text = format!(in self.alloc; "{value}\n")?;
        self.write_all(text.as_bytes())
    }

    fn write_all(&self, bytes: &[u8]) -> io::Result<()> {
        if self.works {
            if let Ok(mut shown) = self.shown.try_borrow_mut() {
                shown.extend_from_slice(bytes)?;
                return Ok(());
            }
        }
        Err(ErrorKind::Other.into())
    }
}
