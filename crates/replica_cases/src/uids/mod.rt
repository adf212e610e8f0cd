//! Cases of UIDs, UIDVALIDITY and mod-sequences; docs/cases.md says what a case is.

mod lists;
mod requests;
mod setup;
mod tables;

pub use requests::play;
