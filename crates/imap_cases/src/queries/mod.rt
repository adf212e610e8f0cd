//! Cases of queries: texts of messages, commands that read a mailbox, and views.

mod cases;
mod commands;
mod fields;
mod mailbox;
mod messages;
mod question;
mod searches;
mod setup;
mod texts;
mod views;

pub use cases::put_query;
pub use setup::{Setup, is_setting};
pub use views::put_view;
