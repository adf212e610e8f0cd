//! Cases of views: the messages that a set names in a view, and the answers of a sync.

mod cases;
mod differences;
mod view_reader;
mod view_writer;

pub use cases::put_view;
