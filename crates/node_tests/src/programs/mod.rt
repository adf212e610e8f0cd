//! The programs' command lines, the server's output about wrong ones, the line that ends a replay,
//! and replays, audits and dumps of logs of `mail_tool`: devices that fail, and a long script with
//! late and repeated deliveries.

mod audits;
mod devices;
mod late_deliveries;
mod logs;
mod screen;
mod settings;
mod usage;
mod words;
