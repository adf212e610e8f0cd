//! Plays rows, which are scripts with a title each, and compares what the replay of each prints and
//! how it ends with what is expected. Also plays inputs of the audit, each with a title, and
//! compares the audit's answer; and logs, and compares what is printed of each. docs/cases.md says
//! what a row and a case are.

mod audits;
mod block;
mod cases;
mod cuts;
mod damage;
mod directives;
mod logs;
mod replays;
mod rows;

pub use audits::check_audits;
pub use damage::DamageCount;
pub use logs::check_logs;
pub use rows::check_rows;
