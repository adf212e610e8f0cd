//! The command line of the mail server: who may use the server, its replicas, those that are to
//! join, and the addresses at which they listen.
//!
//! [`read_settings`] reads the words. Its contract says that the access and the limits are those
//! that clap's matches name, that the names of the replicas are distinct numbers from 1 to 65,535,
//! and that each replica that joins takes the operations of one that exists before it. [`place_of`]
//! and [`join_of`] read a replica's word, and return a value exactly when the text has the
//! documented form. [`settings_or_status`] also prints what is wrong, the help or the version, and
//! returns the program's status; [`listen_at`] listens at a replica's address.
//!
//! # Decided
//!
//! - The reader of the command line is `read_settings`, since a function can't have the name of its
//!   module.
//! - The access of a command line is stated over clap's own definition of its matches
//!   (`matches_of`), with the program's words as data (`server_words`). `--preauth` counts as given
//!   if its value is present and isn't the default `false`.
#![tactic(auto)]

mod link_words;
mod listener;
mod settings;
mod settings_output;

pub use link_words::{LinkWords, peer_of};
pub use listener::{bind_listener, listen_at, listen_for_rev1_at};
pub use settings::{
    Access, ClientLimits, CommandLine, GivenAccess, Join, Place, SettingsFault, UsageFault,
    access_of, given_access_of, read_settings,
};
pub use settings_output::{print_fault, settings_or_status};

/// The version of the server, which `--version` prints.
pub const VERSION: &str = "1.0.0";
