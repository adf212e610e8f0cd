//! The manners in which the answers to a command are shown.

use rev1_fetch::FetchPlan;
use rev1_front::Form;

/// How the answers to a command of the profile are shown.
#[derive(Drop)]
pub enum Manner {
    /// In a form of the front.
    Form(Form),
    /// FETCH: as a plan says.
    Plan(FetchPlan),
    /// NOOP after RENAME: its tagged line is that of RENAME.
    Renamed,
}
