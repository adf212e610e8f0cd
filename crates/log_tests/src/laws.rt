//! Each law, called once.

use crate::fixtures::{LINES, Trouble, operations};
use durable_log::{
    MemoryDevice, crashes_leave_what_was_synced, crashes_of_writes_leave_what_was_synced,
    last_commits_after_crashes_are_certain,
};
use op_log::{
    crash_states_are_undamaged, cuts_leave_written_lines, damage_before_commit_is_found,
    lines_before_are_recovered, op_has_text,
};
use std::alloc::Global;
use std::test::Fail;

#[test]
fn laws_are_called() {
    crashes_leave_what_was_synced::<MemoryDevice>();
    crashes_of_writes_leave_what_was_synced::<MemoryDevice>();
    last_commits_after_crashes_are_certain();
    crash_states_are_undamaged();
    cuts_leave_written_lines();
    damage_before_commit_is_found();
    lines_before_are_recovered();
}

fn have_texts(alloc: Global) -> Result<usize, Trouble> {
    let ops = operations(alloc, LINES)?;
    for op in &ops {
        op_has_text(op);
    }
    Ok(ops.len())
}

#[test]
fn operations_have_texts(rt: HostRuntime) -> Result<(), Fail> {
    assert_eq!(rt; have_texts(rt.alloc())?, 3);
    Ok(())
}
