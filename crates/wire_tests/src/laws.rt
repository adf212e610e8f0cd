//! Each law is called.

use link_wire::{
    cuts_change_nothing, cuts_change_nothing_after_lines, digests_are_tags, faults_come_first,
    frames_are_read, lines_are_read, lines_are_the_stream, one_hello, one_message, one_payload,
    one_proof, read_payloads_are_authentic, read_payloads_are_frames,
};

#[test]
fn laws_are_called(_rt: HostRuntime) {
    cuts_change_nothing();
    cuts_change_nothing_after_lines();
    digests_are_tags();
    faults_come_first();
    frames_are_read();
    lines_are_read();
    lines_are_the_stream();
    one_hello();
    one_message();
    one_payload();
    one_proof();
    read_payloads_are_authentic();
    read_payloads_are_frames();
}
