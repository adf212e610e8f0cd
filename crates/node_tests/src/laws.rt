//! The laws can be called: each is the contract of a function that does nothing.

use imap_connection::{
    commands_are_answered, faults_can_be_printed, faults_end_the_stream, one_dump,
    others_come_between, pieces_are_one_stream,
};
use imap_grammar::one_reading;
use imap_lex::{cuts_change_nothing, faults_come_first, frames_are_read, read_items_are_frames};
use imap_node::{answers_are_printable, listings_are_showable};
use uid_projection::{
    concurrent_store_and_expunge, concurrent_stores_leave_one_message, keywords_are_lawful,
    names_are_applied, numbers_are_for_good, numbers_have_bounds, rows_are_writable,
    uids_are_apart,
};

#[test]
fn laws_of_frames_can_be_called() {
    cuts_change_nothing();
    frames_are_read();
    read_items_are_frames();
    faults_come_first();
}

#[test]
fn law_of_commands_can_be_called() {
    one_reading();
}

#[test]
fn laws_of_numbers_can_be_called() {
    numbers_are_for_good();
    uids_are_apart();
    numbers_have_bounds();
}

#[test]
fn laws_of_listings_can_be_called() {
    names_are_applied();
    keywords_are_lawful();
    rows_are_writable();
    concurrent_stores_leave_one_message();
    concurrent_store_and_expunge();
}

#[test]
fn laws_of_answers_can_be_called() {
    listings_are_showable();
    answers_are_printable();
    faults_can_be_printed();
    one_dump();
}

#[test]
fn laws_of_conversations_can_be_called() {
    pieces_are_one_stream();
    commands_are_answered();
    faults_end_the_stream();
    others_come_between();
}
