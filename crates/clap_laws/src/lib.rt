//! Clap's matches of the words of a command line, stated as rows of its table, and the words that
//! an argument adds to those that a program knows.
//!
//! The crate has no code, only definitions and lemmas, for the proofs of programs that read a
//! command line with `clap`. `specs/Words` says which word an argument adds (`IsWord`), and what a
//! list of arguments adds together (`AddWords`). The lemmas follow these through `Command::arg` and
//! `Command::args`, and turn clap's own definition of its matches into the presence and the values
//! of each word, if the known words are such that clap's matches are known.
#![tactic(auto)]
