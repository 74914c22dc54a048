//! The words of the command line: what they ask the program to do, and whether that uses the disks.
//! They are judged as they are, without memory; `liq_word_arguments` reads them once they are
//! understood.
#![tactic(auto)]

mod words;

pub use words::{COUNT_MOST, Word, alone, are_understood, gen_of, takes_disks};
