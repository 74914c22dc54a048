//! The words of the command line, read by clap: which of the program's words they ask for. clap
//! would take more than the program does, so `liq_word_line` judges them first; memory is asked for
//! only where they are understood.
#![tactic(auto)]

mod line;
mod reading;

pub use reading::{WordsFault, read_words};
