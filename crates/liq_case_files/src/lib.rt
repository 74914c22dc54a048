//! Case files: what their lines say of runs, and what is told of a file. The form of a case is told
//! in docs/CASES.md. Nothing is proved here: the program is run.
#![tactic(auto)]

mod changes;
mod counting;
mod facts;
mod forged;
mod lines;
mod misread;
mod run;
mod settings;
mod signing;
mod told;
mod written;

pub use changes::{changed, is_change};
pub use counting::{Block, count_up};
pub use facts::{Fact, Held, Says};
pub use forged::{Forged, forge};
pub use lines::{Difference, Lines, ends_line};
pub use misread::{Misread, number};
pub use run::{ALL, Asked, Failing, READ, Run, Side, Start, Stop, put_words, side_of};
pub use settings::set;
pub use told::{At, Report};
