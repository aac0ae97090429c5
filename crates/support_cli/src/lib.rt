//! The parts of every program: its input and its two outputs, the words of its command line, the
//! files that it reads, its exit status, and how it gives its answer and ends.
//!
//! A program is a function over these. Its contract says what it answers (`Answer` in
//! specs/Answers.antt), for every command line and every input; its `main` hands the system's parts
//! to it by [`launch`]. Start at finish.rt and specs/Answers.antt.
//! docs/PROGRAMS.md, 'Exit statuses'.
#![tactic(auto)]

mod finish;
mod input;
mod launching;
mod output;
mod status;
mod store;
mod words;

pub use finish::{complain, end, hand_over, print, refuse, say, tell};
pub use input::Input;
pub use launching::launch;
pub use output::Output;
pub use status::Status;
pub use store::{Store, SystemFiles};
pub use words::{first_word, words_of};
