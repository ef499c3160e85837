#![tactic(auto)]
//! The command line of the program, and how the program ends.
//!
//! # What is proved
//!
//! `serve` runs the script that the words choose. If they name FILE, it is opened by that name; else the script is standard input. The flag `--stop`
//! is set as the words set it. What is read and written is as `run` promises. Nothing is written if the words are refused, if FILE can't be opened,
//! or if memory is refused while the words are read, and the trouble says which it was (`Serves`). No file but FILE is opened, and it is opened once,
//! after the words were judged: what opens a file can be called once, and is handed back if it was not called. Standard input is handed back as it
//! was given if it isn't the script. The console is left with the session to which the script leads, or with its new one.
//!
//! `end` prints clap's text if the words were refused or ask for one, tells standard error the line of the trouble if there is one, and gives the
//! exit code of the ending (`Ends`). Help that can't be written is a write fault. After a whole run standard error is told nothing, and nothing is
//! printed: `tell` and `print` are handed back.
//!
//! `read_words` gives the flag `--stop` and the value FILE of the matches that clap's own definitions give for the words, and succeeds only if clap
//! has no cause to refuse them. If memory is refused, the words aren't to blame (`Trouble`). `status_of` answers the status that belongs to how the
//! program ended, which is how `run` did.

mod ending;
mod serving;
mod words;

pub use ending::{Ended, Trouble, complaint, end, status_of};
pub use serving::{Outcome, serve};
pub use words::{Choice, WordsFault, not_text, read_words};
