//! The top call: from the words, the files and the script to what is written.
#![tactic(auto)]

mod answering;
mod benching;
mod command;
mod command_line;
mod executing;
mod fault;
mod fault_line;
mod halt;
mod laws;
mod prepare;
mod reader;
mod script;
mod session;
mod table_words;
mod tables;
mod work;
mod writing;

use command::{Command, Shown, TableWord, Task, Wish};
use command_line::accepted;
pub use laws::written_text_executes;
pub use session::{Status, run};
