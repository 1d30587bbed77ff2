//! The scripts of traces: their lines, read into commands, and the texts in which is printed what happens.
//!
//! A line is parsed and a text is printed, and nothing is done here: there is no world, and no stream. A
//! line stands here without its newline, and so does a text.
#![tactic(auto)]

mod command;
mod entry_text;
mod event_text;
mod frame_text;
mod keyword;
mod laws;
mod line_text;
mod names;
mod node_word;
mod numbers;
mod print;
mod refusal_text;
mod script_line;
mod verdict_text;
mod words;

pub use command::{Command, ScriptError};
pub use laws::{commands_are_sayable, spellings_read_back};
pub use node_word::NodeWord;
pub use numbers::read_number;
pub use print::{
    print_bad_line, print_end, print_event, print_frame, print_limit, print_line, print_lost,
    print_lost_verdict, print_no_holder, print_no_node, print_read_fault, print_refused,
    print_verdict,
};
pub use script_line::read_line;
