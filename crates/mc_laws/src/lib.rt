//! Laws of lines, commands and answers, beside the program.
#![tactic(auto)]

pub mod commands;
pub mod lines;
pub mod meta_lines;
pub mod texts;
pub mod worked_lines;
