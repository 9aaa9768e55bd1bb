// Input line by line, output by way of a buffer, files and arguments, for programs. A failure to read or write is given back as an error.
// No contract can speak of what the system gives or takes.
#![tactic(auto)]

mod arguments;
mod file;
mod input;
mod output;

pub use arguments::{NoNumber, asks_for_help, is_given, number_at};
pub use file::read_file;
pub use input::Reading;
pub use output::flush_before;

#[cfg(test)]
mod tests;
