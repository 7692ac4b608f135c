//! The reader of scripts: which servers crash and recover, and which messages a link loses.
#![tactic(auto)]

mod adding;
mod draft;
mod fault;
mod laws;
mod line;
mod reader;
mod script;
mod statement;
mod words;

pub use fault::{ScriptCause, ScriptFault};
pub use laws::{accepted, reads_back, turns};
pub use line::{LoseLine, ScriptLine};
pub use reader::read_script;
pub use script::Script;
pub use statement::Statement;

#[cfg(test)]
mod tests;
