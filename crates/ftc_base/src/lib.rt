//! What every crate of the chain shares: limits, ids, small sets, keys and values, what a rule asks,
//! growing lists, refusals, and the lexer of texts.
#![tactic(auto)]

mod ask;
mod bytes;
mod comment;
mod decimal;
mod endpoint;
mod ids;
mod items;
mod key;
mod lexer;
pub mod limits;
mod network;
mod partition;
mod refusal;
mod released;
mod sets;
mod split;

pub use ask::{Answer, Answers, Ask, Change, Finish, Verdict, Write, Writes};
pub use bytes::{Bytes, Lines};
pub use comment::is_comment;
pub use decimal::number;
pub use endpoint::{address, net};
pub use ids::{PacketNo, ServerId, WorkerId};
pub use items::Items;
pub use key::{Key, Value};
pub use lexer::{Lexical, Line, Word, line_at, word_at};
pub use network::Net;
pub use partition::partition_of;
pub use refusal::{NoMemory, Refuse};
pub use released::{Released, ReleasedList};
pub use sets::{PartSet, ServerSet, WorkerSet, same_members};
pub use split::{part_len, split_line, split_part, split_word};

#[cfg(test)]
mod tests;
