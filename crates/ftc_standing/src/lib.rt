//! For which state of the protocol the servers and links of a chain stand. Servers keep numbers, logs, stores and
//! messages; the laws of this crate say what these mean as sets of visits, and what each event makes of them. Nothing
//! here runs.
#![tactic(auto)]

mod arriving_messages;
mod leaving_messages;
mod opening;
mod replacing;
mod replicas;
mod unmoved;

pub use arriving_messages::{a_message_begins, a_message_is_taken};
pub use leaving_messages::{
    a_message_is_carried, a_message_is_sent, a_message_leaves, a_packet_is_released,
    a_receiver_stops,
};
pub use opening::all_stand;
pub use replacing::{a_server_has_pulled, a_server_is_replaced};
pub use replicas::{a_log_is_applied, a_visit_is_made};
pub use unmoved::{links_stand_still, others_as_before, servers_stand_still};
