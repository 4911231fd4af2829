//! Streams as bytes: each message's spelling, and a decoder of streams that come in any pieces.
#![tactic(auto)]

pub use decoder::Decoder;
pub use fault::WireFault;
pub use laws::{no_spelling_begins_another, streams_have_one_reading};
pub use message::Message;
pub use reading::{first_message, payload_number};
pub use writing::{write, write_payload};

mod decoder;
mod fault;
mod laws;
mod message;
mod order;
mod reading;
#[cfg(test)]
mod tests;
mod whole;
mod writing;
