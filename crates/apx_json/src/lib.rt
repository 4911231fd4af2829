//! The JSON text of an application: its operators and streams as they stand
//! there, or the first place where the shape is another one.
#![tactic(auto)]

mod file_name;
mod member;
mod name;
mod operator;
mod place;
mod read;
mod refusal;
mod stream;
mod text;

pub use file_name::is_file_name;
pub use name::Name;
pub use read::read_app;
pub use refusal::JsonRefusal;
pub use text::{AppText, OperatorText, PortText, Property, PropertyValue, StreamText};

#[cfg(test)]
mod tests;
