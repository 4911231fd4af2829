//! The checkpoint store on a disk: a log of what was kept and dropped that a stop at any moment leaves readable.
#![tactic(auto)]

mod body;
mod upgrade;
mod vault_log;

pub use vault_log::VaultLog;

#[cfg(test)]
mod tests;
