//! Runs of the whole program of which a call of a device fails: tests alone.
#![tactic(auto)]

#[cfg(test)]
mod blocks;
#[cfg(test)]
mod calls;
#[cfg(test)]
mod commands;
#[cfg(test)]
mod failing;
#[cfg(test)]
mod runs;
#[cfg(test)]
mod spools;
#[cfg(test)]
mod table;
