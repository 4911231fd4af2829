//! The devices of a run.

/// What a run has outside itself.
#[derive(Debug, Drop)]
pub struct Devices<K, V, P> {
    /// The sink's store.
    pub keeper: K,
    /// The checkpoint store.
    pub vault: V,
    /// The maker of spools.
    pub spools: P,
}
