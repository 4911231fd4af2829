//! What a run is told beside its files.

/// What a run is told beside its files. Each number has its limits, as
/// `IsSettings` says.
#[derive(Clone, Copy, Debug, PartialEq, Eq)]
pub struct Settings {
    /// The second that the first window's identifier bears, at most
    /// 4,294,959,295.
    pub base: u32,
    /// How many windows there are from one checkpoint to the next: 1 to 1,000.
    pub every: u32,
    /// The most bytes of a block: 1,040 to 1,048,576.
    pub block: usize,
    /// How many blocks of a list stay in memory: 1 to 1,000,000.
    pub keep: usize,
}

impl Default for Settings {
    ghost use Rattle.std.specs.Prelude.{◌≡◌};
    ghost use Rattle.apx_script.specs.Settings.{usual};

    ghost is_default = { λ settings. settings ≡ usual };

    fn default() -> Settings {
        Settings {
            base: 1_000_000_000,
            every: 60,
            block: 65_536,
            keep: 64,
        }
    }
}
