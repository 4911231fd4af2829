//! How the windows of a run are cut.

/// What the cut of a window depends on, beside the window's tuples.
#[derive(Clone, Copy, Debug, PartialEq, Eq)]
pub struct CutPlan {
    /// The second that windows are counted from, at most 4294959295.
    pub base: u32,
    /// A checkpoint is asked for after each window whose number is a multiple of this, 1 to 1000.
    pub every: u32,
    /// The last window of the run, at most 20,000.
    pub windows: u32,
    /// The most bytes of a block, 1040 to 1048576.
    pub size: usize,
}
