//! The sources of operators, by their numbers in the file.

/// The numbers of the operators that an operator's two ports read.
#[derive(Clone, Copy, Debug)]
pub(crate) struct Link {
    /// Whom the first input port reads, where there is such a port.
    pub(crate) left: Option<usize>,
    /// Whom the second input port reads, where there is such a port.
    pub(crate) right: Option<usize>,
}
