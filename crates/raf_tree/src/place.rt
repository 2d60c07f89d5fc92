//! Where the answer of a hasher call stands.

/// Where the answer of a hasher call stands: the commitment, or a node of the tree.
#[derive(Clone, Copy, Debug, PartialEq, Eq)]
pub enum Place {
    /// The commitment.
    Commitment,
    /// A node.
    Node {
        /// Its level, 0 for the leaves.
        level: u32,
        /// Its index on the level.
        index: u64,
    },
}
