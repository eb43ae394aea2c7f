//! What every production is read with.

use std::alloc::Global;

/// Reads productions from a cursor. What it reads is on the heap of `alloc`.
#[derive(Clone, Copy)]
pub(crate) struct Reader {
    pub(crate) alloc: Global,
    /// How many conditions and queries in parentheses and how many CASE may still stand inside one
    /// another.
    pub(crate) depth: usize,
}
