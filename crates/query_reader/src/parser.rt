//! What every production is read with.

use std::alloc::Global;

/// Reads productions from a cursor. What it reads is on the heap of `alloc`.
#[derive(Clone, Copy)]
pub struct Parser {
    pub alloc: Global,
    /// How many conditions and preferences in parentheses may still stand inside one another.
    pub depth: usize,
}
