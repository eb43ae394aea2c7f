//! What rows of a table are enough for a query over it: the best ones, and so those that the parts
//! of the table give.
//!
//! The crate has no code that runs, and laws alone.
#![tactic(auto)]

mod laws;

pub use laws::{
    answers_best_choices, answers_best_rows, answers_by_kept_choices, answers_by_kept_parts,
    answers_by_kept_rows, answers_by_parts, has_best_of_fewer, has_full_rows, types_best_choices,
    types_best_rows,
};
