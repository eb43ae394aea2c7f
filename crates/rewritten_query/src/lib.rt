//! The SQL query that a preference query is written as: by level columns and NOT EXISTS (after
//! Kießling and Köstler, Preference SQL, VLDB 2002), in a form of this project's own.
//!
//! The crate has no code that runs. What is written for each part of a block stands in `specs/`:
//! names (`Names`), the columns that the outer query speaks of (`Columns`), what a leaf ranks by
//! (`Leaves`), conditions over other columns (`Conditions`), which of two candidates is better
//! (`Rankings`), and the whole query (`Rewriting`).
#![tactic(auto)]
