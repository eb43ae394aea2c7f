//! Grammars as data: forms, the lists of tokens that they stand for, their fronts, and how one
//! token of look-ahead reads them.
//!
//! The crate has no code that runs. A parser's contract cites what a whole one and a front of a
//! form is (`specs/Form.antt`). `proofs/` shows once for all forms: a reader that follows a
//! predictive form answers the one value of the tokens, or stands exactly behind the longest front
//! (`Predictive`, `Longest`); and which forms stand for the same lists (`Same`).
#![tactic(auto)]
