//! Scripts of either language: statements with their semicolons, their fronts, and the place and
//! code of the first grammar fault, for any form of a statement; and that a script which is read by
//! one token of look-ahead, with a count of its statements, is what is written. These rules are
//! this project's own.
//!
//! There is no code: a parser's contract cites its definitions.
#![tactic(auto)]
