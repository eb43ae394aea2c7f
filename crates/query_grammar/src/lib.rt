//! The grammar of preference scripts, as it is written and as one token of look-ahead reads it.
//! Preferences follow Kießling (2002) and Kießling and Köstler (2002), conditions SQL-92 (ISO/IEC
//! 9075:1992); the profile is this project's own.
//!
//! There is no code: the parser's contract cites its definitions.
#![tactic(auto)]
