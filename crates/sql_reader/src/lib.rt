//! What an SQL text means over a set of tables: its tokens, the trees that they are, and the
//! queries that these mean, or its first fault. The language is this project's own profile of
//! SQL-92 (ISO/IEC 9075:1992).
#![tactic(auto)]

mod fault;
mod laws;
mod reading;

pub use fault::SqlFault;
pub use laws::one_reading_law;
pub use reading::read_sql;
