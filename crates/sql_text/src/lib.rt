//! The grammar of SQL scripts, and the text of a query. The language is this project's own profile
//! of SQL-92 (ISO/IEC 9075:1992).
#![tactic(auto)]

mod level;
mod named;
mod order;
mod quoted;
mod standing;
mod words;
mod writer;

pub use named::{
    NamedCond, NamedFrom, NamedItem, NamedQuery, NamedScalar, NamedSelect, NamedStatement,
    NamedTerm, NamedWhen,
};
pub use writer::write_sql;
