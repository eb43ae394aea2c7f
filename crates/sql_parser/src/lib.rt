//! A parser of SQL scripts: from tokens to trees with names, exact against the grammar, with the
//! exact place of the first grammar fault. The language is this project's own profile of SQL-92
//! (ISO/IEC 9075:1992).
#![tactic(auto)]

mod conditions;
mod fault;
mod queries;
mod reader;
mod scalars;
mod script;
mod statements;

pub use fault::ParseFault;
pub use script::parse_sql;
