//! Trees of preference scripts, as the grammar builds them. They follow the queries of SQL-92
//! (ISO/IEC 9075:1992) and the preferring clause of Preference SQL (Kießling and Köstler 2002). A
//! place is the number of bytes of the script before it.
#![tactic(auto)]

mod condition;
mod name;
mod preference;
mod query;

pub use condition::{CondTree, ScalarTree};
pub use name::{LiteralTree, NameTree};
pub use preference::{BaseForm, BaseTree, EdgeTree, PrefTree, SetTree};
pub use query::{FromTree, ItemTree, OrderName, OrderTree, QueryTree, SelectTree};
