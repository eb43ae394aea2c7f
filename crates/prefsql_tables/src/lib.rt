//! Tables with typed columns, sets of tables by name, places in them, and answers in their order.
#![tactic(auto)]

mod answer;
mod column_cells;
mod order;
mod place;
mod schema;
mod set;
mod sight;
mod table;

pub use answer::{Answer, has_one_arrangement};
pub use place::{ColumnPlace, Combo, SortKey};
pub use schema::{Column, Schema};
pub use set::{AddError, TableSet};
pub use sight::cell_in_sight;
pub use table::{AnswerRow, Table};
