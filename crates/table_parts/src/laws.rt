//! What rows of a table are enough for a query over it.
ghost use Rattle.table_parts.specs.JoinAnswers.{AnswersBestChoices};
ghost use Rattle.table_parts.specs.JoinParts.{AnswersByKeptParts};
ghost use Rattle.table_parts.specs.KeptChoices.{AnswersByKeptChoices, HasBestOfFewer};
ghost use Rattle.table_parts.specs.KeptRows.{AnswersByKeptRows};
ghost use Rattle.table_parts.specs.PartQueries.{TypesBestChoices, TypesBestRows};
ghost use Rattle.table_parts.specs.Parts.{AnswersBestRows, AnswersByParts, HasFullRows};

/// The law of kept rows: a query over one table has the answer that it has over some of the table's
/// rows, in any order, where each best row is among them as often.
pub fn answers_by_kept_rows()
    ensures { AnswersByKeptRows }
{}

/// The law that a query for all columns, without BUT ONLY, DISTINCT and ORDER BY, has the best rows
/// of its table as its answer, each as often.
pub fn answers_best_rows()
    ensures { AnswersBestRows }
{}

/// The law of parts: a query over a table has the answer that it has over the best rows of each part
/// of the table, as such a query gives them, one part after the other.
pub fn answers_by_parts()
    ensures { AnswersByParts }
{}

/// The law that with a statement over one table its like with SELECT * and without BUT ONLY,
/// DISTINCT and ORDER BY is accepted too, and is the query for the best rows.
pub fn types_best_rows()
    ensures { TypesBestRows }
{}

/// The law that each row of a valid table has a value for each column.
pub fn has_full_rows()
    ensures { HasFullRows }
{}

/// The law of kept choices: a query over several tables has the answer that it has over some rows
/// of each, in any order, where no best choice of rows has one that is left out.
pub fn answers_by_kept_choices()
    ensures { AnswersByKeptChoices }
{}

/// The law that a best choice of rows is best too where of one table only some rows are there, and
/// that of the choice among them. So a row that stands in no best choice of its part of a table
/// stands in none of the whole.
pub fn has_best_of_fewer()
    ensures { HasBestOfFewer }
{}

/// The law of parts, for several tables: where one of them is cut into parts and of each part the
/// rows are kept that stand in its best choices, and any others, a query has the answer over these
/// that it has over all.
pub fn answers_by_kept_parts()
    ensures { AnswersByKeptParts }
{}

/// The law that a query over several tables for all their columns, without BUT ONLY, DISTINCT and
/// ORDER BY, has their best choices of rows as its answer, each as often.
pub fn answers_best_choices()
    ensures { AnswersBestChoices }
{}

/// The law that with a statement over any tables its like with SELECT * and without BUT ONLY,
/// DISTINCT and ORDER BY is accepted too, and is the query for the best choices of rows.
pub fn types_best_choices()
    ensures { TypesBestChoices }
{}
