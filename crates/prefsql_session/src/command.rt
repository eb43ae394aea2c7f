use prefsql_values::{List, Text};

/// A table's name, in upper case, and the path of its file.
#[derive(Debug, Drop)]
pub(crate) struct TableWord {
    pub(crate) name: Text,
    pub(crate) path: Text,
}

/// What is done with a script.
#[derive(Clone, Copy, Debug, PartialEq, Eq)]
pub(crate) enum Task {
    /// It is a preference script, and this is written of each statement.
    Ask(Wish),
    /// It is an SQL script, and each query is answered.
    Execute,
}

/// What is written of each statement of a preference script.
#[derive(Clone, Copy, Debug, PartialEq, Eq)]
pub(crate) enum Wish {
    /// Its answer. The flag says whether the tests that the answer took are told.
    Answer(bool),
    /// What can be shown of it.
    Show(Shown),
}

/// What can be shown of a statement.
#[derive(Clone, Copy, Debug, PartialEq, Eq)]
pub(crate) enum Shown {
    /// Its plan.
    Plan,
    /// Its query in SQL-92.
    Query,
    /// The answer of that query.
    Executed,
}

/// What the words of a command line ask for.
#[derive(Debug, Drop)]
pub(crate) enum Command {
    /// This is done with a script, over these tables.
    OnScript(Task, List<TableWord>),
    /// The bench, over a table of so many rows, from 1 to 100,000.
    Bench(u32),
}
