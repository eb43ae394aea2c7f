/// Where a condition stands in the text: by itself, as a part of an AND, as a part of an OR, or
/// after NOT.
#[derive(Clone, Copy, Debug, PartialEq, Eq)]
pub(crate) enum Standing {
    Alone,
    InAnd,
    InOr,
    AfterNot,
}
