//! The codes of the faults of a table file.

/// A header field is no name, type and NOT NULL.
pub(crate) const HEADER_FIELD: u16 = 501;
/// An earlier header field has the same name.
pub(crate) const SAME_NAME: u16 = 502;
/// A row has another number of fields than the header.
pub(crate) const FIELD_COUNT: u16 = 503;
/// A number is no optional sign and digits.
pub(crate) const NO_NUMBER: u16 = 504;
/// A number has more than 18 digits.
pub(crate) const TOO_MANY_DIGITS: u16 = 505;
/// A number that may not be NULL is empty.
pub(crate) const EMPTY_NUMBER: u16 = 506;
/// A field is not UTF-8 or holds the byte 00.
pub(crate) const NO_TEXT: u16 = 507;
/// A row stands behind the last one that a table may have.
pub(crate) const TOO_MANY_ROWS: u16 = 508;
/// The header has more fields than a table may have columns.
pub(crate) const TOO_MANY_COLUMNS: u16 = 509;
/// The file has no record.
pub(crate) const NO_RECORD: u16 = 510;
