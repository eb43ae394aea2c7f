/// A source or a sink failed. Its count of faults rose in that call, or stands at `u64::MAX`.
#[derive(Clone, Copy, Debug, PartialEq, Eq)]
pub struct Failed;
