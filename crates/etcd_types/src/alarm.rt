//! Requests to alarms.

/// What is asked of an alarm.
#[derive(Clone, Copy, PartialEq, Eq)]
pub enum AlarmAction {
    Get,
    Activate,
    Deactivate,
}

/// Which alarm is meant.
#[derive(Clone, Copy, PartialEq, Eq)]
pub enum AlarmKind {
    /// `NONE`: a get of any alarm.
    Any,
    NoSpace,
    Corrupt,
}

/// A request to an alarm.
#[derive(Clone, Copy, PartialEq, Eq)]
pub struct AlarmReq {
    pub action: AlarmAction,
    /// 0 or 1 is this member, and no other is there.
    pub member: u64,
    pub alarm: AlarmKind,
}
