// Where a session may be held.
use std::sync::Wait;

/// A point in a session's run.
#[derive(Clone, Copy, Debug, PartialEq, Eq)]
pub enum Point {
    /// Before its first command.
    Started,
    /// After a work's merge, or once a recast's ranges are rewritten, before the next turn.
    Merged,
    /// After a command's last turn.
    Printed,
}

/// Whoever reaches a point may be held there.
pub trait Gate: Sync {
    fn reach<R: Wait>(&self, rt: &R, point: Point, session: u16);
}

/// Holds nobody.
#[derive(Drop)]
pub struct OpenGate;

impl Gate for OpenGate {
    fn reach<R: Wait>(&self, _rt: &R, _point: Point, _session: u16) {}
}
