//! What happens in a session.

/// The most events of a session.
pub const MAX_EVENTS: u32 = 10_000;

/// What happens in a session.
#[derive(Clone, Copy, Debug, PartialEq, Eq)]
pub enum Event {
    /// The side to move takes the point.
    Play(u16),
    /// The last standing move is taken back.
    Back,
}
