//! What a line asks of a session.
ghost use Rattle.std.specs.Prelude.{◌≡◌};
ghost use Rattle.pg_sessions.specs.Request.{request_of};

use pg_talk::trimmed;
use pg_text::number;

/// What a line asks of a session.
#[derive(Clone, Copy, Debug, PartialEq, Eq)]
pub enum Request {
    /// The text is `end`: the session is to end.
    End,
    /// The text is `back`: the last standing move is to be taken back.
    Back,
    /// The text is a number: the side to move is to take this point.
    Move(u32),
    /// The text is none of these.
    Unclear,
}

/// What a line asks for, by its text without blank bytes around it.
pub(crate) fn request_of(line: &[u8]) -> Request
    ensures { result ≡ request_of line.now }
{
    let text = trimmed(line);
    if text == b"end".as_slice() {
        return Request::End;
    }
    if text == b"back".as_slice() {
        return Request::Back;
    }
    match number(text) {
        Some(v) => Request::Move(v),
        None => Request::Unclear,
    }
}
