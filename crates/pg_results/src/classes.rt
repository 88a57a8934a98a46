//! The message of a class.
ghost use Rattle.std.specs.Prelude.{◌≡◌};
ghost use Rattle.pg_results.specs.Prelude.{message_text};
ghost use Rattle.pg_results.specs.Results.{class_text};

use pg_messages::Message;
use pg_solve::Class;

/// Returns the message that announces the class of a switching game.
pub fn class_message(class: Class) -> Message
    ensures { message_text result ≡ class_text class }
{
    match class {
        Class::Short => Message::ClassShort,
        Class::Cut => Message::ClassCut,
        Class::First => Message::ClassFirstMover,
    }
}
