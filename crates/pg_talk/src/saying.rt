//! Saying messages and other texts.
ghost use Rattle.std.specs.Prelude.{◌≡◌, IfErr};
ghost use Rattle.pg_talk.specs.Prelude.{Says, Causes, message_text};
ghost use Rattle.pg_talk.specs.Storing.{SaysTexts, texts_of};

use pg_io::{Console, Stop};
use pg_messages::Message;

/// Says a text.
pub fn say_text<C: Console>(console: &mut C, text: &str) -> Result<(), Stop>
    ensures said { Says (C.told console.old).log (C.told console.new).log text.now result }
    ensures causes { Causes ⊥ (C.told console.old).faults (C.told console.new).faults result }
    ensures left { (C.told console.new).left ≡ (C.told console.old).left }
    ensures write { IfErr result (λ stop. stop ≡ Stop.Write) }
{
    match console.say(text.as_bytes()) {
        Ok(()) => Ok(()),
        Err(_) => Err(Stop::Write),
    }
}

/// Says a message.
pub fn say<C: Console>(console: &mut C, message: Message) -> Result<(), Stop>
    ensures said { Says (C.told console.old).log (C.told console.new).log
        (message_text message) result }
    ensures causes { Causes ⊥ (C.told console.old).faults (C.told console.new).faults result }
    ensures left { (C.told console.new).left ≡ (C.told console.old).left }
    ensures write { IfErr result (λ stop. stop ≡ Stop.Write) }
{
    say_text(console, message.text().as_str())
}

/// Says a message, and then a further one where it is given.
pub fn say_both<C: Console>(
    console: &mut C,
    message: Message,
    further: Option<Message>,
) -> Result<(), Stop>
    ensures said { SaysTexts (texts_of message further)
        (C.told console.old).log (C.told console.new).log result }
    ensures causes { Causes ⊥ (C.told console.old).faults (C.told console.new).faults result }
    ensures left { (C.told console.new).left ≡ (C.told console.old).left }
    ensures write { IfErr result (λ stop. stop ≡ Stop.Write) }
{
    say(console, message)?;
    match further {
        Some(further) => say(console, further),
        None => Ok(()),
    }
}
