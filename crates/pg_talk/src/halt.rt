//! What ends a command before it is done.
use pg_base::Memory;
use pg_io::Stop;
use pg_messages::Refusal;

/// What ends a command before it is done.
#[derive(Clone, Copy, Debug)]
pub enum Halt {
    /// This stands against it, and is still to be said.
    Refused(Refusal),
    /// A call on files or the console has failed, or memory is wanting.
    Stopped(Stop),
}

impl From<Refusal> for Halt {
    ghost use Rattle.std.specs.Prelude.{◌≡◌};
    ghost use Rattle.pg_talk.specs.declared.halt.Halt.TheVariants.{Refused};

    ghost from_gives = { λ refusal halt. halt ≡ Refused refusal };

    fn from(refusal: Refusal) -> Halt {
        Halt::Refused(refusal)
    }
}

impl From<Stop> for Halt {
    ghost use Rattle.std.specs.Prelude.{◌≡◌};
    ghost use Rattle.pg_talk.specs.declared.halt.Halt.TheVariants.{Stopped};

    ghost from_gives = { λ stop halt. halt ≡ Stopped stop };

    fn from(stop: Stop) -> Halt {
        Halt::Stopped(stop)
    }
}

impl From<Memory> for Halt {
    ghost use Rattle.std.specs.Prelude.{◌≡◌};
    ghost use Rattle.pg_io.specs.declared.stop.Stop.TheVariants.{Memory};
    ghost use Rattle.pg_talk.specs.declared.halt.Halt.TheVariants.{Stopped};

    ghost from_gives = { λ _ halt. halt ≡ Stopped Memory };

    fn from(_: Memory) -> Halt {
        Halt::Stopped(Stop::Memory)
    }
}
