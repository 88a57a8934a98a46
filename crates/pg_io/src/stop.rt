//! What ends work on files or a console before it is done.
use pg_base::Memory;
use std::alloc::AllocError;

/// What ends work on files or a console before it is done.
#[derive(Clone, Copy, Debug, PartialEq, Eq)]
pub enum Stop {
    /// A call that reads has failed.
    Read,
    /// A call that writes has failed.
    Write,
    /// A call was refused memory that it needs.
    Memory,
}

impl From<AllocError> for Stop {
    ghost use Rattle.std.specs.Prelude.{◌≡◌};
    ghost use Rattle.pg_io.specs.declared.stop.Stop.TheVariants.{Memory};

    ghost from_gives = { λ _ stop. stop ≡ Memory };

    fn from(_: AllocError) -> Stop {
        Stop::Memory
    }
}

impl From<Memory> for Stop {
    ghost use Rattle.std.specs.Prelude.{◌≡◌};
    ghost use Rattle.pg_io.specs.declared.stop.Stop.TheVariants.{Memory};

    ghost from_gives = { λ _ stop. stop ≡ Memory };

    fn from(_: Memory) -> Stop {
        Stop::Memory
    }
}
