//! Playing a side of a connectivity game by a certificate.
ghost use Rattle.std.specs.Prelude.{◌≡◌, [], Ok, IfErr, IfOk, ⊤};
ghost use Rattle.pg_families.specs.Prelude.{Grows, ReadsOnly, IsWithinRanges, Performs, BothCauses};
ghost use Rattle.pg_families.specs.Prelude.{HaltCauses, IsPlayEnd, IsPlayHalt, QuietsBy, Runs};
ghost use Rattle.pg_families.specs.Connectivity.{AreSpansLacking, PlaysSpan, RefusesSpanPlay};
ghost use Rattle.pg_families.specs.Connectivity.{span_both_held, span_pair};

use crate::opening::open_span_both;
use pg_base::{Goal, Kind, Score, Side};
use pg_game::Illegal;
use pg_io::{Console, Files, Stop};
use pg_messages::Refusal;
use pg_span::{SpanCert, SpanFault, SpanGame, SpanOpen, SpanPlayer};
use pg_talk::{Contestant, Halt, play_claim};
use std::alloc::Global;

/// A player of a connectivity game.
#[derive(Drop)]
struct SpanContestant<'a> {
    player: SpanPlayer<'a>,
}

impl<'a> Contestant for SpanContestant<'a> {
    ghost use Rattle.pg_families.specs.Connectivity.{span_player};
    ghost use Rattle.pg_families.specs.SpanPoints.{few_edges};

    ghost contender = { λ s. span_player s.player };

    ghost small = { λ s. few_edges s.player.game };

    fn side(&self) -> Side {
        self.player.side()
    }

    /// To win.
    fn goal(&self) -> Goal {
        Goal::Win
    }

    /// Maker-Breaker, whose words say the outcome.
    fn kind(&self) -> Kind {
        Kind::MakerBreaker
    }

    fn outcome(&self) -> Option<Score> {
        self.player.outcome()
    }

    fn first(&mut self) -> Option<u16> {
        self.player.first()
    }

    fn answer(&mut self, v: u16) -> Result<Option<u16>, Illegal> {
        self.player.answer(v)
    }
}

/// Plays a side of the game over a console by the certificate.
fn play_by<C: Console>(
    alloc: Global,
    console: &mut C,
    game: &SpanGame,
    certificate: &SpanCert,
    side: Side,
) -> Result<u8, Halt>
    requires { IsWithinRanges certificate.now }
    ensures played { Performs (RefusesSpanPlay side (Ok (span_pair (game.now, certificate.now))))
        (PlaysSpan side (Ok (span_pair (game.now, certificate.now))))
        (C.told console.old) (C.told console.new) result }
    ensures causes { HaltCauses ⊥ (C.told console.old).faults (C.told console.new).faults result }
    ensures done { IfOk result IsPlayEnd }
    ensures halts { IfErr result IsPlayHalt }
{
    match pg_span::span_check(alloc, game, certificate) {
        Ok(checked) => match SpanPlayer::open(alloc, checked, side) {
            Ok(player) => {
                let mut contestant = SpanContestant { player };
                play_claim(&mut contestant, console)
            }
            Err(SpanOpen::NoClaim) => Err(Halt::Refused(Refusal::NoClaim { side })),
            Err(SpanOpen::Memory) => Err(Halt::Stopped(Stop::Memory)),
        },
        Err(SpanFault::Reject { claim, why }) => Err(Halt::Refused(Refusal::RejectedSpan {
            claim,
            why: why.number(),
        })),
        Err(SpanFault::Memory) => Err(Halt::Stopped(Stop::Memory)),
    }
}

/// Plays a side of the connectivity game under one name by the certificate under another.
pub fn play_span<F: Files, C: Console>(
    alloc: Global,
    game: &str,
    certificate: &str,
    side: Side,
    files: &mut F,
    console: &mut C,
) -> Result<u8, Halt>
    ensures ran { Runs
        (λ held. RefusesSpanPlay side (span_both_held (held game.now) (held certificate.now)))
        (λ held done end.
        PlaysSpan side (span_both_held (held game.now) (held certificate.now)) done.entries end
        × (done.stored ≡ [])) (F.told files.old) (F.told files.new) (C.told console.old)
        (C.told console.new) result }
    ensures causes { BothCauses (AreSpansLacking (F.told files.old).held game.now certificate.now)
        (F.told files.old) (F.told files.new) (C.told console.old) (C.told console.new) result }
    ensures quiet { QuietsBy ⊤ (Grows (C.told console.old).log (C.told console.new).log [])
        (C.told console.old) (C.told console.new) result }
    ensures kept { ReadsOnly (F.told files.old) (F.told files.new) }
    ensures done { IfOk result IsPlayEnd }
    ensures halts { IfErr result IsPlayHalt }
{
    let both = open_span_both(alloc, files, game, certificate)?;
    play_by(alloc, console, &both.0, &both.1, side)
}
