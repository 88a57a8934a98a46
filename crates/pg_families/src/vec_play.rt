//! Playing a side of a game on vectors by a certificate.
ghost use Rattle.std.specs.Prelude.{◌≡◌, [], Ok, IfErr, IfOk, ⊤};
ghost use Rattle.pg_families.specs.Prelude.{Grows, ReadsOnly, IsWithinLimits, Performs, BothCauses};
ghost use Rattle.pg_families.specs.Prelude.{HaltCauses, IsPlayEnd, IsPlayHalt, QuietsBy, Runs};
ghost use Rattle.pg_families.specs.Vectors.{AreVectorsLacking, PlaysVectors, RefusesVectorPlay};
ghost use Rattle.pg_families.specs.Vectors.{vectors_both_held, vectors_pair};

use crate::opening::open_vectors_both;
use pg_base::{Goal, Kind, Score, Side};
use pg_cert::Cert;
use pg_game::Illegal;
use pg_gf2::{VecFault, VecGame};
use pg_io::{Console, Files, Stop};
use pg_messages::Refusal;
use pg_talk::{Contestant, Halt, play_claim};
use pg_vec_player::{VecOpen, VecPlayer};
use std::alloc::Global;

/// A player of a game on vectors.
#[derive(Drop)]
struct VecContestant<'a> {
    player: VecPlayer<'a>,
}

impl<'a> Contestant for VecContestant<'a> {
    ghost use Rattle.pg_families.specs.Vectors.{vec_player};
    ghost use Rattle.pg_families.specs.VectorPoints.{few_vectors};

    ghost contender = { λ s. vec_player s.player };

    ghost small = { λ s. few_vectors s.player.game };

    fn side(&self) -> Side {
        self.player.side()
    }

    /// To win.
    fn goal(&self) -> Goal {
        Goal::Win
    }

    /// The switching game, whose words say the outcome.
    fn kind(&self) -> Kind {
        Kind::Switching
    }

    fn outcome(&self) -> Option<Score> {
        self.player.outcome()
    }

    fn first(&mut self) -> Option<u16> {
        self.player.first()
    }

    fn answer(&mut self, v: u16) -> Result<Option<u16>, Illegal> {
        self.player.answer(v)
    }
}

/// Plays a side of the game over a console by the certificate.
fn play_vectors_by<C: Console>(
    alloc: Global,
    console: &mut C,
    game: &VecGame,
    certificate: &Cert,
    side: Side,
) -> Result<u8, Halt>
    requires { IsWithinLimits certificate.now }
    ensures played { Performs
        (RefusesVectorPlay side (Ok (vectors_pair (game.now, certificate.now))))
        (PlaysVectors side (Ok (vectors_pair (game.now, certificate.now)))) (C.told console.old)
        (C.told console.new) result }
    ensures causes { HaltCauses ⊥ (C.told console.old).faults (C.told console.new).faults result }
    ensures done { IfOk result IsPlayEnd }
    ensures halts { IfErr result IsPlayHalt }
{
    match pg_gf2::vec_check(alloc, game, certificate) {
        Ok(checked) => match VecPlayer::open(alloc, checked, side) {
            Ok(player) => {
                let mut contestant = VecContestant { player };
                play_claim(&mut contestant, console)
            }
            Err(VecOpen::NoClaim) => Err(Halt::Refused(Refusal::NoClaim { side })),
            Err(VecOpen::Memory) => Err(Halt::Stopped(Stop::Memory)),
        },
        Err(VecFault::Reject { claim, node, why }) => Err(Halt::Refused(
            Refusal::RejectedVectors {
                claim,
                node,
                why: why.number(),
            },
        )),
        Err(VecFault::Memory) => Err(Halt::Stopped(Stop::Memory)),
    }
}

/// Plays a side of the game on vectors under one name by the certificate under another.
pub fn play_vectors<F: Files, C: Console>(
    alloc: Global,
    game: &str,
    certificate: &str,
    side: Side,
    files: &mut F,
    console: &mut C,
) -> Result<u8, Halt>
    ensures ran { Runs
        (λ held. RefusesVectorPlay side (vectors_both_held (held game.now) (held certificate.now)))
        (λ held done end. PlaysVectors side
        (vectors_both_held (held game.now) (held certificate.now)) done.entries end
        × (done.stored ≡ [])) (F.told files.old) (F.told files.new) (C.told console.old)
        (C.told console.new) result }
    ensures causes { BothCauses (AreVectorsLacking (F.told files.old).held game.now certificate.now)
        (F.told files.old) (F.told files.new) (C.told console.old) (C.told console.new) result }
    ensures quiet { QuietsBy ⊤ (Grows (C.told console.old).log (C.told console.new).log [])
        (C.told console.old) (C.told console.new) result }
    ensures kept { ReadsOnly (F.told files.old) (F.told files.new) }
    ensures done { IfOk result IsPlayEnd }
    ensures halts { IfErr result IsPlayHalt }
{
    let both = open_vectors_both(alloc, files, game, certificate)?;
    play_vectors_by(alloc, console, &both.0, &both.1, side)
}
