//! A game of the program against a person.
ghost use Rattle.std.specs.Prelude.{◌≡◌, ◌++◌, [], ◌∷◌, Err, IfOk, None, Some};
ghost use Rattle.pg_opponent.specs.Prelude.{Play, chosen_claim};
ghost use Rattle.pg_opponent.specs.Sitting.{Begins, Comes, IsAfter, IsAnswered, MovesBy};
ghost use Rattle.pg_opponent.specs.Sitting.{sitting_of};
ghost use Rattle.pg_opponent.specs.Fits.{IsFit, IsLegal, IsOn, MayPlay, Went};

use pg_base::{Memory, Side};
use pg_check::Checked;
use pg_game::Illegal;
use pg_player::{OpenFault, Player, Rule};
use pg_record::Session;
use std::alloc::Global;

/// A point that the program has claimed.
#[derive(Clone, Copy, Debug)]
pub struct OwnPoint {
    /// The point.
    pub point: u16,
    /// The rule by which the player chose it.
    pub rule: Rule,
}

/// A game of the program against a person: the program's player, the session of what was played,
/// the program's points since the last reply, and the person's replies that were taken.
#[derive(Drop)]
pub struct Seat<'a> {
    /// The program's player.
    pub player: Player<'a>,
    /// What was played by both sides.
    pub session: Session<'a>,
    /// The points that the program has claimed since the last reply, each with its rule.
    pub own: Vec<OwnPoint>,
    /// The person's replies.
    pub replies: Vec<u16>,
}

/// Records a legal point.
fn record(session: &mut Session<'_>, point: u16)
    requires legal { IsLegal session.old.game session.old.events }
    requires may { MayPlay session.old.game session.old.events point }
    ensures events { session.new.events ≡ session.old.events ++ Play point ∷ [] }
    ensures game { session.new.game ≡ session.old.game }
{
    let Ok(()) = session.play(point) else {
        unreachable!()
    };
}

/// Makes one move of the player if it owes one, and returns it with the rule by which the player
/// chose it where it stood.
fn make_move(player: &mut Player<'_>) -> Option<OwnPoint>
    ensures { MovesBy player.old player.new result }
{
    let rule = player.rule();
    let point = player.first()?;
    Some(OwnPoint { point, rule })
}

impl<'a> Seat<'a> {
    /// Makes and records the moves that the program owes.
    fn settle(&mut self) -> Result<(), Memory>
        requires { IsOn self.old.session.game self.old.player.claim (sitting_of self.old) }
        ensures went { IfOk result (λ _. Went (sitting_of self.old) (sitting_of self.new)) }
        ensures fits { IfOk result (λ _.
            IsFit self.old.session.game self.old.player.claim (sitting_of self.new)) }
        ensures game { self.new.session.game ≡ self.old.session.game }
    {
        while let Some(made) = make_move(&mut self.player) {
            record(&mut self.session, made.point);
            self.own.push(made)?;
        }
        Ok(())
    }

    /// Begins a game by the claim that `Player::open` chooses for the side: the program makes the
    /// moves that it owes at the game's position.
    ///
    /// # Errors
    ///
    /// `NoClaim` exactly if no claim has that side and the game's turn, and otherwise `Memory` if
    /// memory runs out.
    pub fn begin(alloc: Global, checked: Checked<'a>, side: Side) -> Result<Seat<'a>, OpenFault>
        ensures chosen { IfOk result (λ seat.
            chosen_claim checked.entry.game.now checked.entry.cert.now side
            ≡ Some seat.player.claim) }
        ensures side { IfOk result (λ seat. seat.player.claim.side ≡ side) }
        ensures begins { IfOk result (λ seat.
            Begins checked.entry.game.now seat.player.claim (sitting_of seat)) }
        ensures fits { IfOk result (λ seat.
            IsFit checked.entry.game.now seat.player.claim (sitting_of seat)) }
        ensures game { IfOk result (λ seat. seat.session.game ≡ checked.entry.game.now) }
        ensures none { result ≡ Err OpenFault.NoClaim
            → chosen_claim checked.entry.game.now checked.entry.cert.now side ≡ None }
        ensures missing { chosen_claim checked.entry.game.now checked.entry.cert.now side ≡ None
            → result ≡ Err OpenFault.NoClaim }
    {
        let player = Player::open(alloc, checked, side)?;
        let Ok(session) = Session::open(alloc, checked.game) else {
            return Err(OpenFault::Memory);
        };
        let mut seat = Seat {
            player,
            session,
            own: Vec::new(alloc),
            replies: Vec::new(alloc),
        };
        match seat.settle() {
            Ok(()) => Ok(seat),
            Err(Memory) => Err(OpenFault::Memory),
        }
    }

    /// Takes a reply, and makes the moves that the program then owes. Returns why it isn't legal,
    /// if it isn't; then nothing changes.
    ///
    /// # Errors
    ///
    /// `Memory` if memory runs out.
    pub fn reply(&mut self, point: u16) -> Result<Result<(), Illegal>, Memory>
        requires { IsFit self.old.session.game self.old.player.claim (sitting_of self.old) }
        ensures answered { IfOk result (λ found.
            IsAnswered (sitting_of self.old) point (sitting_of self.new) found) }
        ensures fits { IfOk result (λ _.
            IsFit self.old.session.game self.old.player.claim (sitting_of self.new)) }
        ensures game { self.new.session.game ≡ self.old.session.game }
    {
        match self.player.take_reply(point) {
            Ok(()) => {
                record(&mut self.session, point);
                self.replies.push(point)?;
                self.own.clear();
                self.settle()?;
                Ok(Ok(()))
            }
            Err(why) => Ok(Err(why)),
        }
    }

    /// Takes replies one after the other; those that aren't legal change nothing.
    ///
    /// # Errors
    ///
    /// `Memory` if memory runs out.
    fn reply_all(&mut self, replies: &[u16]) -> Result<(), Memory>
        requires { IsFit self.old.session.game self.old.player.claim (sitting_of self.old) }
        ensures comes { IfOk result (λ _.
            Comes (sitting_of self.old) replies.now (sitting_of self.new)) }
        ensures fits { IfOk result (λ _.
            IsFit self.old.session.game self.old.player.claim (sitting_of self.new)) }
        ensures game { self.new.session.game ≡ self.old.session.game }
    {
        match replies {
            [point, others @ ..] => {
                let _ = self.reply(*point)?;
                self.reply_all(others)
            }
            [] => Ok(()),
        }
    }

    /// The game anew, in which these replies are taken one after the other.
    ///
    /// # Errors
    ///
    /// As those of `begin`.
    pub fn again(
        alloc: Global,
        checked: Checked<'a>,
        side: Side,
        replies: &[u16],
    ) -> Result<Seat<'a>, OpenFault>
        ensures chosen { IfOk result (λ seat.
            chosen_claim checked.entry.game.now checked.entry.cert.now side
            ≡ Some seat.player.claim) }
        ensures after { IfOk result (λ seat. IsAfter checked.entry.game.now seat.player.claim
            replies.now (sitting_of seat)) }
        ensures fits { IfOk result (λ seat.
            IsFit checked.entry.game.now seat.player.claim (sitting_of seat)) }
        ensures game { IfOk result (λ seat. seat.session.game ≡ checked.entry.game.now) }
        ensures none { result ≡ Err OpenFault.NoClaim
            → chosen_claim checked.entry.game.now checked.entry.cert.now side ≡ None }
        ensures missing { chosen_claim checked.entry.game.now checked.entry.cert.now side ≡ None
            → result ≡ Err OpenFault.NoClaim }
    {
        let mut seat = Seat::begin(alloc, checked, side)?;
        match seat.reply_all(replies) {
            Ok(()) => Ok(seat),
            Err(Memory) => Err(OpenFault::Memory),
        }
    }
}
