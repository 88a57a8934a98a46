//! What the maps that fit tell of the others.
ghost use Rattle.std.specs.Prelude.{◌↔◌, IfSome, IsTrue};
ghost use Rattle.pg_game.specs.declared.game.Game.{Game};
ghost use Rattle.pg_maps.specs.GridMaps.{number_of};
ghost use Rattle.pg_maps.specs.Images.{Fits, AreFitting};

use crate::grid_map::GridMap;

/// Whether the map fits a game, as far as those of lower numbers that fit tell: the maps that fit
/// are a group, so where the map done twice is a lower one that doesn't fit, it doesn't fit either,
/// and where one that fits is followed by the map, both together fit exactly where the map does.
pub fn told_by(maps: &[GridMap], m: GridMap) -> Option<bool>
    ensures { IfSome result
        (λ yes. (g : Game) → AreFitting g (number_of m) maps.now → (IsTrue yes ↔ Fits g m)) }
{
    let twice = m.followed_by(m);
    if twice.number() < m.number() && !maps.contains(&twice) {
        return Some(false);
    }
    for a in maps {
        let both = a.followed_by(m);
        if both.number() < m.number() {
            return Some(maps.contains(&both));
        }
    }
    None
}
