//! What the one seat that is left knows of all draws.
ghost use Rattle.std.specs.Prelude.{◌≡◌};
ghost use Rattle.ov_draw.specs.Drawer.{IsEnded};

use crate::draws::{DrawSeat, Draws};
use crate::hand::Settle;

/// Ends the counters, where every other seat was joined into this one, and gives the seat back.
///
/// Of each key its draws are the numbers from the first on, each once, none left out and none above 4294967295. Of a key
/// that some seat found spent they reach 4294967295.
pub fn ended(draws: Draws, seat: DrawSeat) -> DrawSeat
    requires seat { seat.of ≡ draws }
    requires whole { seat.share ≡ 4294967296 }
    ensures same { result ≡ seat }
    ensures ended { IsEnded seat.of.first seat.drawn seat.spent }
{
    let DrawSeat { mut seat } = seat;
    let _word = draws.table.shared.load::<Settle>(&mut seat, 0);
    DrawSeat { seat }
}
