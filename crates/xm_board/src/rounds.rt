//! What the next round changes in what a board keeps.

ghost use Rattle.xm_board.specs.Inner.Rounds.{AreCleared};

use xm_model::List;
use xm_trace::Move;

/// Lets all moves go. The room stays.
pub fn clear_all(moves: &mut [List<Move>])
    ensures { AreCleared moves.old moves.new }
{
    for p in 0..moves.len() {
        moves[p].truncate(0);
    }
}
