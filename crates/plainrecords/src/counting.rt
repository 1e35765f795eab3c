// The moves of the lists of rank, concentrate and distribute, counted without a list.
ghost use Rattle.std.specs.Prelude.{◌≡◌, ◌-◌, ◌*◌, true};
ghost use Rattle.array.specs.Cells.{is_side};
ghost use Rattle.answers.specs.declared.Moves.{Moves};

use answers::Moves;
use lists::total_moves;

// Two of them are swaps.
pub(crate) fn moves_of(side: usize) -> Moves
    ensures { is_side side ≡ true → result ≡ record { electronic = 7 * (side - 1); swaps = 2 } }
{
    Moves {
        electronic: total_moves(side).saturating_sub(2),
        swaps: 2,
    }
}
