// The lines of what an auction that has settled says.

ghost use Rattle.std.specs.Prelude.{◌≡◌};
ghost use Rattle.listing.specs.declared.line.Line.TheVariants.{Cleared, Award};

use crate::line::Line;
use clearing::Settlement;
use ranking::RollRow;

impl From<Settlement> for Line {
    ghost from_gives = { λ settled r. r ≡ Cleared settled.price settled.ground };

    fn from(settled: Settlement) -> Line {
        Line::Cleared {
            price: settled.price,
            ground: settled.ground,
        }
    }
}

impl From<RollRow> for Line {
    ghost from_gives = { λ row r. r ≡ Award row.name row.capacity row.years };

    fn from(row: RollRow) -> Line {
        // a variable, as the check covers no field that is an array and is put into a literal straight
        let name = row.name;
        Line::Award {
            name,
            capacity: row.capacity,
            years: row.years,
        }
    }
}
