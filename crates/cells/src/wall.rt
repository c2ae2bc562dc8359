// Walls, and what lies across a place, as a triangulation tells it by a pair of numbers.
ghost use Rattle.std.specs.Prelude.{◌≡◌};
ghost use Rattle.cells.specs.Cells.{wall_code};
ghost use Rattle.cells.specs.Ways.{wall_of, way_of};

// The outer wall, the real wall, or the wall of a good, where its price is 0.
#[derive(Clone, Copy, Debug, PartialEq, Eq)]
pub enum Wall {
    Outer,
    Real,
    Good(u8),
}

// What lies across a place: a cell, told by the place of its new corner there, or a wall.
#[derive(Clone, Copy, Debug, PartialEq, Eq)]
pub enum Way {
    Moved(usize),
    Stopped(Wall),
}

impl Wall {
    // The number that tells the wall.
    pub fn number(self) -> u8
        ensures { result ≡ wall_code (wall_of self) }
    {
        match self {
            Wall::Outer => 9,
            Wall::Real => 10,
            Wall::Good(good) => good,
        }
    }
}

impl From<(u8, u8)> for Way {
    ghost from_gives = { λ pair way. way ≡ way_of pair };

    fn from((place, number): (u8, u8)) -> Way {
        match number {
            0 => Way::Moved(usize::from(place)),
            9 => Way::Stopped(Wall::Outer),
            10 => Way::Stopped(Wall::Real),
            good => Way::Stopped(Wall::Good(good)),
        }
    }
}
