// The text of a flood.
use crate::flooding::Flood;
use cells::Triangulation;
use cells::cell::Cell;
use cells::wall::Way;
use std::fmt;

// Numbers, each after a blank.
#[derive(Clone, Copy)]
struct Row<'a, N>(&'a [N]);

impl<'a, N: fmt::Display> fmt::Display for Row<'a, N> {
    fn fmt<W: fmt::Write>(&self, f: &mut fmt::Formatter<W>) -> fmt::Result {
        for number in self.0 {
            write!(f, " {number}")?;
        }
        Ok(())
    }
}

// A sign for each direction.
#[derive(Clone, Copy)]
struct Signs<'a>(&'a [bool]);

impl<'a> fmt::Display for Signs<'a> {
    fn fmt<W: fmt::Write>(&self, f: &mut fmt::Formatter<W>) -> fmt::Result {
        for up in self.0 {
            write!(f, "{}", if *up { '+' } else { '-' })?;
        }
        Ok(())
    }
}

// A cell that was met: its base, its order and its directions, and its places.
#[derive(Drop)]
struct Met<'a, T: Triangulation> {
    flood: &'a Flood<'a, T>,
    cell: &'a Cell,
}

impl<'a, T: Triangulation> fmt::Display for Met<'a, T> {
    fn fmt<W: fmt::Write>(&self, f: &mut fmt::Formatter<W>) -> fmt::Result {
        let goods = self.flood.grid.goods();
        let base = Row(&self.cell.base[..goods]);
        let order = Row(&self.cell.order[..goods]);
        let directions = Signs(&self.cell.ups[..goods]);
        write!(f, "base{base} order{order} directions {directions}")?;
        for place in 0..=goods {
            self.write_place(f, place)?;
        }
        Ok(())
    }
}

impl<'a, T: Triangulation> Met<'a, T> {
    // The corner at a place, and what lies across it: the neighbour by its place in the list with the new place, or the number of a wall.
    fn write_place<W: fmt::Write>(&self, f: &mut fmt::Formatter<W>, place: usize) -> fmt::Result {
        let flood = self.flood;
        if let Ok(corner) = flood.tri.corner(flood.grid, self.cell, place) {
            write!(f, " |{}", Row(&corner[..flood.grid.goods()]))?;
        }
        match flood.across(self.cell, place) {
            Ok((next, Way::Moved(to))) => {
                let index = flood.find(&next).unwrap_or(flood.cells.len());
                write!(f, " -> {index} at {to}")
            }
            Ok((_, Way::Stopped(wall))) => write!(f, " wall {}", wall.number()),
            Err(_) => Ok(()),
        }
    }
}

// A heading, and a line for each cell.
impl<'a, T: Triangulation> fmt::Display for Flood<'a, T> {
    fn fmt<W: fmt::Write>(&self, f: &mut fmt::Formatter<W>) -> fmt::Result {
        let goods = self.grid.goods();
        let mesh = self.grid.mesh();
        let count = self.cells.len();
        writeln!(f, "goods {goods} mesh {mesh}: {count} cells")?;
        for cell in &self.cells {
            let met = Met {
                flood: &*self,
                cell,
            };
            writeln!(f, "{met}")?;
        }
        Ok(())
    }
}
