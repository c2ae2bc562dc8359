// A flood through neighbours.
use cells::Triangulation;
use cells::cell::Cell;
use cells::wall::Way;
use mesh::grid::Grid;
use mesh::point::PricePoint;
use mesh::refusal::Refusal;
use std::alloc::{AllocError, Global};

// How many cells are looked around from at most.
const MOST_CELLS: usize = 1000;

// The cells of a mesh that can be reached from the start cell, in the order in which they were met.
#[derive(Drop)]
pub struct Flood<'a, T: Triangulation> {
    pub tri: &'a T,
    pub grid: Grid,
    pub cells: Vec<Cell>,
}

impl<'a, T: Triangulation> Flood<'a, T> {
    pub(crate) fn new(heap: Global, tri: &'a T, grid: Grid) -> Result<Flood<'a, T>, AllocError> {
        let cells = Vec::new(heap);
        let mut flood = Flood { tri, grid, cells };
        if let Ok(cell) = flood.start() {
            flood.cells.push(cell)?;
        }
        for i in 0..MOST_CELLS {
            let Some(cell) = flood.cells.get(i).copied() else {
                break;
            };
            flood.meet_neighbours(&cell)?;
        }
        Ok(flood)
    }

    // The start cell of the point with all of the mesh on the last good, from which both triangulations start.
    fn start(&self) -> Result<Cell, Refusal> {
        let goods = self.grid.goods();
        let mesh = self.grid.mesh();
        let point = PricePoint::at_levels(goods, mesh, &[mesh; 8][..goods])?;
        self.tri.start(&point)
    }

    // What lies across a place of a cell, with the cell that one is in then: the one across, or at a wall the same.
    pub(crate) fn across(&self, cell: &Cell, place: usize) -> Result<(Cell, Way), Refusal> {
        let mut next = *cell;
        let pair = self.tri.across(self.grid, &mut next, place)?;
        Ok((next, Way::from(pair)))
    }

    fn meet_neighbours(&mut self, cell: &Cell) -> Result<(), AllocError> {
        for place in 0..=self.grid.goods() {
            if let Ok((next, Way::Moved(_))) = self.across(cell, place) {
                if self.find(&next).is_none() {
                    self.cells.push(next)?;
                }
            }
        }
        Ok(())
    }

    // Whether two records say the same cell: the entries past the goods never matter.
    fn same(&self, a: &Cell, b: &Cell) -> bool {
        let goods = self.grid.goods();
        a.base[..goods] == b.base[..goods]
            && a.order[..goods] == b.order[..goods]
            && a.ups[..goods] == b.ups[..goods]
    }

    // The place of a cell among those that were met.
    pub(crate) fn find(&self, cell: &Cell) -> Option<usize> {
        self.cells.iter().position(|met| self.same(met, cell))
    }
}
