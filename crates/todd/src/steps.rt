// Steps that K1 and J1 share. Every function is safe for any record; what corners and crossings are is said for records that are cells.
ghost use Rattle.std.specs.Prelude.{◌≡◌, ◌+◌, ◌-◌, ◌<◌, ◌≤◌, true, take, slice_index, slice_index_or};
ghost use Rattle.std.specs.Option.{option_map};
ghost use Rattle.cells.specs.Ways.{wall_of, place_of};
ghost use Rattle.todd_laws.specs.Steps.{level, step, shift, stop};
ghost use Rattle.todd_laws.specs.Records.{Holds, corner_at, middle_across};
ghost use Rattle.todd.specs.Walk.{Crosses};

use cells::cell::Cell;
use cells::wall::{Wall, Way};
use mesh::grid::Grid;

// One level moved by one. Past the ends of its type it stays.
fn stepped(up: bool, x: u32) -> u32
    ensures { x < 4294967295 → result ≡ step up x }
{
    if up {
        x.saturating_add(1)
    } else {
        x.saturating_sub(1)
    }
}

// The place of level j among the levels, which count from 1; 0 is taken for 1.
pub(crate) fn index(j: usize) -> usize
    ensures { result ≡ j - 1 }
{
    j.saturating_sub(1)
}

// Moves level j by one. Past the last nothing moves.
pub(crate) fn shift_level(levels: &mut [u32], up: bool, j: u8)
    ensures { level levels.old j < 4294967295 → levels.new ≡ shift up levels.old j }
{
    let i = index(usize::from(j));
    if i < levels.len() {
        levels[i] = stepped(up, levels[i]);
    }
}

// What stands for level j, and what is given past the last.
fn item<T: Copy>(items: &[T], j: usize, past: T) -> T
    ensures { result ≡ slice_index_or items.now (j - 1) past }
{
    items.get(index(j)).copied().unwrap_or(past)
}

// The direction of level j.
pub(crate) fn upward(cell: &Cell, j: u8) -> bool
    ensures { result ≡ slice_index_or cell.now.ups (j - 1) true }
{
    item(&cell.ups, usize::from(j), true)
}

// The levels of the corner at a place. From each corner to the next the next level of the order moves by one in its direction.
pub(crate) fn corner_of(grid: &Grid, cell: &Cell, place: usize) -> [u32; 8]
    requires { place ≤ grid.now.goods }
    ensures { Holds grid.now cell.now → take grid.now.goods result ≡ corner_at grid.now cell.now place }
{
    let mut levels = cell.base;
    for &j in &cell.order[..place] {
        let up = upward(cell, j);
        shift_level(&mut levels, up, j);
    }
    levels
}

// Level j of the corner at a place; 0 past the last level, and 0 is taken for 1. No other level of that corner is made.
fn level_of(grid: &Grid, cell: &Cell, place: usize, j: usize) -> u32
    requires { place ≤ grid.now.goods }
    ensures { Holds grid.now cell.now → result ≡ level (corner_at grid.now cell.now place) j }
{
    let j = j.max(1);
    let i = index(j);
    if i >= grid.goods() {
        return 0;
    }
    let x = cell.base[i];
    for &k in &cell.order[..place] {
        // The order has each level once.
        if usize::from(k) == j {
            return stepped(cell.ups[i], x);
        }
    }
    x
}

// The n-th level of the order, from 0 on, at the corner at a place. Before its turn it is that of the base; after it, that one moved by one.
fn level_in_turn(grid: &Grid, cell: &Cell, place: usize, n: usize) -> u32
    requires { (place ≤ grid.now.goods) × (n < grid.now.goods) }
    ensures { Holds grid.now cell.now → result ≡ level (corner_at grid.now cell.now place) (slice_index cell.now.order n) }
{
    let j = cell.order[n];
    let x = item(&cell.base, usize::from(j), 0);
    if n < place {
        stepped(upward(cell, j), x)
    } else {
        x
    }
}

// The wall that keeps the n-th level of the order, from 0 on, from moving by one in a direction at the corner at a place of a cell.
#[inline(always)]
pub(crate) fn stop_at(grid: &Grid, cell: &Cell, place: usize, up: bool, n: usize) -> Option<Wall>
    requires { (place ≤ grid.now.goods) × (n < grid.now.goods) }
    ensures { Holds grid.now cell.now → option_map wall_of result ≡ stop grid.now.mesh up (corner_at grid.now cell.now place) (slice_index cell.now.order n) }
{
    let j = cell.order[n];
    let here = level_in_turn(grid, cell, place, n);
    match (up, j) {
        (true, 1) => (here == grid.mesh() + 1).then_some(Wall::Outer),
        (true, _) => {
            let above = j.saturating_sub(1);
            (here == level_of(grid, cell, place, usize::from(above))).then_some(Wall::Good(above))
        }
        (false, 1) if here == grid.mesh() => Some(Wall::Real),
        (false, _) => {
            let below = usize::from(j) + 1;
            (here == level_of(grid, cell, place, below)).then_some(Wall::Good(j))
        }
    }
}

// Crosses a cell at a place between the first and the last: the levels on both sides of it change places in the order.
#[tactic(auto, using(crate::proofs::Crossing::middle_moved))]
pub(crate) fn cross_middle(grid: &Grid, cell: &mut Cell, place: usize) -> Way
    requires { (1 ≤ place) × (place < grid.now.goods) }
    ensures crosses { Holds grid.now cell.old → Crosses grid.now.goods cell.old (middle_across grid.now cell.old place) result cell.new }
    ensures fits { place_of place result ≤ grid.now.goods }
{
    let j = cell.order[place];
    let up = upward(cell, j);
    if let Some(wall) = stop_at(grid, cell, place - 1, up, place) {
        return Way::Stopped(wall);
    }
    cell.order.swap(place - 1, place);
    Way::Moved(place)
}
