// Start cells.
ghost use Rattle.std.specs.Prelude.{◌≡◌, ℕ, suc, ◌-◌, ◌%◌, ◌<◌, ◌≤◌, true, false, length, ◌==◌, slice_index};
ghost use Rattle.mesh.specs.Points.{goods_of, mesh_of, prices_of};
ghost use Rattle.cells.specs.Cells.{shape_of};
ghost use Rattle.todd_laws.specs.J1.{j1, all_even};
ghost use Rattle.todd_laws.specs.Steps.{start_shape};
ghost use Rattle.todd.specs.Walk.{Raised};

use cells::cell::Cell;
use mesh::point::PricePoint;

// The number is even.
pub(crate) fn is_even(n: u32) -> bool
    ensures { result ≡ (n % 2 == 0) }
{
    n % 2 == 0
}

// All the numbers are even.
fn all_even(numbers: &[u32]) -> bool
    ensures { result ≡ all_even numbers.now }
{
    numbers.iter().all(|n| is_even(*n))
}

// A walk in J1 may start at the point: all its prices but the last are even.
pub(crate) fn admits(point: &PricePoint) -> bool
    ensures { result ≡ (j1 (goods_of point.now) (mesh_of point.now)).admitted (prices_of point.now) }
{
    let goods = point.goods();
    let prices = point.prices();
    all_even(&prices[..goods - 1])
}

// Each level and one.
fn raised(levels: [u32; 8]) -> [u32; 8]
    ensures { Raised levels result }
{
    levels.map(|level| level.saturating_add(1))
}

// The numbers from the goods down to 1, with zeros after them.
fn falling(goods: usize) -> [u8; 8]
    requires { goods ≤ 8 }
    ensures size { length result ≡ 8 }
    ensures entries { (k : ℕ) → k < 8 → slice_index result k ≡ goods - k }
{
    std::array::from_fn(|k| goods.saturating_sub(k) as u8)
}

// The start cell whose base is the point: all levels go up, the first one first.
#[tactic(auto, using(crate::proofs::Starting::order_up, crate::proofs::Starting::ways_up))]
pub(crate) fn start_up(point: &PricePoint) -> Cell
    ensures { shape_of (goods_of point.now) result ≡ start_shape (goods_of point.now) true (prices_of point.now) }
{
    Cell {
        base: point.levels(),
        order: [1, 2, 3, 4, 5, 6, 7, 8],
        ups: [true; 8],
    }
}

// The start cell whose base is one above the point in each level: all levels go down, the last one first.
pub(crate) fn start_down(point: &PricePoint) -> Cell
    ensures { shape_of (goods_of point.now) result ≡ start_shape (goods_of point.now) false (prices_of point.now) }
{
    Cell {
        base: raised(point.levels()),
        order: falling(point.goods()),
        ups: [false; 8],
    }
}
