// Lists the cells that a flood through neighbours reaches, for K1 and J1 and small sizes: each with its corners and what lies across each place.
#![tactic(auto)]

use cells::Triangulation;
use flooding::Flood;
use mesh::grid::Grid;
use todd::j1::J1;
use todd::k1::K1;

mod flooding;
mod printing;

// Every mesh from 1 to the most, for 2, 3 and 4 goods.
fn print_all<T: Triangulation>(rt: &HostRuntime, tri: &T, name: &str) -> anyhow::Result<()> {
    for (goods, most) in [(2, 6), (3, 4), (4, 3)] {
        for mesh in 1..=most {
            if let Ok(grid) = Grid::new(goods, mesh) {
                let flood = Flood::new(rt.alloc(), tri, grid)?;
                print!(rt; "{name} {flood}")?;
            }
        }
    }
    Ok(())
}

fn main(rt: HostRuntime) -> anyhow::Result<()> {
    print_all(&rt, &K1, "K1")?;
    print_all(&rt, &J1, "J1")
}
