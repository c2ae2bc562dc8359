// The goods and the mesh, in range.
ghost use Rattle.std.specs.Prelude.{◌≡◌, ◌≤◌};
ghost use Rattle.mesh.specs.Range.{most};

mod make;

pub use make::finest;

// 2 to 8 goods, and a mesh of 1 to the most for that many goods.
#[derive(Clone, Copy)]
pub struct Grid {
    goods: usize,
    mesh: u32,
    ghost goods_fit: { (2 ≤ goods) × (goods ≤ 8) },
    ghost mesh_fits: { (1 ≤ mesh) × (mesh ≤ most goods) },
}
