// Labellings of price points.
#![tactic(auto)]

ghost use Rattle.std.specs.Prelude.{◌≡◌, ℕ, ◌≤◌, List};
ghost use Rattle.labelling.specs.Labels.{Rule};
ghost use Rattle.mesh.specs.Points.{goods_of, mesh_of, prices_of};

use mesh::point::PricePoint;

pub mod sheet;

// Each price point, with its goods and its mesh, has one label from 0 to 255.
pub trait Labelling {
    ghost rule: { Self → Rule };

    // The label of a point. Asking never refuses and changes nothing.
    fn label(&self, point: &PricePoint) -> u8
        ensures { result ≡ rule self.now (goods_of point.now) (mesh_of point.now) (prices_of point.now) };

    ghost small: { (l : Self) (g D : ℕ) (x : List ℕ) → rule l g D x ≤ 255 };
}
