// Making a sheet, and its labels.
ghost use Rattle.std.specs.Prelude.{◌≡◌, drop, sum};
ghost use Rattle.labelling.specs.Sheets.{sheet_of, sheet_for, rule_of};
ghost use Rattle.mesh.specs.Points.{prices_of};
ghost use Rattle.mesh.specs.Refusals.{answered};
ghost use Rattle.labelling.specs.Bytes.{sheet-byte};

use super::Sheet;
use crate::Labelling;
use mesh::point::PricePoint;
use mesh::refusal::Refusal;
use tables::table_of;

// The second level of a point: the sum of its prices from good 2 on.
fn second_level(point: &PricePoint) -> u32
    ensures { result ≡ sum (drop 1 (prices_of point.now)) }
{
    let levels = point.levels();
    levels[1]
}

impl Sheet {
    // Refuses a mesh outside 1 to 64, then anything but one byte more than the mesh.
    pub fn new(mesh: u32, bytes: &[u8]) -> Result<Sheet, Refusal>
        ensures { answered sheet_of result ≡ sheet_for mesh bytes.now }
    {
        if !(1..=64).contains(&mesh) {
            return Err(Refusal::SheetMeshOutOfRange);
        }
        if bytes.len() != mesh as usize + 1 {
            return Err(Refusal::SheetLength);
        }
        let labels = table_of(bytes, 0);
        Ok(Sheet { mesh, labels })
    }
}

impl Labelling for Sheet {
    ghost rule = { rule_of };

    ghost small = { λ s g D x. sheet-byte s g D x };

    #[tactic(auto, using(crate::proofs::SheetLabel::sheet_label))]
    fn label(&self, point: &PricePoint) -> u8 {
        if point.goods() != 2 || point.mesh() != self.mesh {
            return 0;
        }
        self.labels[second_level(point) as usize]
    }
}
