// The table of the corners of a cell.
ghost use Rattle.std.specs.Prelude.{◌≡◌, ℕ, suc, ◌≤◌, take, replicate, slice_set};
ghost use Rattle.state.specs.Views.{corner_of, corners_of, labelling, shifted};

use crate::corner::Corner;

// The corners of a cell by their places: one more than there are goods. The records past them never matter.
#[derive(Clone, Copy)]
pub struct Table {
    pub records: [Corner; 9],
}

impl Table {
    // No corner placed: zeros for levels, and no labels.
    pub(crate) fn blank() -> Table
        ensures { (g : ℕ) → g ≤ 8 → corners_of g result.records ≡ replicate (suc g) (replicate g 0, 0) }
    {
        Table {
            records: [Corner {
                levels: [0; 8],
                label: 0,
            }; 9],
        }
    }

    // Puts a corner in.
    pub(crate) fn put(&mut self, i: usize, corner: Corner)
        requires { i ≤ 8 }
        ensures { (g : ℕ) → i ≤ g → corners_of g self.new.records ≡ slice_set (corners_of g self.old.records) i (corner_of g corner) }
    {
        self.records[i] = corner;
    }

    // One corner gets its label; all others keep theirs.
    pub(crate) fn set_label(&mut self, i: usize, label: u8)
        requires { i ≤ 8 }
        ensures { (g : ℕ) → i ≤ g → corners_of g self.new.records ≡ labelling (corners_of g self.old.records) i label }
    {
        self.records[i].label = label;
    }

    // One corner is dropped and another put in, which has no label. The corners between the two places move on by one.
    pub(crate) fn shift(&mut self, dropped: usize, place: usize, levels: &[u32; 8])
        requires { place ≤ 8 }
        ensures { (g : ℕ) → g ≤ 8 → place ≤ g → corners_of g self.new.records ≡ shifted g (corners_of g self.old.records) dropped place (take g levels.now) }
    {
        let gap = dropped.min(8);
        if gap < place {
            self.records.copy_within(gap + 1..place + 1, gap);
        } else {
            self.records.copy_within(place..gap, place + 1);
        }
        self.records[place] = Corner {
            levels: *levels,
            label: 0,
        };
    }
}
