// The sheet: labels written down one by one, for two goods.
ghost use Rattle.std.specs.Prelude.{◌≡◌, ℕ, ◌≤◌, length, slice_index};

mod make;

// A mesh of 1 to 64, and a byte for each price point: one more than the mesh. The entries past them never matter.
#[derive(Clone, Copy)]
pub struct Sheet {
    mesh: u32,
    labels: [u8; 65],
    ghost range: { (1 ≤ mesh) × (mesh ≤ 64) },
    ghost room: { length labels ≡ 65 },
    ghost bytes: { (i : ℕ) → slice_index labels i ≤ 255 },
}
