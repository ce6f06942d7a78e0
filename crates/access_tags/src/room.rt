//! Room in a region for a cell of a given number.

ghost use Rattle.std.specs.Prelude.{◌≡◌, ◌<◌, ℕ, length, get_or, OnOk};

use cell_region::Region;
use et_base::NoMemory;

/// Grows a region by cells with the content `fill` until it has the cell with this number.
pub fn make_room<T: Copy>(cells: &mut Region<T>, at: u64, fill: T) -> Result<(), NoMemory>
    ensures room { OnOk result (at < length cells.new) }
    ensures kept { OnOk result ((i : ℕ) → get_or cells.new i fill ≡ get_or cells.old i fill) }
{
    let Some(end) = at.checked_add(1) else {
        return Err(NoMemory {});
    };
    let len = cells.len();
    if end > len {
        cells.grow(end - len, fill)?;
    }
    Ok(())
}
