use cell_region::{Block, Region};
use et_base::NoMemory;
use std::alloc::Global;

fn is_cut(alloc: Global) -> Result<bool, NoMemory> {
    let mut region = Region::new(alloc);
    region.grow(3, 7u32)?;
    let mark = region.mark();
    region.set(1, 5);
    region.grow(2, 9u32)?;
    region.release(mark);
    let block = region.grow(1, 4u32)?;
    Ok(block == Block { start: 3, len: 1 } && region.get(1) == 5)
}

#[test]
fn a_region_is_cut_at_its_mark_and_grows_again(rt: HostRuntime) {
    assert!(rt; is_cut(rt.alloc()).unwrap_or(false));
}
