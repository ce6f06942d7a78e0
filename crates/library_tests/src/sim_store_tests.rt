use et_base::{NoMemory, Units};
use sim_store::{Part, Store};
use std::alloc::Global;

const NAME: [u16; 1] = [97];

// A file with a text, and nothing else.
fn file(alloc: Global) -> Result<Store, NoMemory> {
    let name = Units::from_slice(alloc, &NAME)?;
    let mut store = Store::new(alloc);
    store.put(Part::File, name, Some(Units::new(alloc)))?;
    Ok(store)
}

fn has_the_file_alone(alloc: Global) -> Result<bool, NoMemory> {
    let name = Units::from_slice(alloc, &NAME)?;
    let store = file(alloc)?;
    Ok(store.has(Part::File, &name) && !store.has(Part::Prop, &name))
}

#[test]
fn a_store_keeps_files_and_properties_apart(rt: HostRuntime) {
    assert!(rt; has_the_file_alone(rt.alloc()).unwrap_or(false));
}
