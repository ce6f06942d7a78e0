use class_pool::names::{argument_units, is_field_descriptor, is_unqualified};
use class_pool::{PoolFault, read_pool, write_pool};
use et_base::{UtfFault, units_of_modified};
use std::alloc::Global;

// One entry of each kind, between two other bytes.
const BYTES: [u8; 98] = [
    9, 0, 22, 1, 0, 1, 65, 7, 0, 1, 1, 0, 1, 102, 1, 0, 1, 73, 12, 0, 3, 0, 4, 9, 0, 2, 0, 5, 1, 0,
    1, 109, 1, 0, 4, 40, 74, 41, 86, 12, 0, 7, 0, 8, 10, 0, 2, 0, 9, 11, 0, 2, 0, 9, 3, 255, 255,
    255, 254, 4, 63, 128, 0, 0, 5, 0, 0, 0, 0, 0, 0, 0, 7, 6, 63, 240, 0, 0, 0, 0, 0, 0, 8, 0, 1,
    15, 1, 0, 6, 16, 0, 8, 18, 0, 0, 0, 9, 8,
];

const FAULTS: [(&[u8], PoolFault); 3] = [
    (&[0, 2, 1, 0, 2, 65], PoolFault::Truncated { at: 5 }),
    (&[0, 2, 2], PoolFault::BadTag { at: 2, tag: 2 }),
    (
        &[0, 3, 1, 0, 1, 46, 7, 0, 1],
        PoolFault::BadDescriptor { at: 7 },
    ),
];

// Whether the pool is read up to the last byte, and written as it stands there.
fn is_written_back(alloc: Global) -> Option<bool> {
    let (pool, after) = read_pool(alloc, &BYTES, 1).ok()?;
    let written = write_pool(alloc, &pool).ok()?;
    Some(after == 97 && written.as_slice() == &BYTES[1..97])
}

#[test]
fn reads_and_writes_each_kind(rt: HostRuntime) {
    assert!(rt; is_written_back(rt.alloc()).unwrap_or(false));
}

#[test]
fn names_the_first_fault(rt: HostRuntime) {
    for (bytes, fault) in FAULTS {
        assert!(rt; read_pool(rt.alloc(), bytes, 0).err() == Some(fault));
    }
}

fn counts_arguments(alloc: Global) -> Result<bool, UtfFault> {
    let method = units_of_modified(alloc, b"(IDLjava/lang/Thread;)Ljava/lang/Object;")?;
    Ok(argument_units(method.as_slice()) == Some(4))
}

fn is_no_member_name(alloc: Global) -> Result<bool, UtfFault> {
    let class = units_of_modified(alloc, b"java/lang/Thread")?;
    Ok(!is_unqualified(class.as_slice()) && !is_field_descriptor(class.as_slice()))
}

// The examples of JVMS 4.2.1, 4.3.2 and 4.3.3.
#[test]
fn tells_names_and_descriptors(rt: HostRuntime) {
    assert!(rt; counts_arguments(rt.alloc()).unwrap_or(false));
    assert!(rt; is_no_member_name(rt.alloc()).unwrap_or(false));
}
