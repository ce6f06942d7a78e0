//! Generated suites, with ample memory.

use std::alloc::Global;
use suite_gen::generate;

fn has_both(alloc: Global) -> bool {
    let lines = b"electric-suite 1\nclass Gen.class\ntest Gen.t1\ntest Gen.t2\nend\n";
    match generate(alloc, 2) {
        Err(_) => false,
        Ok((text, class)) => text.as_slice() == lines.as_slice() && class.len() == 214,
    }
}

#[test]
fn two_tests_share_a_static(rt: HostRuntime) {
    assert!(rt; has_both(rt.alloc()));
}
