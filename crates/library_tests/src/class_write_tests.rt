use crate::class_files::{FAR, INNER, NAMED};
use class_reader::{ClassParts, read_class};
use class_write::write_class;
use std::alloc::Global;

/// A class file, the numbers of its fields and methods, and the bytes of it that are written.
struct Shape {
    bytes: &'static [u8],
    fields: usize,
    methods: usize,
    written: usize,
}

const SHAPES: [Shape; 3] = [
    Shape {
        bytes: &INNER,
        fields: 1,
        methods: 2,
        written: 368,
    },
    Shape {
        bytes: &NAMED,
        fields: 2,
        methods: 3,
        written: 285,
    },
    Shape {
        bytes: &FAR,
        fields: 0,
        methods: 1,
        written: 118,
    },
];

fn has_shape(parts: &ClassParts, shape: &Shape) -> bool {
    parts.major == 52 && parts.fields.len() == shape.fields && parts.methods.len() == shape.methods
}

// The class of these bytes as it is written, if it has this shape.
fn rewritten(alloc: Global, bytes: &[u8], shape: &Shape) -> Option<Vec<u8>> {
    if bytes.len() > 65535 {
        return None;
    }
    let class = read_class(alloc, bytes).ok()?;
    if has_shape(class.parts(), shape) {
        write_class(alloc, &class).ok()
    } else {
        None
    }
}

// Whether what is read is written without the attributes that are skipped, and that is read and written as it is.
fn is_written_back(alloc: Global, shape: &Shape) -> Option<bool> {
    let once = rewritten(alloc, shape.bytes, shape)?;
    let twice = rewritten(alloc, &once, shape)?;
    Some(once.len() == shape.written && once == twice)
}

// Whether the class without an attribute that is skipped is written as it was read.
fn is_kept(alloc: Global) -> Option<bool> {
    let far = rewritten(alloc, &FAR, &SHAPES[2])?;
    Some(far.as_slice() == FAR.as_slice())
}

#[test]
fn classes_of_the_usual_compiler_are_written_back(rt: HostRuntime) {
    for shape in &SHAPES {
        assert!(rt; is_written_back(rt.alloc(), shape).unwrap_or(false));
    }
    assert!(rt; is_kept(rt.alloc()).unwrap_or(false));
}
