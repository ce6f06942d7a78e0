//! The frames of a stack map.

use crate::suites::{Question, R_FILES, is_so};
use et_base::is_ascii_text;
use jvm_model::Program;
use std::alloc::Global;
use std::test::Fail;
use suite_load::Loaded;
use type_frames::{Frame, FrameFault, VType, read_frames};

fn is_overflow(stack: &[VType]) -> bool {
    match stack {
        [VType::Object(name)] => is_ascii_text(name.as_slice(), b"java/lang/StackOverflowError"),
        _ => false,
    }
}

// Whether the frames are that of `R.deep` alone: at its handler, without locals, and with the
// error alone on the stack.
fn are_of_deep(frames: &[Frame]) -> bool {
    match frames {
        [frame] => {
            frame.pc == 4 && frame.locals.is_empty() && is_overflow(frame.stack.as_slice())
        }
        _ => false,
    }
}

// Whether the frames of the last method, `R.deep`, are read, and none of the one before it.
fn are_read(alloc: Global, program: &Program) -> Result<bool, FrameFault> {
    let count = u32::try_from(program.methods.len()).unwrap_or(0);
    if count < 2 {
        return Ok(false);
    }
    let frames = read_frames(alloc, program, count - 1)?;
    let none = read_frames(alloc, program, count - 2)?;
    Ok(are_of_deep(frames.as_slice()) && none.is_empty())
}

// The frames of the last method are read.
#[derive(Drop)]
struct FramesAreRead;

impl Question for FramesAreRead {
    fn holds(&self, alloc: Global, suite: &Loaded) -> Result<bool, Fail> {
        Ok(are_read(alloc, suite.checked.program())?)
    }
}

#[test]
fn the_frame_of_a_handler_is_read(rt: HostRuntime) -> Result<(), Fail> {
    assert!(rt; is_so(rt.alloc(), &R_FILES, &FramesAreRead)?);
    Ok(())
}
