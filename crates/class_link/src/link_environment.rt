//! What references are resolved with.

use crate::literals::Literals;
use crate::names::ClassNames;
use jvm_model::Program;

/// What references are resolved with: the program without its bodies' instructions, the names of its classes and its
/// string constants.
#[derive(Drop)]
pub struct LinkEnvironment {
    pub program: Program,
    pub names: ClassNames,
    pub texts: Literals,
}
