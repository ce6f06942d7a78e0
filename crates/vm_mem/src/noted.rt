use jvm_model::Touch;

/// A touch, with the number of the test that made it.
#[derive(Drop)]
pub struct Noted {
    pub test: u32,
    pub touch: Touch,
}
