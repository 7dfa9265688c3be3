// The position of a commit within the whole chain, starting at 0.
#[derive(Clone, Copy)]
pub struct Position(pub u32);
