// The position of a commit within its file, starting at 0.
#[derive(Clone, Copy)]
pub struct Position(pub u32);
