//! What a journal keeps of a world: a keeping cuts what changed into a batch and appends it, so that whatever a crash
//! leaves is a world as it stood at some keeping, and no earlier one than the last that was answered Ok.

mod keeping;
mod kept;
mod laws;

pub use keeping::Keeping;
pub use kept::Kept;
pub use laws::images_are_kept;
