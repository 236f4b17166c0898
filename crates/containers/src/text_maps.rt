//! Maps from texts and from byte strings, which contracts see as finite maps.
//!
//! A key is looked up by a borrowed text or a borrowed byte string, which takes no memory.

mod byte_map;
mod nexts;
mod replace;
mod text_map;

pub use byte_map::ByteMap;
pub use nexts::entry_behind;
pub use text_map::TextMap;
