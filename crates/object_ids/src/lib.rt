//! Names, the paths of folders and domains, and the ids of objects.
#![tactic(auto)]

mod id_laws;
mod id_map;
mod ids;
mod limits;
mod name_map;
mod names;
mod paths;
mod puts;
mod texts;

pub use id_laws::id_texts_in_order;
pub use id_map::IdMap;
pub use ids::{Kind, ObjectId, lane};
pub use limits::LimitKind;
pub use name_map::{NameMap, Named};
pub use names::{Name, NameFault};
pub use paths::{
    DomainPath, MAX_PART_LEN, MAX_PATH_LEN, PathFault, parent_text, path_text, read_path,
};
pub use puts::{NoName, PutFault};
pub use texts::{id_text, read_id};
