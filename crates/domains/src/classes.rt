use access_lists::AccessList;
use object_ids::{Name, ObjectId};

/// What stands at a path.
#[derive(Clone, Copy, Debug, PartialEq, Eq)]
pub enum NodeClass {
    /// A place for folders and domains.
    Folder,
    /// A domain with its number, which no other domain has, and the id of its root group.
    Domain { number: u64, root: ObjectId },
}

/// A folder or a domain, with its owner's name and its access list.
#[derive(Drop)]
pub struct Node {
    pub class: NodeClass,
    pub owner: Name,
    pub list: AccessList,
}
