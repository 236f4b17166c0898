ghost use Rattle.std.specs.Prelude.{◌≡◌, string_bytes, IfOk};
ghost use Rattle.access_lists.specs.GroupKeys.{group_key};

use object_ids::Name;
use std::alloc::{AllocError, Global};

// What stands before a group's name in a list.
const GROUP: &str = "g:";

// A group's name, and the name of the group's entry in a list.
#[derive(Drop)]
pub(crate) struct Group {
    pub(crate) name: Name,
    key: String,
    ghost keyed: { string_bytes key ≡ group_key name },
}

impl Group {
    pub(crate) fn new(alloc: Global, name: Name) -> Result<Group, AllocError>
        ensures { IfOk result (λ group. group.name ≡ name) }
    {
        let mut key = String::from_str(alloc, GROUP)?;
        key.push_str(name.text())?;
        Ok(Group { name, key })
    }

    pub(crate) fn copy(&self) -> Result<Group, AllocError>
        ensures { IfOk result (λ group. group.name ≡ self.now.name) }
    {
        Ok(Group {
            name: self.name.copy()?,
            key: self.key.clone()?,
        })
    }

    // The name of the group's entry.
    pub(crate) fn key(&self) -> &str
        ensures { result.now ≡ group_key self.now.name }
    {
        self.key.as_str()
    }
}
