use access_lists::AccessList;
use object_ids::Name;

/// What is configured at the path of a folder or a domain.
#[derive(Drop)]
pub struct Setting {
    pub owner: Name,
    pub list: AccessList,
}
