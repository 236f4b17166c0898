//! Titles of links.

ghost use Rattle.std.specs.Prelude.{◌↔◌, IsTrue};
ghost use Rattle.groups_links.specs.Titles.{IsGoodTitle};

use crate::MAX_TITLE;
use object_ids::Name;

/// Whether a name is a title: it has at most [`MAX_TITLE`] bytes, and no slash.
pub fn good_title(title: &Name) -> bool
    ensures { IsTrue result ↔ IsGoodTitle title.now }
{
    let bytes = title.text().as_bytes();
    bytes.len() <= MAX_TITLE && bytes.iter().all(|byte| *byte != b'/')
}
