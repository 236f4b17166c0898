ghost use Rattle.std.specs.Prelude.{◌≡◌, [], ◌++◌, ◌∷◌, IfOk, OnOk, OnErr};
ghost use Rattle.std.specs.Arc.{arc_value};
ghost use Rattle.access_lists.specs.InForce.{anonymous_caller};
ghost use Rattle.access_lists.specs.GroupNames.{names_of, shared_names};

use crate::group::Group;
use object_ids::Name;
use std::alloc::{AllocError, Global};
use std::marker::Model;
use std::sync::Arc;

/// Names of groups in a row. Copies of them share the names, and take no memory.
#[derive(Drop)]
pub struct Names {
    alloc: Global,
    groups: Option<Arc<Vec<Group>>>,
}

impl Model for Names {
    ghost use Rattle.std.specs.Prelude.{ℕ, List};
    ghost use Rattle.access_lists.specs.GroupNames.{shared_names};

    ghost Value = { List (List ℕ) };

    ghost view = { λ a. shared_names a.groups };
}

impl Names {
    /// No name. It takes no memory.
    pub fn new(alloc: Global) -> Names
        ensures { result ≡ [] }
    {
        Names {
            alloc,
            groups: None,
        }
    }

    /// Adds a name at the end, and makes the name of its entry. Copies stay as they were. An error leaves the names as
    /// they were.
    pub fn push(&mut self, name: Name) -> Result<(), AllocError>
        ensures ok { OnOk result (self.new ≡ self.old ++ name ∷ []) }
        ensures err { OnErr result (self.new ≡ self.old) }
    {
        let group = Group::new(self.alloc, name)?;
        push_group(self.alloc, &mut self.groups, group)
    }

    // The groups in their order.
    pub(crate) fn groups(&self) -> &[Group]
        ensures { names_of result.now ≡ self.now }
    {
        match &self.groups {
            Some(groups) => groups.as_slice(),
            None => &[],
        }
    }

    /// The same names once more, which both share. It takes no memory.
    pub fn copy(&self) -> Result<Names, AllocError>
        ensures { IfOk result (λ names. names ≡ self.now) }
    {
        Ok(Names {
            alloc: self.alloc,
            groups: self.groups.clone()?,
        })
    }
}

fn push_group(
    alloc: Global,
    groups: &mut Option<Arc<Vec<Group>>>,
    group: Group,
) -> Result<(), AllocError>
    ensures ok { OnOk result (shared_names groups.new ≡ shared_names groups.old ++ group.name ∷ []) }
    ensures err { OnErr result (shared_names groups.new ≡ shared_names groups.old) }
{
    match groups {
        Some(shared) => push_shared(alloc, shared, group),
        None => {
            *groups = Some(alone(alloc, Vec::new(alloc), group)?);
            Ok(())
        }
    }
}

// Adds a group at the end, to a copy of the others where these have another owner.
fn push_shared(alloc: Global, groups: &mut Arc<Vec<Group>>, group: Group) -> Result<(), AllocError>
    ensures ok { OnOk result (names_of (arc_value groups.new).items
        ≡ names_of (arc_value groups.old).items ++ group.name ∷ []) }
    ensures err { OnErr result (names_of (arc_value groups.new).items
        ≡ names_of (arc_value groups.old).items) }
{
    match Arc::get_mut(groups) {
        Some(own) => Ok(own.push(group)?),
        None => {
            *groups = alone(alloc, copies(alloc, groups.as_slice())?, group)?;
            Ok(())
        }
    }
}

// Groups and one more, with one owner.
fn alone(alloc: Global, groups: Vec<Group>, group: Group) -> Result<Arc<Vec<Group>>, AllocError>
    ensures { IfOk result (λ shared. names_of (arc_value shared).items
        ≡ names_of groups.items ++ group.name ∷ []) }
{
    let mut groups = groups;
    groups.push(group)?;
    Ok(Arc::new(alloc, groups)?)
}

fn copies(alloc: Global, groups: &[Group]) -> Result<Vec<Group>, AllocError>
    ensures { IfOk result (λ copies. names_of copies.items ≡ names_of groups.now) }
{
    let mut copies = Vec::new(alloc);
    for group in groups {
        copies.push(group.copy()?)?;
    }
    Ok(copies)
}

/// Who asks: a user, where one is known, and the groups of that user.
#[derive(Drop)]
pub struct Caller {
    pub user: Option<Name>,
    pub groups: Names,
}

impl Caller {
    /// A caller who showed no token: without user and groups. It takes no memory.
    pub fn anonymous(alloc: Global) -> Caller
        ensures { result ≡ anonymous_caller }
    {
        Caller {
            user: None,
            groups: Names::new(alloc),
        }
    }

    /// The same caller once more. The groups' names are shared by both.
    pub fn copy(&self) -> Result<Caller, AllocError>
        ensures { IfOk result (λ caller. caller ≡ self.now) }
    {
        let groups = self.groups.copy()?;
        match &self.user {
            Some(name) => Ok(Caller {
                user: Some(name.copy()?),
                groups,
            }),
            None => Ok(Caller { user: None, groups }),
        }
    }
}
