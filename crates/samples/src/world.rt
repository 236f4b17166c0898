//! A world that holds a sample.

ghost use Rattle.std.specs.Prelude.{◌≡◌, codes, IfOk};
ghost use Rattle.documents.specs.Reader.Loads.{Loads};
ghost use Rattle.service_core.specs.Worlds.{seen};
ghost use Rattle.samples.specs.Trees.{sample_tree};
ghost use Rattle.samples.specs.Worlds.{HoldsSample, IsFirst};

use crate::document::document_text;
use crate::requests::{sample_path, sample_user};
use documents::parts::cells_have_elements;
use documents::reader::{Loaded, read_document};
use domains::Catalogue;
use json_import::adoption::adopt;
use register::Register;
use service_core::World;
use std::alloc::{AllocError, Global};

/// A world in memory with the sample of a number as the domain `/sample` of the user `sample`.
pub(crate) fn sample_world(alloc: Global, number: u32) -> Result<World, AllocError>
    ensures { IfOk result (λ world. HoldsSample number (seen world)) }
{
    cells_have_elements();
    let loaded = load(alloc, number)?;
    let mut world = empty_world(alloc)?;
    let path = sample_path(alloc)?;
    let user = sample_user(alloc)?;
    match adopt(alloc, &mut world, &path, &user, loaded) {
        Ok(_) => Ok(world),
        Err(_) => Err(AllocError),
    }
}

// What the document holds.
fn load(alloc: Global, number: u32) -> Result<Loaded, AllocError>
    ensures { IfOk result (Loads (sample_tree number)) }
{
    let text = document_text(alloc, number)?;
    match read_document(alloc, text.as_bytes()) {
        Ok(loaded) => Ok(loaded),
        Err(_) => Err(AllocError),
    }
}

// A world of one lane in run 1, with the folder `/` alone.
fn empty_world(alloc: Global) -> Result<World, AllocError>
    ensures { IfOk result (λ world. IsFirst world.register) }
{
    let user = sample_user(alloc)?;
    let catalogue = Catalogue::new(alloc, user)?;
    World::new(alloc, Register::new(alloc, catalogue, 1, 1))
}
