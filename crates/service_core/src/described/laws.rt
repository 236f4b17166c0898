//! Records that describe a world have no fault, and describe no other.

ghost use Rattle.service_core.specs.Described.Told.{InstallsAreOne, RegistersAreOne, WorldsAreOne};
ghost use Rattle.service_core.specs.Described.Faultless.{FaultsAreOne, RegistersStand, WorldsStand};

use chunk_owner::installs::{described_records_stand, records_tell_one};

/// Records that describe a register are whole: none of them is at fault, and none is missing. They describe one run and one
/// catalogue.
pub fn described_registers_stand()
    ensures faultless { RegistersStand }
    ensures one { RegistersAreOne }
{}

/// Records that describe a world have no key at fault, over whatever number of lanes. No body is empty, as none is of what a
/// journal holds.
pub fn described_worlds_stand()
    ensures { WorldsStand }
{
    described_records_stand();
}

/// Of the keys at fault one is named: two installs of the same records, over as many lanes, name the same.
pub fn one_key_is_named()
    ensures { FaultsAreOne }
{}

/// Records describe one world: its run, its catalogue and its objects, each of which can be spelled. An install finds one
/// world in them, with all that was given out.
pub fn records_tell_one_world()
    ensures one { WorldsAreOne }
    ensures installed { InstallsAreOne }
{
    records_tell_one();
}
