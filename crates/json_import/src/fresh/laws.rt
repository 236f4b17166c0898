//! Laws of renaming, which no program calls: the contract of each is a law.

ghost use Rattle.json_import.specs.Fresh.Laws.{DatasetsStand, DatatypesStand, GroupsStand};
ghost use Rattle.json_import.specs.Fresh.Laws.{IdsAreDistinct, IdsAreFresh, IdsHaveObjects, NothingElseStands};
ghost use Rattle.json_import.specs.Fresh.Laws.{RootIsFirst, SerialsRise, SerialsRun};
ghost use Rattle.json_import.specs.Fresh.Laws.{DocumentsStandForOne, OthersStay, RootStands};

/// Each object of a document stands at the id for which its text stands, and the objects of other domains stay.
pub fn objects_stand_at_their_ids()
    ensures root { RootStands }
    ensures groups { GroupsStand }
    ensures datasets { DatasetsStand }
    ensures datatypes { DatatypesStand }
    ensures others { OthersStay }
{}

/// The ids are fresh ones of the objects' kinds, no two the same. Their serials follow the root's one after another: those of
/// the other groups, of the datasets and of the datatypes, each collection in byte order of the texts. Of the new domain
/// nothing stands but the objects of the document.
pub fn ids_are_fresh()
    ensures fresh { IdsAreFresh }
    ensures distinct { IdsAreDistinct }
    ensures serials { SerialsRun }
    ensures order { SerialsRise }
    ensures root { RootIsFirst }
    ensures only { NothingElseStands }
    ensures objects { IdsHaveObjects }
{}

/// What is read from a document has each text for one object, and a group for its root.
pub fn documents_stand_for_one()
    ensures { DocumentsStandForOne }
{}
