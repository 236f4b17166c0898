//! What holds of every step, and of many.

ghost use Rattle.service_core.specs.Keeps.{DenialsKeep, OthersKeepTheCatalogue, RefusalsKeep};
ghost use Rattle.service_core.specs.Laws.{DomainsAreForgotten, LinkedThenMade, MadeAlone, OneObject};
ghost use Rattle.service_core.specs.Laws.{PlacesGoOn, PlacesInOrder, ReplaysAlike, StepsAlike};
ghost use Rattle.service_core.specs.Replays.{CallsAreReplays};

use chunk_owner::refusals_leave_all;
use register::decisions_keep;

/// The answers of any calls on a world, one after another, are those of the replay of their requests, and so is the world
/// after them. Only where memory runs out is the replay left.
pub fn calls_are_replays()
    ensures { CallsAreReplays }
{}

/// A denied request leaves the world but for the place that it took. A refused one leaves the catalogue, the run and all
/// objects; a serial is taken at most where an object was to be made.
pub fn unserved_requests_keep_the_world()
    ensures denied { DenialsKeep }
    ensures refused { RefusalsKeep }
{
    refusals_leave_all();
}

/// What neither makes, changes nor removes a folder or domain, nor puts an entry into its list, leaves the catalogue,
/// whatever it is answered.
pub fn other_requests_keep_the_catalogue()
    ensures { OthersKeepTheCatalogue }
{}

/// Calls have the places in order, one each, whatever they are answered.
pub fn places_in_order()
    ensures order { PlacesInOrder }
    ensures next { PlacesGoOn }
{
    decisions_keep();
}

/// The places and tickets that were given, how many lanes there are, and what a journal holds already don't matter: worlds
/// that are alike but for these answer each request alike, and so any requests one after another.
pub fn places_and_tickets_tell_nothing()
    ensures step { StepsAlike }
    ensures replay { ReplaysAlike }
{}

/// A new object is made where its link was done, and alone without a link; an operation on one object is one act on that
/// object, and each other object stays; once a domain is removed, no id of its number has an object.
pub fn granted_requests_in_other_words()
    ensures linked { LinkedThenMade }
    ensures alone { MadeAlone }
    ensures one { OneObject }
    ensures forgotten { DomainsAreForgotten }
{
    decisions_keep();
}
