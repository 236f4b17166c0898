//! The trees of answers and their statuses: what is true of each, whatever the world.

ghost use Rattle.service_core.specs.AnswerTrees.Exact.{ActsAreExact, AnswersAreExact};
ghost use Rattle.service_core.specs.AnswerTrees.Exact.{DecisionsAreExact, RefusalsAreExact};
ghost use Rattle.service_core.specs.AnswerTrees.Readable.{AnswersAreReadable, CallsAreReadable, NoneAreShallow};
ghost use Rattle.service_core.specs.AnswerTrees.Readable.{RefusalsAreReadable, ShallowStaysShallow};
ghost use Rattle.service_core.specs.AnswerTrees.Readable.{SoundIsShallow};
ghost use Rattle.service_core.specs.AnswerTrees.Statuses.{AnswersHaveDoneStatuses};

/// What is done for a request is answered with a body that has no number with a fraction or an exponent, so that it has
/// exactly one compact text. Refusals and denials are told of by [`replies_have_no_floats`].
pub fn bodies_have_no_floats()
    ensures { AnswersAreExact }
{}

/// The same of its parts: of what the register answers by itself, of each step on the objects of a lane, and of the bodies of
/// refusals.
pub fn replies_have_no_floats()
    ensures decided { DecisionsAreExact }
    ensures acted { ActsAreExact }
    ensures refused { RefusalsAreExact }
{}

/// Where the types in a world nest no deeper, and its shapes have no more axes, than their limits, the body of each answer
/// nests no deeper than JSON is read, and so does that of a refusal in any world. A world without objects is within these
/// limits, and each sound request leaves it so.
pub fn bodies_read_back()
    ensures answers { AnswersAreReadable }
    ensures none { NoneAreShallow }
    ensures stays { ShallowStaysShallow }
    ensures sound { SoundIsShallow }
    ensures calls { CallsAreReadable }
    ensures refused { RefusalsAreReadable }
{}

/// What is done for a request is answered with 200, 201 or 204.
pub fn answers_have_done_statuses()
    ensures { AnswersHaveDoneStatuses }
{}
