//! What holds of every decision, and of every register that is kept.

ghost use Rattle.std.specs.Prelude.{◌≡◌};
ghost use Rattle.domains.specs.Contents.{IsCatalogue};
ghost use Rattle.flush_journal.specs.Records.{Held};
ghost use Rattle.register.specs.Decided.{IsRegister, RegisterState};
ghost use Rattle.register.specs.Kept.{AreTexts, RegisterSays};
ghost use Rattle.register.specs.Laws.{CallsLeave, CatalogueStays, ChangesStaySince, CutsTellRegister};
ghost use Rattle.register.specs.Laws.{DecisionsContinue, DecisionsIssue, DecisionsKeep, DecisionsKeepWhatIsSaid};
ghost use Rattle.register.specs.Laws.{DeniedExactly, DrawsTickets, GrantsAreIssues, GrantsAreOfDomains};
ghost use Rattle.register.specs.Laws.{KeptRegistersSay, NoDomainExactly, OthersKeepRegister, TakesPlace};
ghost use Rattle.register.specs.Laws.{ToldIsDescribed};
ghost use Rattle.register.specs.Marks.{no_marks};
ghost use Rattle.register.specs.Installed.Registers.{DescribesRegister};

/// Each decision takes one place. A denied or refused request leaves all else as it was, and a granted one has the turns of
/// its own steps. What a decision changes is marked: what is held tells all else as it did.
pub fn decisions_keep()
    ensures place { TakesPlace }
    ensures unserved { DecisionsKeep }
    ensures granted { GrantsAreIssues }
    ensures says { DecisionsKeepWhatIsSaid }
{}

/// Where nothing of a register is marked, what is held describes it: each of its records keeps to the rules, and an install
/// finds the same run, catalogue and next number.
pub fn kept_registers_are_described()
    ensures { (d : RegisterState) (held : Held) → d.marks ≡ no_marks → IsRegister d
        → IsCatalogue d.catalogue → AreTexts d.catalogue → RegisterSays d held
        → DescribesRegister held d.run d.catalogue }
{}

/// A request is denied exactly where a folder or domain of the wanted class stands at the path that decides and its access
/// list doesn't give the caller the right; and it is refused for want of a folder or domain exactly where none of the wanted
/// class stands there.
pub fn verdicts_come_exactly()
    ensures denied { DeniedExactly }
    ensures no_domain { NoDomainExactly }
{}

/// The run and the number of lanes stay from decision to decision, and neither the next serial nor the next domain's number
/// falls; a domain stood before, or has the next number and its root the next serial. Each ticket is the next of its lane, and
/// no other is given; a grant is of the domain at the request's path, and tells the run and the next serial that the register
/// has then. A call leaves the register that its verdict tells.
pub fn decisions_continue()
    ensures continues { DecisionsContinue }
    ensures issues { DecisionsIssue }
    ensures grants { GrantsAreOfDomains }
    ensures left { CallsLeave }
{}

/// Where what is held told the register as it was at its last cut, and each change since was marked, it tells the register as
/// it stands after a cut. Nothing else that is held matters, and what is told describes the register to an install.
pub fn cuts_tell_registers()
    ensures drawn { (d : RegisterState) → DrawsTickets d }
    ensures catalogue { (d : RegisterState) → CatalogueStays d }
    ensures kept { KeptRegistersSay }
    ensures since { ChangesStaySince }
    ensures cuts { CutsTellRegister }
    ensures others { OthersKeepRegister }
    ensures described { ToldIsDescribed }
{}
