//! Laws of single steps, for the crates above. Each is the contract of a function that does nothing.

ghost use Rattle.lazy_core.specs.Laws.{FaultsAreOfTheFile, FillsChangeNothingSeen, UnfilledIsUntouched};
ghost use Rattle.lazy_core.specs.Steps.{NeedHasALast, NeedIsWanted, TryNeedIsWanted};

/// After a legal history a key that is not filled still holds what the file says.
pub fn unfilled_is_untouched()
    ensures { UnfilledIsUntouched }
{}

/// After a legal history a fault that a key holds is the one that the file has there, and names the key.
pub fn faults_are_of_the_file()
    ensures { FaultsAreOfTheFile }
{}

/// A further fill changes what no key shows, what no edit answers, and no reply but the number of filled keys.
pub fn fills_change_nothing_seen()
    ensures { FillsChangeNothingSeen }
{}

/// A key that a core needs for a query is wanted at the history as it stands then: what `publish` asks for.
pub fn need_is_wanted()
    ensures { NeedIsWanted }
{}

/// The keys that a core needs for an edit have a last, which is wanted for all of them at the history as it stands
/// then: what `publish` asks for.
pub fn try_need_is_wanted()
    ensures last { NeedHasALast }
    ensures wanted { TryNeedIsWanted }
{}
