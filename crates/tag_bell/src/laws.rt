//! Laws of callers that wait. These functions do nothing: the contract of each is a law over all histories of a shared
//! map.
ghost use Rattle.tag_bell.specs.Order.{FirstComeFirstTold, TurnsAreInOrder};
ghost use Rattle.tag_bell.specs.Rounds.{OneRoundIsEnough};
ghost use Rattle.tag_bell.specs.Safety.{NobodyIsForgotten, NoTagIsForgotten, NobodyRestsBesideATag, EachStateIsSafe};

/// Between any two steps of any schedule: if a caller is asleep and a tag is free, some other caller, which is not
/// asleep, is on the way to that tag for its sake.
pub fn nobody_is_forgotten<R>()
    ensures { NobodyIsForgotten R }
{}

/// The same for a caller that is listed and has tried this tag in vain, whether or not it has tried the others.
pub fn no_tag_is_forgotten<R>()
    ensures { NoTagIsForgotten R }
{}

/// If nobody has anything to see to, and nobody is told and not up yet, and somebody is asleep, then no tag is free.
pub fn nobody_rests_beside_a_free_tag<R>()
    ensures { NobodyRestsBesideATag R }
{}

/// All three hold in every state of the table that keeps its rule.
pub fn each_state_is_safe<R>()
    ensures { EachStateIsSafe R }
{}

/// After a look at all who wait, at most one look at each berth and one try for each that is listed end all that a
/// caller has to see to: a try that fails need not be made again.
pub fn one_round_is_enough<R>()
    ensures { OneRoundIsEnough R }
{}

/// Whoever tells by turns tells nobody before one that listed itself earlier with a lower turn, and is still listed.
pub fn first_come_first_told<R>()
    ensures { FirstComeFirstTold R }
{}

/// Until the clock has told each turn once, whoever takes its turn later has a higher one. A caller lists itself only with
/// a turn that it took.
pub fn turns_are_in_order<R>()
    ensures { TurnsAreInOrder R }
{}
