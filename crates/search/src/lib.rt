// The mathematics of the walk: each function's contract is a theorem over the definitions of specs/.
//
// The edits in must-fail/ change a definition, and the theorems then fail. What each shows to be shut out:
// none_without_testing: a walk that says none and tests nothing; tests_first_candidate_only: one that tests only the first leg of a rank;
// never_takes_back: one that gives up where the first ranking of an unready leg leads nowhere; goes_on_after_ready: one that tests more legs
// after a ready leg fitted; open_partner_counts_nothing: one that counts an open partner as if it took no time; ranked_leg_stays_open: one that
// leaves a ranked leg among the open ones; try_not_counted: tries that are not reported; bound_without_own_try: a bound that counts no try of
// its own rank; machine_goes_on_after_ready: a resumed walk that tests more than the walk does. The edits whose names begin with stored_ do the
// same to what a program stores: it tests the first leg again, goes on after a ready leg, has its orders from the top, any delay, any leg.
#![tactic(auto)]

ghost use Rattle.search.specs.Example.{BoundOfTwelve, ExampleLawful, FoundAfterFive, FoundAtTheLimit, MeetsToTheNanosecond, NoneAfterThree, NoneBelowTheLimit, ReadyLegFirst};
ghost use Rattle.search.specs.Laws.{FoundMeets, NoneMeets, WithinBound, WithinLocalBound};
ghost use Rattle.search.specs.Machine.{EndedWhereNoTryIsLeft, OneTryLess, RunMakesWhatIsLeft, StartHasAll};
ghost use Rattle.search.specs.Stored.{CompleteHasItsOrders, EveryStageIsKept, FirstStageHasAll, FoundDelaysAreStored, OverWhereNoTryIsLeft, TriesMakeWhatIsLeft, TryIsAStep};

// Where the walk ends with orders, they meet the net.
pub fn found_meets()
    ensures { FoundMeets }
{}

// Where the walk ends with none, no orders meet the net.
pub fn none_meets()
    ensures { NoneMeets }
{}

// The tries of a walk are at most the bound; where no message crosses, at most n(n+1)/2 added over the buses.
pub fn within_bound()
    ensures { WithinBound × WithinLocalBound }
{}

// A walk that stops and resumes makes the tries of the whole walk, and comes to its outcome.
pub fn run_makes_what_is_left()
    ensures start { StartHasAll }
    ensures step { OneTryLess }
    ensures run { RunMakesWhatIsLeft }
    ensures end { EndedWhereNoTryIsLeft }
{}

// The walk by what a program stores of it: the ranked legs with their delays, and the leg that is tested next.
pub fn stored_walk()
    ensures steps { TryIsAStep }
    ensures run { TriesMakeWhatIsLeft }
    ensures start { FirstStageHasAll }
    ensures end { OverWhereNoTryIsLeft }
    ensures kept { EveryStageIsKept }
    ensures orders { CompleteHasItsOrders }
    ensures delays { FoundDelaysAreStored }
{}

// The worked example: it keeps what the theorems assume; its walks, its orders, the order of its tests and its bound.
pub fn worked_example()
    ensures lawful { ExampleLawful }
    ensures found { FoundAfterFive × FoundAtTheLimit }
    ensures none { NoneBelowTheLimit × NoneAfterThree }
    ensures meets { MeetsToTheNanosecond }
    ensures ready { ReadyLegFirst }
    ensures bound { BoundOfTwelve }
{}
