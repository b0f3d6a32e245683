// The theorems, each on the contract of a function that does nothing else: for every kind, over histories of every length.
ghost use Rattle.law.specs.Clocks.{ClocksDoNotCount};
ghost use Rattle.law.specs.Holding.{HoldingShrinks};
ghost use Rattle.law.specs.Laws.{LawFollows};
ghost use Rattle.law.specs.Refusals.{Lent};
ghost use Rattle.law.specs.Forks.{NewRowsFromOld};
ghost use Rattle.law.specs.Telling.{OwedIsTold};
ghost use Rattle.law.specs.Tests.{ClosedBoundsDecide};

use kinds::kind::Kind;

// A row is held exactly if its filled variables meet the closed bounds among themselves and no latest stamp of an open one is before now.
#[tactic(auto, using(crate::proofs::Tests::tests_decide))]
pub fn closed_bounds_decide<K: Kind>()
    ensures { ClosedBoundsDecide K.group }
{}

// What is held at a later moment was held, with the same events, at every earlier one.
pub fn holding_shrinks<K: Kind>()
    ensures { HoldingShrinks K.group }
{}

// What is held or recognised with a new event comes from a row held before it, or from nothing, by leaving the event out.
pub fn new_rows_from_old<K: Kind>()
    ensures { NewRowsFromOld K.group }
{}

// If each call tells just its own lines, then of each loading just the lines owed are told, each once.
#[tactic(auto, using(crate::proofs::Telling::lawful_tells))]
pub fn owed_is_told<K: Kind>()
    ensures { OwedIsTold K.group }
{}

// Whatever clock calls two watches accept besides, after each event both hold the same rows and have told the same lines.
#[tactic(auto, using(crate::proofs::Clocks::clocks_do_not_count_lem))]
pub fn clocks_do_not_count<K: Kind>()
    ensures { ClocksDoNotCount K.group }
{}

// From what single calls answer and tell follows the law for every history: numbers, runs, rows, lines, and the independence from clock calls.
#[tactic(auto, using(crate::proofs::Laws::law_follows_lem))]
pub fn law_follows<K: Kind>()
    ensures { (lent : Lent) → LawFollows K.Kind lent }
{}
