// From a board to the net that is planned: each function's contract is a theorem over the definitions of specs/.
#![tactic(auto)]

ghost use Rattle.std.specs.Prelude.{map};
ghost use Rattle.boards.specs.Example.{ExampleBoards};
ghost use Rattle.boards.specs.Laws.{BoardLawful, LegsDistinct, LegsListed, LegsOfMessages, LegsRise, WalkLawsHold, WalkLawsOver};

use bus::rule::BusRule;

// The net of every sound board is lawful, and so the theorems of the walk hold of it.
pub fn board_law()
    ensures lawful { BoardLawful }
    ensures walk { WalkLawsHold }
{}

// What the lists of a board's net hold.
pub fn board_lists()
    ensures rise { LegsRise }
    ensures distinct { LegsDistinct }
    ensures listed { LegsListed }
    ensures whose { LegsOfMessages }
{}

// The boards of any rules that a caller lends, whatever their make, are sound, and the theorems of the walk hold of them.
pub fn search_law<R: BusRule>(rules: &[R])
    ensures { WalkLawsOver (map (λ s. R.BusRule.answer s) rules.now) }
{}

// Some boards: that they are sound, their nets, and what their walks come to.
pub fn example_boards()
    ensures { ExampleBoards }
{}
