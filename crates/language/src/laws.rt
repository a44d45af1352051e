// The theorems about the language, each in the contract of a function that does nothing else.
ghost use Rattle.language.specs.Examples.{StatementsStand, FunctionsStand, StopsStand, RefusalsStand};
ghost use Rattle.language.specs.Laws.{ScenariosCompare};
ghost use Rattle.language.specs.Positions.{PositionsStand};

// The ten worked positions come out as they should.
pub fn positions_stand()
    ensures { PositionsStand }
{}

// The examples come out as they should: each statement, function and stop, and what Open and Value refuse.
pub fn examples_stand()
    ensures statements { StatementsStand }
    ensures functions { FunctionsStand }
    ensures stops { StopsStand }
    ensures refusals { RefusalsStand }
{}

// Two sessions on one script with equal argument strings and equal answer books compare, whatever calls
// are made on each.
pub fn scenarios_compare()
    ensures { ScenariosCompare }
{}
