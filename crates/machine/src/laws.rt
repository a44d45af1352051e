// The theorems about machines, each in the contract of a function that does nothing else.
ghost use Rattle.machine.specs.Examples.{AnswersStand};
ghost use Rattle.machine.specs.Laws.{Comparison};

// Two courses of calls from equal starts compare, over any machine with cores of any type.
pub fn courses_compare<C>()
    ensures { Comparison C }
{}

// Each refusal and each reason comes where it should on a small machine.
pub fn answers_stand()
    ensures { AnswersStand }
{}
