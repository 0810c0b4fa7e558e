// The plain book of a resolver, by which its calls are specified.
#![tactic(auto)]

ghost use Rattle.book.specs.Cases.{Worked};
ghost use Rattle.book.specs.Runs.{RunsKeep};

use ladder::rules::Cost;

// The book answers as worked by hand.
pub fn worked_book()
    ensures { Worked }
{}

// Every run of calls on a new book keeps what is promised, for every lawful cost.
pub fn every_run_keeps_the_promise<C: Cost>()
    ensures { RunsKeep C.Cost.rules }
{}
