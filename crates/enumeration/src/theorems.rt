// What holds of the tables for every cost. A call does nothing: its contract is the theorem.
ghost use Rattle.enumeration.specs.Advancing.{Advances};
ghost use Rattle.enumeration.specs.Filling.{AddingKeeps};

use ladder::rules::Cost;

// Entering the pending successor at a pose and drawing its least candidate finds the next rank there, and leaves sound tables sound.
pub fn advancing_keeps_the_tables_sound<C: Cost>()
    ensures { Advances C.Cost.rules }
{}

// Adding a rung to the sound tables of a ladder of which no track is taken leaves sound tables of one rung more; and so does each step of it, as far as it goes.
pub fn adding_keeps_the_tables_sound<C: Cost>()
    ensures { AddingKeeps C.Cost.rules }
{}
