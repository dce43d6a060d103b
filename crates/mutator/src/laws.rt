// The theorems on calls. Each function is there for its contract alone, which is the theorem.
ghost use Rattle.mutator.specs.Laws.{AlikeAnswers, AlikeStep, StayingValid};
ghost use Rattle.mutator.specs.Examples.{WorkedScripts};
ghost use Rattle.mutator.specs.TableLaws.{TableHolds};

// Alike worlds answer every script alike: no mutator tells them apart.
// The number that it answers says nothing; the signature is part of the interface.
pub fn alike_answers() -> u8
    ensures { AlikeAnswers }
{
    0
}

// One call says the same of alike worlds and leaves them alike.
pub fn alike_step()
    ensures { AlikeStep }
{}

// Worlds begin valid and with no weight; a call keeps them valid and within the room, and adds no more weight than the object that it makes.
pub fn staying_valid()
    ensures { StayingValid }
{}

// Scripts whose answers can be followed by hand.
pub fn worked_scripts()
    ensures { WorkedScripts }
{}

// Every call is in the table of calls, and the table says what comes of it where there is no room.
pub fn table_holds()
    ensures { TableHolds }
{}
