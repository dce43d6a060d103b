// The theorems on worlds. Each function is there for its contract alone, which is the theorem.
ghost use Rattle.world.specs.Laws.{AlikeWeighs, AlikeEquivalence, ReachedClosed, WeightByMembers};

// Alike worlds weigh the same, so that they are full at the same calls.
// The number that it answers says nothing; the signature is part of the interface.
pub fn alike_weighs() -> u8
    ensures { AlikeWeighs }
{
    0
}

// A valid world is alike to itself, and to be alike goes both ways and through a third world.
pub fn alike_equivalence()
    ensures { AlikeEquivalence }
{}

// What the rounds find in a valid world is what the slots lead to, from place to place: objects, each once.
pub fn reached_closed()
    ensures { ReachedClosed }
{}

// A world weighs what any list with just the reached objects, none twice, weighs, and no more than all its objects.
pub fn weight_by_members()
    ensures { WeightByMembers }
{}
