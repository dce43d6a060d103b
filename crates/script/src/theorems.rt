// The theorems on reading: each function's contract is one, and the check asks for its proof.
ghost use Rattle.script.specs.Spelling.{ReadsWhatIsSpelt, ReadsLines, ReadsSizeThatIsSpelt, ReadsOpenings, ReadsBack};

// A line is read as the call that it spells, and refused if it spells none; so is each line of a script.
pub fn calls_are_read_exactly()
    ensures calls { ReadsWhatIsSpelt }
    ensures lines { ReadsLines }
{}

// The same of the first line of a script.
pub fn heap_sizes_are_read_exactly()
    ensures sizes { ReadsSizeThatIsSpelt }
    ensures openings { ReadsOpenings }
{}

// What is printed of a call is read as that call.
pub fn calls_are_read_back()
    ensures { ReadsBack }
{}
