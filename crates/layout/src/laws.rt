// What is proved of rows on examples. Each function stands for its contract alone.
ghost use Rattle.layout.specs.Examples.{SoundRows};

// A small sound row with its world, and a row that is unsound for each reason there is.
pub fn sound_rows()
    ensures { SoundRows }
{}
