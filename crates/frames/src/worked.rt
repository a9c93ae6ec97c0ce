// The worked numbers of the frame times and of two delays, as one theorem about the definitions.
ghost use Rattle.frames.specs.Worked.{WorkedNumbers};

pub fn worked_numbers()
    ensures { WorkedNumbers }
{}
