// What is claimed of sheets, each on a function of its own.
ghost use Rattle.grammar.specs.Examples.{WorkedSheets};
ghost use Rattle.grammar.specs.Laws.{ReportedIsLeast, FaultlessIsRead, ReadIsFaultless, WrittenIsReadBack};

// Small sheets mean what they should, and bad ones have the faults that they should.
pub fn worked_sheets()
    ensures { WorkedSheets }
{}

// The fault that is reported is a fault of the sheet, and the least by line, then number, then word; a sheet has a meaning exactly where it
// has no fault.
pub fn least_fault_reported()
    ensures least { ReportedIsLeast }
    ensures read { FaultlessIsRead }
    ensures faultless { ReadIsFaultless }
{}

// Every lawful board can be written as a sheet, and reading that sheet gives the board back.
pub fn written_is_read_back()
    ensures { WrittenIsReadBack }
{}
