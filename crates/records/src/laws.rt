// The law of the input: its contract is a theorem about the definitions.
ghost use Rattle.records.specs.Inputs.{ReadToTheEnd};

// Any bytes are read, record by record, to their end or to the first damaged record.
pub fn read_to_the_end()
    ensures { ReadToTheEnd }
{}
