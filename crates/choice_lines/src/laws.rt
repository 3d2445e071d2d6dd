// The laws of what lines say, as the contract of a call that does nothing.
ghost use Rattle.choice_lines.specs.Laws.{OneReading, ReadOrRefused, OneRefusal};

/// An input is read or refused, and that in one way.
pub fn lines_tell()
    ensures one_reading { OneReading }
    ensures exclusive { ReadOrRefused }
    ensures unique { OneRefusal }
{}
