//! Laws over the definitions alone, each the contract of a function that does nothing.
ghost use Rattle.ste_program.specs.Order.{OneRefusal, ReportedIsNotRefused};
ghost use Rattle.ste_program.specs.Reading.{OneReading};

/// Two texts have one reading at most, but for the numbers of covers and where expressions lie in
/// memory.
pub fn one_reading()
    ensures { OneReading }
{}

/// At most one refusal is the first.
pub fn one_refusal()
    ensures { OneRefusal }
{}

/// What is reported is not refused.
pub fn reported_is_not_refused()
    ensures { ReportedIsNotRefused }
{}
