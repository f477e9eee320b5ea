//! What holds of the definitions alone. Each law is a function that does nothing: its contract is the law.

ghost use Rattle.recorded_plays.specs.Laws.{OneReading, WrittenIsRead};

/// The contract of [`crate::read_plays`] leaves no choice: a section has one play, with one end.
pub fn one_reading()
    ensures { OneReading }
{}

/// The cards of a legal play that is written as a Play section are those that are read of it.
pub fn written_is_read()
    ensures { WrittenIsRead }
{}
