//! What follows from the definitions: each law is the contract of a function that does nothing.
ghost use Rattle.sequence_meaning.specs.Valid.{ChecksLeaveNothingMissing};

/// The run of a checked set is never lost, in any world. It never meets a name that is not visible, a function that is not in the table, or
/// a wrong count or kind of arguments. Nor does it meet a sequence that the set does not have, a chain of more than 32 sequences, or a loop
/// without a timeout. So it is the same with the test for these and without.
pub fn checks_leave_nothing_missing()
    ensures { ChecksLeaveNothingMissing }
{}
