//! How the calls of an access end.
use target_machine::Call;

/// Why the target or the probe stopped the calls.
#[derive(Clone, Copy, Debug, PartialEq, Eq)]
pub enum StopCause {
    /// A bus fault that its call does not forgive: the response FAULT, 04.
    Faulted,
    /// A transfer that met more WAITs than the retry number allows: the response WAIT, 02.
    NoAnswer,
}

/// Where the calls were stopped. Units and entries of the journal are numbered from 1.
#[derive(Clone, Copy, Debug, PartialEq, Eq)]
pub struct Report {
    pub cause: StopCause,
    /// The unit of the first entry that is not confirmed, from 1 to 10,000,000.
    pub unit: u32,
    /// What that unit asks.
    pub what: Call,
    /// How many units were attempted. At a fault it is the number of the unit above.
    pub attempted: u32,
    /// How many entries of the journal were performed.
    pub accesses: u32,
    /// How many entries of the journal are known to have come to their end: good, or at a fault that
    /// was forgiven.
    pub confirmed: u32,
}

/// Why nothing more is made.
#[derive(Clone, Copy, Debug, PartialEq, Eq)]
pub enum Stop {
    /// The target or the probe stopped the calls.
    Cut(Report),
    /// The bench failed.
    BenchFault {
        /// How many entries of the journal were issued: pushed into a flight, or, for a poll or a
        /// probe command, with a packet that was given to the bench.
        issued: u32,
        /// How many of them lie in flights, polls and commands whose replies were all received.
        confirmed: u32,
    },
    /// The bench answered with a reply that its packet cannot have.
    ReplyBad,
    /// Memory was requested and refused. It ends nothing: the call asked nothing and sent nothing, and
    /// later calls are answered as if it had not been made.
    OutOfMemory,
}
