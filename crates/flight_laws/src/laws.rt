//! What follows from the definitions: each law is the contract of a function that does nothing.
ghost use Rattle.flight_laws.specs.Actions.{ActionBench, ActionDone, ActionWait, FaultForgiven};
ghost use Rattle.flight_laws.specs.Coming.{AllCame, NoneStopped, PassComes, PassGiven, ResultGiven, SkipComes, SmallGiven};
ghost use Rattle.flight_laws.specs.Ending.{ActionFails, BegunCame, BegunStands, FlightEnds, FlightFails, PollEnds};
ghost use Rattle.flight_laws.specs.Flights.{BenchFlies, FaultFlies, ValuesCame, WaitFlies, WholeFlies};
ghost use Rattle.flight_laws.specs.Flying.{CameStands, OpenStands};
ghost use Rattle.flight_laws.specs.Forgiving.{AloneFlight};
ghost use Rattle.flight_laws.specs.GoesOn.{FlushGoes, PushGoes};
ghost use Rattle.flight_laws.specs.Packets.{FewBlocks, FewPackets, FirstBlock, FullFlight, NeedBlock, NeedPoint, NextBlock, SplitBlock, SparingKeeps, WritesAreFew};
ghost use Rattle.flight_laws.specs.Pushing.{EntryPushed, JournalGrew, PlanGives, ValueGiven};
ghost use Rattle.flight_laws.specs.Room.{ActionRoom, CallRoom, ForgivenRoom, PushRoom};
ghost use Rattle.flight_laws.specs.Sending.{ActionSends, CallSends, FinishSends, FlyingSends, ForgivenSends, PushSends, WholeSends};
ghost use Rattle.flight_laws.specs.Small.{NotSmall, SmallAlone, SmallByCfg};
ghost use Rattle.flight_laws.specs.Stopping.{BegunStay, CameBefore, CameConfirmed, ResultsStay, StopsAtFault, StopsAtWait};
ghost use Rattle.flight_laws.specs.UnderWay.{FrontPerformed};

/// Exactly the entries were performed that are made.
pub fn made_entries_were_performed()
    ensures front { FrontPerformed }
{}

/// A flight that came whole leaves its entries made, and gives the values of its accesses.
pub fn a_whole_flight()
    ensures whole { WholeFlies }
    ensures values { ValuesCame }
{}

/// A flight that met a fault, in which a retry ended, or whose bench failed has performed what its report says.
pub fn a_cut_flight()
    ensures fault { FaultFlies }
    ensures wait { WaitFlies }
    ensures bench { BenchFlies }
{}

/// An access that has no end has come as far as its confirmed entries, and has the results of the calls that came.
pub fn an_access_without_an_end()
    ensures open { OpenStands }
    ensures came { CameStands }
{}

/// What the journal gains is pushed entry by entry.
pub fn entries_come_into_flights()
    ensures grew { JournalGrew }
    ensures pushed { EntryPushed }
{}

/// The values of a flight that came whole are what the entries of its reads give.
pub fn values_of_a_flight()
    ensures read { ValueGiven }
    ensures plan { PlanGives }
{}

/// Where the calls stop at a cut, by the numbers of its report; what stays of those before it; and of which calls the entries are that
/// were begun.
pub fn where_calls_stop()
    ensures fault { StopsAtFault }
    ensures wait { StopsAtWait }
    ensures lines { CameBefore }
    ensures confirmed { CameConfirmed }
    ensures results { ResultsStay }
    ensures begun { BegunStay }
{}

/// Polls and commands of the probe, whole or in part; and a fault that is forgiven.
pub fn polls_and_commands()
    ensures done { ActionDone }
    ensures bench { ActionBench }
    ensures wait { ActionWait }
    ensures forgiven { FaultForgiven }
{}

/// Starting packets keep their bound, where each flight that was sent because there was no room is full.
pub fn starting_packets()
    ensures few { FewPackets }
    ensures full { FullFlight }
    ensures need { NeedPoint }
{}

/// For writes at neighbouring addresses they keep a bound by blocks.
pub fn starting_packets_of_writes()
    ensures few { FewBlocks }
    ensures first { FirstBlock }
    ensures split { SplitBlock }
    ensures next { NextBlock }
    ensures need { NeedBlock }
    ensures writes { WritesAreFew }
    ensures kept { SparingKeeps }
{}

/// What an access keeps goes on over a flight that came whole, and over a call whose accesses are pushed.
pub fn an_access_goes_on()
    ensures flush { FlushGoes }
    ensures push { PushGoes }
{}

/// Which units end because their AP has no large addresses: none for which CFG is not read, and else by what it shows.
pub fn small_units()
    ensures none { NotSmall }
    ensures cfg { SmallByCfg }
    ensures alone { SmallAlone }
{}

/// What an access keeps in the middle of a call: a call or a `finish` adds entries, which are pushed, sent, or made by themselves.
pub fn a_flight_is_sent()
    ensures flying { FlyingSends }
    ensures call { CallSends }
    ensures finish { FinishSends }
    ensures push { PushSends }
    ensures whole { WholeSends }
    ensures action { ActionSends }
    ensures forgiven { ForgivenSends }
{}

/// The probe's work leaves room for what is pushed, done or forgiven next, while the calls are not too many.
pub fn there_is_room()
    ensures push { PushRoom }
    ensures action { ActionRoom }
    ensures forgiven { ForgivenRoom }
    ensures call { CallRoom }
{}

/// From its beginning on, and after its end, an access has come as far as the contract of accesses says, and keeps its results.
pub fn an_access_began()
    ensures stands { BegunStands }
    ensures came { BegunCame }
{}

/// An access ends where its flight or a poll is cut, or its bench fails: what is then true of it, and where its calls stop.
pub fn an_access_ends()
    ensures flight { FlightEnds }
    ensures poll { PollEnds }
    ensures flight_fails { FlightFails }
    ensures action_fails { ActionFails }
{}

/// Where all entries were made no call stops, and each result is given by an entry of its call.
pub fn all_calls_came()
    ensures none_stops { NoneStopped }
    ensures came { AllCame }
    ensures result { ResultGiven }
{}

/// What one call more adds to the results and to the skips, by what its steps came to.
pub fn one_call_came()
    ensures skip { SkipComes }
    ensures pass { PassComes }
    ensures given { PassGiven }
    ensures small { SmallGiven }
{}

/// The steps of a unit made alone begin with those of a flight, whether that faults at its last access or not.
pub fn flights_of_units_alone()
    ensures steps { AloneFlight }
{}
