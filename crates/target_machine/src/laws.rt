//! What follows from the definitions: each law is the contract of a function that does nothing.
mod accesses;
mod lists;
mod ranges;
mod registers;
mod starts;

pub use accesses::{
    an_access_keeps, an_access_of_no_memory, an_access_of_one_ap, an_access_of_the_dp,
    csw_keeps_stored_bits, faults_set_stickyerr, rdbuff_decides_nothing, what_rdbuff_has,
};
pub use lists::{
    lists_join, lists_on_targets_that_agree, passing_lists, the_dp_acts_beside_the_aps,
    what_is_issued,
};
pub use ranges::{actions_stay_in_range, lines_stay_in_range, start_is_in_range};
pub use registers::registers_are_named;
pub use starts::{passing_stays_fresh, start_is_fresh};
