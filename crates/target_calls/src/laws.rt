//! What follows from the definitions: each law is the contract of a function that does nothing.
mod calls;
mod ends;
mod entries;
mod marks;
mod needs;
mod ranges;
mod worlds;

pub use calls::{calls_join, count_of_results, first_calls, one_call_more, stopped_calls};
pub use ends::ends_of_calls;
pub use entries::{commands_of_a_delay, entries_join, passing_entries, performed_entries};
pub use marks::{last_mark, marks_change_nothing};
pub use needs::{need_points_add, uses_after_a_need_point};
pub use ranges::calls_stay_in_range;
pub use worlds::{limits_of_answers, unanswered_calls};
