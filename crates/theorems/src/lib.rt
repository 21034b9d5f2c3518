// The theorems over the definitions and over the promises of the calls, each as the contract of a
// function with an empty body: what no contract names could go unproved unseen. Nothing calls them.
#![tactic(auto)]

mod grouping;
mod none;
mod paging;
mod reading;
mod sameness;

pub use grouping::{
    associative, calls_associative, calls_counted, calls_idempotent,
    complement_depends_on_grouping, idempotent, result_as_table,
};
pub use none::{joined_rows_take, none_is_shown, unions_keep_cells};
pub use paging::{fused_has_pages, no_cell_is_lost, pages_are_counted, pages_are_whole};
pub use reading::{made_is_read, written_again};
pub use sameness::same_calls;
