// The three unions of two table images. Each call writes its result into the lent buffers, or refuses and changes nothing.
#![tactic(auto)]

mod complement;
mod fused;
mod minimal;
mod outer;
mod questions;

pub use complement::complement_union;
pub use minimal::minimum_union;
pub use outer::outer_union;
