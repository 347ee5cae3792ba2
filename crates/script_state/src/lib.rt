// A chip's record as a script sees it: its state on one line, and one field of it set to a value.
#![tactic(auto)]

mod parts;
mod setting;
mod state;

pub use parts::Shown;
pub use setting::with_setting;
