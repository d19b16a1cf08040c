//! A certificate while it is lowered: what it claims at each place, and how a claim is lowered to
//! what is known there.
#![tactic(auto)]

mod assured;
pub mod begun;
mod draft;
pub mod extent;
mod first;
pub mod inner;
pub mod kept;
mod kept_rows;
pub mod laws;
pub mod lower;
mod place;
mod sight;
pub mod sights;
mod spot;
mod start;
mod subject;
mod target;
mod used;
mod wakes;
mod writable;

pub use assured::{lower_assured, lower_at};
pub use draft::{Draft, Size, Traces, patience_after, rest_after, rounds_after, tires_after};
pub use first::unreached;
pub use place::{Part, Place};
pub use sight::Sight;
pub use spot::{Spot, fitting, of_command};
pub use subject::Subject;
pub use target::Target;
pub use wakes::{
    begin_pass, enter_function, holds_back, look, look_again, note_lowered, note_place, wake_late,
};
pub use writable::Writable;
