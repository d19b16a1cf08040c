//! What is known at each place of a script and after lists, by what a certificate claims, and what
//! the flow rules ask of it.
#![tactic(auto)]

mod around;
mod asked;
mod behind;
mod claims;
mod course;
pub mod elements;
mod fault;
mod gains;
pub mod laws;
mod place;
mod slots;

pub use around::{Around, Loops, alone, in_function};
pub use asked::Asked;
pub use behind::{Behind, is_settled, meet, met, pipe_behind, without_job};
pub use claims::Claims;
pub use course::{Course, begun};
pub use fault::{Fault, Least};
pub use gains::{
    enter_operator, gain_action, gain_assigned, gain_redirects, gain_variable, gain_word,
};
pub use place::Place;
