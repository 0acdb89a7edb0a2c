//! What an answer's head settles, and the machine that returns the body behind it as it comes (RFC 9112, section 6.3).
#![tactic(auto)]

mod bodies;
mod courses;
mod fields;
mod filtering;
mod forms;
mod framings;
mod heads;
mod laws;
mod outcomes;
mod passages;

pub use courses::Course;
pub use forms::{AnswerOutcome, Form, Framed, Returned};
pub use framings::{BodyPlan, HeaderLines, Terms};
pub use laws::settled_at_end;
pub use passages::Passage;
