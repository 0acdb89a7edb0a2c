// What is kept of a connection that was served.
use px_ends::{Ends, Outside};
use px_notes::Session;
use std::marker::Model;

/// A connection that was served, seen by the states of its ends: its place among those accepted, from 0, the number of the
/// configuration with which it was handed out, and its session.
#[derive(Drop)]
pub struct Parted<A: Outside> {
    pub number: u64,
    pub handed: u64,
    pub session: Session,
    pub ends: Ends<A>,
}

impl<A: Outside> Model for Parted<A> {
    ghost use Rattle.px_doors.specs.Parted.{PartedState};

    ghost Value = { PartedState };

    ghost view = { λ p. record { number = p.number; handed = p.handed; session = p.session; ends = p.ends } };
}
