// What is noted of a session's exchanges.
ghost use Rattle.std.specs.Prelude.{◌≡◌, ◌<◌, ◌++◌, ◌∷◌, [], length, IfOk};

use crate::ends::REQUEST_LIMIT;
use px_base::{List, Mem};
use px_notes::ExchangeNote;
use std::alloc::Global;
use std::marker::Model;

/// Notes of exchanges in order, with room for those of a session.
#[derive(Drop)]
pub struct Notes {
    notes: Vec<ExchangeNote>,
}

impl Model for Notes {
    ghost use Rattle.std.specs.Prelude.{List, ◌≤◌, vec_capacity};
    ghost use Rattle.px_notes.specs.declared.sessions.ExchangeNote.{ExchangeNote};
    ghost use Rattle.px_serve.specs.declared.ends.TheConstants.{REQUEST_LIMIT};

    ghost Value = { List ExchangeNote };

    ghost view = { λ n. n.notes.items };

    ghost invariant = { λ n. REQUEST_LIMIT ≤ vec_capacity n.notes };
}

impl Notes {
    /// No notes, and the room for a session's.
    pub fn new(alloc: Global) -> Result<Notes, Mem>
        ensures { IfOk result (λ notes. notes ≡ []) }
    {
        Ok(Notes {
            notes: Vec::with_capacity(alloc, REQUEST_LIMIT as usize)?,
        })
    }

    /// How many exchanges were noted.
    pub fn count(&self) -> u64
        ensures { result ≡ length self.now }
    {
        self.notes.len() as u64
    }

    /// Adds a note, which takes no memory.
    pub fn add(&mut self, note: ExchangeNote)
        requires { length self.old < REQUEST_LIMIT }
        ensures { self.new ≡ self.old ++ note ∷ [] }
    {
        match self.notes.push(note) {
            Ok(()) => {}
            Err(_) => unreachable!(),
        }
    }

    /// The notes as a list, which takes no memory.
    pub fn into_list(self) -> List<ExchangeNote>
        ensures { result ≡ self }
    {
        List::from_vec(self.notes)
    }
}
