//! Histories: the calls to the controllers over two stores.
ghost use Rattle.std.specs.Prelude.{◌≡◌, [], ◌∷◌, ◌++◌, option_map, OnOk, OnSome, IfSome, IfNone};
ghost use Rattle.scripts.specs.Histories.{history_of, with_call};
ghost use Rattle.scripts.specs.Steps.{call_of};

use crate::step::Step;
use std::alloc::AllocError;

/// A history: the stores and boards that it begins with, and the calls.
#[derive(Drop)]
pub struct History {
    /// How many slots each store has.
    pub capacity: usize,
    /// How many line slots each board has.
    pub slots: usize,
    /// The calls to the table's controller, and to the bag's unless it has its own.
    pub calls: Vec<Step>,
    /// The calls to the bag's controller where it has its own.
    pub other: Option<Vec<Step>>,
}

impl History {
    /// The calls to the bag's controller.
    pub fn others(&self) -> &[Step]
        ensures own { IfSome self.now.other (λ other. result.now ≡ other.items) }
        ensures same { IfNone self.now.other (result.now ≡ self.now.calls.items) }
    {
        match &self.other {
            Some(other) => other.as_slice(),
            None => self.calls.as_slice(),
        }
    }

    // Adds a call, to those of the bag's controller where it has its own.
    pub(crate) fn push(&mut self, step: Step) -> Result<(), AllocError>
        ensures calls { OnOk result (IfNone self.old.other
            (self.new.calls.items ≡ self.old.calls.items ++ step ∷ [])) }
        ensures left { OnOk result (OnSome self.old.other (self.new.calls ≡ self.old.calls)) }
        ensures other { OnOk result (option_map (λ more. more.items) self.new.other
            ≡ option_map (λ other. other.items ++ step ∷ []) self.old.other) }
        ensures history { OnOk result
            (history_of self.new ≡ with_call (call_of step) (history_of self.old)) }
        ensures capacity { self.new.capacity ≡ self.old.capacity }
        ensures slots { self.new.slots ≡ self.old.slots }
    {
        match &mut self.other {
            Some(other) => other.push(step)?,
            None => self.calls.push(step)?,
        }
        Ok(())
    }
}
