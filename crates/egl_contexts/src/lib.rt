//! The contexts of a share group, each with its serial index, and the EGL errors of the group's threads
//! (EGL 1.5, Rendering Contexts; Errors).
//!
//! Contracts see a table as its contexts by number and the threads' errors, both in rising order.
#![tactic(auto)]

ghost use Rattle.std.specs.Prelude.{◌≡◌, IsTrue, Some, IfOk, IfErr, OnOk, OnErr, [], slice_get};
ghost use Rattle.std.specs.Option.{option_map};
ghost use Rattle.std.specs.Result.{result_err};
ghost use Rattle.tables.specs.Table.{entry, has, with_entry};
ghost use Rattle.egl_contexts.specs.Contexts.{opening_threads, new_context, current_entry, create_stop, make_current_stop, destroy_stop, let_go, taken_by, destroyed, switched_from, ended_at_once, facts_of};

mod facts;
mod places;

pub use crate::facts::{ContextFacts, ContextState, CreateStop, Switched};
use crate::places::{Places, context_of, current_of, destroyed, let_go, place_for, taken_by};
use formats::EglError;
use std::alloc::{AllocError, Global};
use std::marker::Model;
use tables::Table;
use vk_types::SerialIndex;

/// The contexts of a share group, at most eight, and its declared threads.
#[derive(Drop)]
pub struct Contexts {
    places: Places,
    threads: Table<EglError>,
}

impl Model for Contexts {
    ghost use Rattle.egl_contexts.specs.Contexts.{ContextTable};

    ghost Value = { ContextTable };

    ghost view = { λ c. record { contexts = c.places.items; threads = c.threads } };
}

/// The threads, with no error of EGL.
fn opening_threads(alloc: Global, threads: &[u32]) -> Result<Table<EglError>, AllocError>
    ensures { IfOk result (λ table. table ≡ opening_threads threads.now) }
{
    let mut table = Table::new(alloc);
    for thread in threads {
        table.insert(*thread, EglError::Success)?;
    }
    Ok(table)
}

/// What a thread gives up as it takes the context of a number.
fn switched_from(current: Option<(u16, ContextState)>, number: u16) -> Switched
    ensures { result ≡ switched_from number current }
{
    match current {
        Some((n, context)) if n != number => Switched {
            replaced: Some(context.index),
            ended: if context.marked {
                Some(context.index)
            } else {
                None
            },
        },
        _ => Switched {
            replaced: None,
            ended: None,
        },
    }
}

/// Why the context of a number cannot be made current on a thread.
fn make_current_stop(places: &[(u16, ContextState)], thread: u32, number: u16) -> Option<EglError>
    ensures { result ≡ make_current_stop thread number places.now }
{
    if number == 0 {
        return None;
    }
    match context_of(places, number) {
        None => Some(EglError::BadContext),
        Some(context) if context.marked => Some(EglError::BadContext),
        Some(context) => match context.thread {
            Some(t) if t != thread => Some(EglError::BadAccess),
            _ => None,
        },
    }
}

impl Contexts {
    /// The contexts of a share group that begins: none, and the declared threads without an error.
    pub fn new(alloc: Global, threads: &[u32]) -> Result<Contexts, AllocError>
        ensures { IfOk result (λ table. table ≡ record { contexts = []; threads = opening_threads threads.now }) }
    {
        Ok(Contexts {
            places: Places::new(),
            threads: opening_threads(alloc, threads)?,
        })
    }

    /// Adds a context that is current nowhere (EGL 1.5, Creating Rendering Contexts). The caller gives each
    /// context an index of its own. A refused call changes nothing, and this takes no memory.
    pub fn create(&mut self, number: u16, index: SerialIndex) -> Result<(), CreateStop>
        ensures answer { result_err result ≡ create_stop number self.old.contexts }
        ensures ok { OnOk result (self.new ≡ record self.old { contexts = with_entry number (new_context index) self.old.contexts }) }
        ensures err { OnErr result (self.new ≡ self.old) }
    {
        if context_of(self.places.as_slice(), number).is_some() {
            return Err(CreateStop::Taken);
        }
        if self.places.len() >= 8 {
            return Err(CreateStop::BadAlloc);
        }
        let at = place_for(self.places.as_slice(), number);
        let context = ContextState {
            index,
            marked: false,
            thread: None,
        };
        self.places.insert(at, (number, context));
        Ok(())
    }

    /// Makes the context of a number current on a declared thread, or none for number 0 (EGL 1.5, Binding Contexts and
    /// Drawables). The thread lets go of the context that it had, which ends where it is marked. Taking the
    /// context that is current already replaces nothing. A refused call changes nothing.
    pub fn make_current(&mut self, thread: u32, number: u16) -> Result<Switched, EglError>
        ensures answer { result_err result ≡ make_current_stop thread number self.old.contexts }
        ensures switched { IfOk result (λ s. s ≡ switched_from number (current_entry thread self.old.contexts)) }
        ensures ok { OnOk result (self.new ≡ record self.old { contexts = taken_by thread number (let_go thread self.old.contexts) }) }
        ensures err { OnErr result (self.new ≡ self.old) }
    {
        let places = self.places.as_slice();
        if let Some(error) = make_current_stop(places, thread, number) {
            return Err(error);
        }
        let switched = switched_from(current_of(places, thread), number);
        let free = let_go(places, thread);
        self.places = taken_by(free.as_slice(), thread, number);
        Ok(switched)
    }

    /// Ends a context that is current nowhere and gives its index, or marks one that is current and gives None
    /// (EGL 1.5, Destroying Rendering Contexts). A refused call changes nothing.
    pub fn destroy(&mut self, number: u16) -> Result<Option<SerialIndex>, EglError>
        ensures answer { result_err result ≡ destroy_stop number self.old.contexts }
        ensures ended { IfOk result (λ index. index ≡ ended_at_once (entry number self.old.contexts)) }
        ensures ok { OnOk result (self.new ≡ record self.old { contexts = destroyed number self.old.contexts }) }
        ensures err { OnErr result (self.new ≡ self.old) }
    {
        let places = self.places.as_slice();
        let context = match context_of(places, number) {
            Some(context) if !context.marked => context,
            _ => return Err(EglError::BadContext),
        };
        self.places = destroyed(places, number);
        match context.thread {
            Some(_) => Ok(None),
            None => Ok(Some(context.index)),
        }
    }

    /// The index of the context that is current on a declared thread.
    pub fn current(&self, thread: u32) -> Option<SerialIndex>
        ensures { result ≡ option_map (λ e. e.1.index) (current_entry thread self.now.contexts) }
    {
        match current_of(self.places.as_slice(), thread) {
            Some((_, context)) => Some(context.index),
            None => None,
        }
    }

    /// The EGL error of a declared thread (EGL 1.5, Errors).
    pub fn error(&self, thread: u32) -> EglError
        requires { IsTrue (has thread self.now.threads) }
        ensures { entry thread self.now.threads ≡ Some result }
    {
        match self.threads.get(thread) {
            Some(error) => *error,
            None => unreachable!(),
        }
    }

    /// Sets the EGL error of a declared thread.
    pub fn set_error(&mut self, thread: u32, error: EglError)
        requires { IsTrue (has thread self.old.threads) }
        ensures { self.new ≡ record self.old { threads = with_entry thread error self.old.threads } }
    {
        self.threads.replace(thread, error);
    }

    /// The k-th context, from 0 in rising order of the numbers, marked ones counted, and None past the last one.
    pub fn context_at(&self, k: usize) -> Option<ContextFacts>
        ensures { result ≡ option_map facts_of (slice_get self.now.contexts k) }
    {
        match self.places.as_slice().get(k) {
            Some((number, context)) => Some(ContextFacts {
                number: *number,
                index: context.index,
                marked: context.marked,
                thread: context.thread,
            }),
            None => None,
        }
    }
}
