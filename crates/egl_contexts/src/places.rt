// The entries of the context table.
ghost use Rattle.std.specs.Prelude.{◌≡◌, ◌≤◌, ℕ, IsTrue, not, None, length, insert, [], ◌∷◌};
ghost use Rattle.std.specs.Option.{option_to_list};
ghost use Rattle.tables.specs.Table.{entry, has, with_entry};
ghost use Rattle.egl_contexts.specs.Contexts.{is_current, current_entry, let_go, taken_by, destroyed};
ghost use Rattle.egl_contexts.specs.declared.facts.ContextState.{ContextState as State};

use crate::facts::ContextState;
use arrayvec::ArrayVec;

/// A context's number and state.
pub type Place = (u16, ContextState);

/// At most eight places.
pub type Places = ArrayVec<Place, 8>;

/// Whether a context is current on a thread.
fn is_current(context: &ContextState, thread: u32) -> bool
    ensures { result ≡ is_current thread context.now }
{
    match context.thread {
        Some(t) => t == thread,
        None => false,
    }
}

/// The context of a number.
pub fn context_of(places: &[Place], number: u16) -> Option<ContextState>
    ensures { result ≡ entry number places.now }
{
    for (n, context) in places {
        if *n == number {
            return Some(*context);
        }
    }
    None
}

/// Where a number that has no context belongs.
pub fn place_for(places: &[Place], number: u16) -> usize
    requires { IsTrue (not (has number places.now)) }
    ensures bound { result ≤ length places.now }
    ensures order { (c : State) → with_entry number c places.now ≡ insert places.now result (number, c) }
{
    for (k, place) in places.iter().enumerate() {
        if place.0 > number {
            return k;
        }
    }
    places.len()
}

/// The context that is current on a thread.
pub fn current_of(places: &[Place], thread: u32) -> Option<Place>
    ensures { result ≡ current_entry thread places.now }
{
    for place in places {
        if is_current(&place.1, thread) {
            return Some(*place);
        }
    }
    None
}

/// A context that is current nowhere.
fn without_thread(context: ContextState) -> ContextState
    ensures { result ≡ record context { thread = None } }
{
    ContextState {
        index: context.index,
        marked: context.marked,
        thread: None,
    }
}

/// A place after a thread let go of its context.
fn after_let_go(place: Place, thread: u32) -> Option<Place>
    ensures { option_to_list result ≡ let_go thread (place ∷ []) }
{
    let current = is_current(&place.1, thread);
    let (number, context) = place;
    if !current {
        return Some((number, context));
    }
    if context.marked {
        return None;
    }
    Some((number, without_thread(context)))
}

/// The places after a thread let go of its context.
pub fn let_go(places: &[Place], thread: u32) -> Places
    requires { length places.now ≤ 8 }
    ensures { result.items ≡ let_go thread places.now }
{
    let mut kept = Places::new();
    for place in places {
        if let Some(next) = after_let_go(*place, thread) {
            kept.push(next);
        }
    }
    kept
}

/// A place after a context was taken by a thread.
fn after_taken(place: Place, thread: u32, number: u16) -> Place
    ensures { result ∷ [] ≡ taken_by thread number (place ∷ []) }
{
    let (n, context) = place;
    if n != number {
        return place;
    }
    let current = ContextState {
        thread: Some(thread),
        ..context
    };
    (n, current)
}

/// The places after a context was taken by a thread.
pub fn taken_by(places: &[Place], thread: u32, number: u16) -> Places
    requires { length places.now ≤ 8 }
    ensures { result.items ≡ taken_by thread number places.now }
{
    let mut kept = Places::new();
    for place in places {
        kept.push(after_taken(*place, thread, number));
    }
    kept
}

/// A place after a context was destroyed.
fn after_destroyed(place: Place, number: u16) -> Option<Place>
    ensures { option_to_list result ≡ destroyed number (place ∷ []) }
{
    let (n, context) = place;
    if n != number {
        return Some(place);
    }
    if context.thread.is_none() {
        return None;
    }
    let marked = ContextState {
        marked: true,
        ..context
    };
    Some((n, marked))
}

/// The places after a context was destroyed.
pub fn destroyed(places: &[Place], number: u16) -> Places
    requires { length places.now ≤ 8 }
    ensures { result.items ≡ destroyed number places.now }
{
    let mut kept = Places::new();
    for place in places {
        if let Some(next) = after_destroyed(*place, number) {
            kept.push(next);
        }
    }
    kept
}
