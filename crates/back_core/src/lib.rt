//! The boundary between a share group and the device, and the back that keeps it.
//!
//! A share group reaches the device by a [`BackLink`] alone. What it sees there is one record, `Link` of
//! `specs/Link.antt`, and each call is a function on that record. `specs/History.antt` has the record as a function of
//! what happened to the back.
//!
//! A [`Back`] holds the device, the batches on their way and the garbage, and stores what happened as a history of
//! [`BackEvent`]s. `specs/Run.antt` says which events may come next, and what the device's journal and the garbage are
//! after them; `specs/Back.antt` says what a back keeps of that. [`Direct`] is the link of a group to a back that it
//! reaches on its own thread.
#![tactic(auto)]

mod apart_laws;
mod back;
mod back_calls;
mod back_clean;
mod back_event;
mod back_link;
mod back_steps;
mod cleaning;
mod direct;
mod end_laws;
mod ending;
mod laws;
mod loss_laws;
mod run_laws;
mod stored;

pub use apart_laws::groups_are_apart;
pub use back::Back;
pub use back_event::BackEvent;
pub use back_link::BackLink;
pub use direct::Direct;
pub use end_laws::{backs_keep_going, cleanups_stay_whole, runs_end_clean, runs_of_one_group};
pub use ending::{Ending, Left, Step};
pub use laws::{uses_are_low, what_a_group_sees};
pub use loss_laws::losses_have_causes;
pub use run_laws::{runs_are_sound, runs_go_on, runs_meet_the_device};
