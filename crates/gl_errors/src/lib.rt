// Whether a call is refused, and by which reply.
//
// `decide` is the whole of it. It picks the function of the call, which looks at plain facts alone (`buffers`, `contexts`,
// `framebuffers`, `images`) in the order of the call's table; `gather` takes these facts from the state.
#![tactic(auto)]

mod buffers;
mod contexts;
mod decision;
mod dispatch;
mod framebuffers;
mod gather;
mod images;

pub use decision::Decision;
pub use dispatch::decide;
