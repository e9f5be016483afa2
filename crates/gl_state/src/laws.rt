//! Laws of replies. A law is a function with no body; its contract is the law.

ghost use Rattle.std.specs.Prelude.{◌≡◌, ℕ, Some};
ghost use Rattle.gl_calls.specs.declared.call.Call.{Call};
ghost use Rattle.gl_calls.specs.declared.reply.Reply.{Reply};
ghost use Rattle.gl_model.specs.GroupModel.{GroupModel};
ghost use Rattle.gl_model.specs.Legal.{Answers};
ghost use Rattle.gl_state.specs.Applied.{reply_of};

/// The reply that `apply` tells, where it tells one, is the reply of the accepted call in each state with that group.
pub fn replies_are_answers()
    ensures { (state : GroupModel) (thread : ℕ) (asked : Call) (answer : Reply) →
        reply_of state.group thread asked ≡ Some answer → Answers state thread asked answer }
{}
