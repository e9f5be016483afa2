// How plays go on.
ghost use Rattle.std.specs.Prelude.{◌≡◌, ℕ, List, Contains, Some, slice_get};
ghost use Rattle.trace_text.specs.declared.trace.Line.{Line};
ghost use Rattle.trace_text.specs.Reading.{Plan};
ghost use Rattle.trace_text.specs.Orders.{IsTrace};
ghost use Rattle.play_model.specs.Plays.{Play, Plays, HasPlayed, HasLineLeft, IsLeast, MayPlay, SomeMayPlay, members, opening_play};

/// Before the first line a play has what it is to have, and it keeps that with each line of a ready thread.
pub fn plays_go_on()
    ensures starts { (threads : List Plan) → HasPlayed threads (opening_play threads) }
    ensures goes_on { (threads : List Plan) (p q : Play) (thread : ℕ) → IsTrace threads → HasPlayed threads p →
        Plays threads p q thread → HasPlayed threads q }
    // the members of a group are its threads
    ensures members { (threads : List Plan) (thread : ℕ) (plan : Plan) → slice_get threads thread ≡ Some plan →
        Contains (members threads plan.group) thread }
{}

/// The unanswered line of least number is ready. So while a line is left a thread may go on.
pub fn some_thread_is_ready()
    ensures least { (threads : List Plan) (p : Play) (thread : ℕ) (line : Line) → IsTrace threads → HasPlayed threads p →
        IsLeast threads p.done thread line → MayPlay threads p thread }
    ensures some { (threads : List Plan) (p : Play) → IsTrace threads → HasPlayed threads p → HasLineLeft threads p.done →
        SomeMayPlay threads p }
{}
