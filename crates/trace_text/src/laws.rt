//! What holds of each trace. A law is a function with no body; its contract is the law.

ghost use Rattle.std.specs.Prelude.{ℕ, List};
ghost use Rattle.trace_text.specs.Reading.{Plan};
ghost use Rattle.trace_text.specs.Traces.{Spells};
ghost use Rattle.trace_text.specs.Orders.{IsTrace};

/// A trace that a text spells is in order: its threads are few and of declared groups, the numbers of a thread's lines rise, lines
/// of different threads have different numbers, and a call comes after an earlier line of its group.
pub fn traces_are_in_order()
    ensures { (text : List ℕ) (threads : List Plan) → Spells text threads → IsTrace threads }
{}
