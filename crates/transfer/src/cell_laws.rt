// What the cells of states are.
ghost use Rattle.std.specs.Prelude.{ℕ, ◌<◌, List, slice_index};
ghost use Rattle.gl_calls.specs.declared.payload.Payload.TheVariants.{Literal, Ramp};
ghost use Rattle.gl_calls.specs.Words.{payload_bytes};
ghost use Rattle.gl_calls.specs.declared.call.Call.{Call};
ghost use Rattle.gl_calls.specs.declared.reply.Entry.{Entry};
ghost use Rattle.gl_model.specs.GroupModel.{GroupModel};
ghost use Rattle.gl_model.specs.Effect.{effect};
ghost use Rattle.gl_model.specs.Legal.{after_entry};
ghost use Rattle.gl_model.specs.Reached.{reached};
ghost use Rattle.transfer.specs.Blits.{AreCells};
ghost use Rattle.transfer.specs.Held.{HoldsCells, HasBytes, HaveBytes};

/// Each cell that a reached state holds is a byte or not defined, where the data of the calls are bytes.
pub fn states_hold_cells()
    ensures reached { (threads : List ℕ) (history : List Entry) → HaveBytes history → HoldsCells (reached threads history) }
    ensures entry { (state : GroupModel) (e : Entry) (place : ℕ) →
        HoldsCells state → HasBytes e.call → HoldsCells (after_entry state e place) }
    ensures effect { (state : GroupModel) (thread : ℕ) (call : Call) (place : ℕ) →
        HoldsCells state → HasBytes call → HoldsCells (effect state thread call place) }
    ensures literal { (bytes : List ℕ) → ((i : ℕ) → slice_index bytes i < 256) → AreCells (payload_bytes (Literal bytes)) }
    ensures ramp { (len start step : ℕ) → AreCells (payload_bytes (Ramp len start step)) }
{}
