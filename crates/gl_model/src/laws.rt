//! Laws of histories and states. A law is a function with no body; its contract is the law.

ghost use Rattle.std.specs.Prelude.{◌≡◌, ◌==◌, ◌<◌, ◌+◌, ℕ, Some, None, IfSome, false, true, List, [], ◌∷◌, ◌++◌, length, if◌then◌else◌};
ghost use Rattle.tables.specs.Table.{entry, has};
ghost use Rattle.gl_calls.specs.declared.reply.Entry.{Entry};
ghost use Rattle.gl_calls.specs.declared.reply.Reply.{Reply};
ghost use Rattle.gl_calls.specs.declared.call.Call.{Call};
ghost use Rattle.gl_model.specs.GroupModel.{GroupModel, Store};
ghost use Rattle.gl_model.specs.Bindings.{same_option, same_attachment, attached_image};
ghost use Rattle.std.specs.List.{list_any};
ghost use Rattle.cells.specs.Contents.{Content};
ghost use Rattle.gl_model.specs.declared.objects.ImageInfo.{ImageInfo};
ghost use Rattle.gl_model.specs.declared.state.Attachment.{Attachment};
ghost use Rattle.gl_model.specs.ImageEffect.{Picture};
ghost use Rattle.gl_model.specs.GroupState.{opening_group};
ghost use Rattle.gl_model.specs.GroupEffect.{group_effect};
ghost use Rattle.gl_model.specs.Effect.{effect, gl_contents, in_context, change_store, change_picture, store_of};
ghost use Rattle.gl_model.specs.Legal.{IsLegal, Step, after_entry};
ghost use Rattle.gl_model.specs.Refusal.{refusal};
ghost use Rattle.gl_model.specs.Sizes.{HasSizes, HasImageSizes, HasItsData, HaveTheirData};
ghost use Rattle.gl_model.specs.Syncs.{HasSyncs, changes_syncs};
ghost use Rattle.gl_model.specs.Reached.{reached, group_after, group_after_all, changed_buffer, changed_images, cells_of, image_exists, before_the_sweep};

/// The empty history is legal, and a legal history goes on by each entry that is a step of its state.
/// Its state is then the one after that entry, which stands at the place past the others. Each beginning of a legal history is
/// legal.
pub fn legal_histories_go_on()
    ensures begins { (threads : List ℕ) → IsLegal threads [] }
    ensures goes_on { (threads : List ℕ) (history : List Entry) (e : Entry) →
        IsLegal threads history → Step (reached threads history) e → IsLegal threads (history ++ e ∷ []) }
    ensures state { (threads : List ℕ) (history : List Entry) (e : Entry) →
        reached threads (history ++ e ∷ []) ≡ after_entry (reached threads history) e (length history) }
    ensures beginnings { (threads : List ℕ) (history more : List Entry) →
        IsLegal threads (history ++ more) → IsLegal threads history }
{}

/// The group without contents goes its own way: an effect, an entry and a whole history change it by the group alone.
pub fn group_is_a_projection()
    ensures effect { (state : GroupModel) (thread : ℕ) (call : Call) (place : ℕ) →
        (effect state thread call place).group ≡ group_effect state.group thread call }
    ensures entry { (state : GroupModel) (e : Entry) (place : ℕ) →
        (after_entry state e place).group ≡ group_after state.group e }
    ensures history { (threads : List ℕ) (history : List Entry) →
        (reached threads history).group ≡ group_after_all (opening_group threads) history }
{}

/// What buffers hold after an accepted call: a buffer that still exists has what the call wrote, and each buffer but the
/// one that the call names has what it had. A change of one store changes no other.
pub fn stores_after_an_effect()
    ensures written { (state : GroupModel) (thread : ℕ) (call : Call) (place b : ℕ) →
        has b (group_effect state.group thread call).buffers ≡ true →
        store_of (effect state thread call place) b ≡ store_of (in_context gl_contents state thread call) b }
    ensures others { (state : GroupModel) (thread : ℕ) (call : Call) (place b : ℕ) →
        has b (group_effect state.group thread call).buffers ≡ true →
        same_option (changed_buffer state.group thread call) (Some b) ≡ false →
        store_of (effect state thread call place) b ≡ store_of state b }
    ensures one { (state : GroupModel) (b : ℕ) (change : Store → Store) (c : ℕ) →
        store_of (change_store state (Some b) change) c ≡ (if c == b then change (store_of state b) else store_of state c) }
{}

/// What images hold after an accepted call: an image that still exists has what the call wrote, or new storage, and each image
/// but those that the call names has what it had.
pub fn images_after_an_effect()
    ensures written { (state : GroupModel) (thread : ℕ) (call : Call) (place : ℕ) (image : Attachment) →
        image_exists (group_effect state.group thread call) image ≡ true →
        cells_of (effect state thread call place) image ≡ cells_of (before_the_sweep state thread call place) image }
    ensures others { (state : GroupModel) (thread : ℕ) (call : Call) (place : ℕ) (image : Attachment) →
        image_exists (group_effect state.group thread call) image ≡ true →
        list_any (same_attachment image) (changed_images state.group thread call) ≡ false →
        cells_of (effect state thread call place) image ≡ cells_of state image }
    ensures one { (state : GroupModel) (target : Attachment) (paint : Picture → Content) (info : ImageInfo) →
        attached_image state.group target ≡ Some info →
        cells_of (change_picture state target paint) target ≡ paint (record { info = info; cells = cells_of state target }) }
    ensures no_other { (state : GroupModel) (target : Attachment) (paint : Picture → Content) (image : Attachment) →
        same_attachment image target ≡ false →
        cells_of (change_picture state target paint) image ≡ cells_of state image }
{}

/// Buffers have their sizes in each reached state: what an existing buffer holds is as long as its size, and its map lies
/// inside it. The histories are those whose calls are of the form of a trace: BufferData has data of the size that it names.
pub fn buffers_have_their_sizes()
    ensures reached { (threads : List ℕ) (history : List Entry) → HaveTheirData history → HasSizes (reached threads history) }
    ensures entry { (state : GroupModel) (e : Entry) (place : ℕ) →
        HasSizes state → HasItsData e.call → HasSizes (after_entry state e place) }
    ensures effect { (state : GroupModel) (thread : ℕ) (call : Call) (place : ℕ) →
        HasSizes state → refusal state.group thread call ≡ None → HasItsData call → HasSizes (effect state thread call place) }
{}

/// Images have their sizes in each reached state: what an image holds is as long as its texels, and one without storage, as a
/// renderbuffer that lost it, holds nothing.
pub fn images_have_their_sizes()
    ensures reached { (threads : List ℕ) (history : List Entry) → HasImageSizes (reached threads history) }
    ensures entry { (state : GroupModel) (e : Entry) (place : ℕ) → HasImageSizes state → HasImageSizes (after_entry state e place) }
    ensures effect { (state : GroupModel) (thread : ℕ) (call : Call) (place : ℕ) →
        HasImageSizes state → refusal state.group thread call ≡ None → HasImageSizes (effect state thread call place) }
{}

/// Syncs and contexts in each reached state: the syncs that a state knows the facts of are the group's, it knows the birth of each
/// context of the group and of no other, and all of them were made at an earlier place of the history.
pub fn syncs_are_of_the_group()
    ensures reached { (threads : List ℕ) (history : List Entry) → HasSyncs (reached threads history) (length history) }
    ensures entry { (state : GroupModel) (e : Entry) (place : ℕ) → HasSyncs state place → HasSyncs (after_entry state e place) (place + 1) }
    ensures effect { (state : GroupModel) (thread : ℕ) (call : Call) (place : ℕ) →
        HasSyncs state place → refusal state.group thread call ≡ None → HasSyncs (effect state thread call place) (place + 1) }
    ensures numbers { (state : GroupModel) (place n : ℕ) →
        HasSyncs state place → (has n state.fences ≡ has n state.group.syncs) × (has n state.egl_fences ≡ has n state.group.egl_syncs) }
    ensures places { (state : GroupModel) (place n : ℕ) →
        HasSyncs state place →
        IfSome (entry n state.fences) (λ f. f.place < place) × IfSome (entry n state.egl_fences) (λ f. f.place < place)
        × IfSome (entry n state.births) (λ birth. birth < place) }
{}

/// A call that makes and ends no sync and no context, and is no Finish, leaves what is known of syncs and contexts as it is.
pub fn other_calls_leave_syncs()
    ensures fences { (state : GroupModel) (thread : ℕ) (call : Call) (place : ℕ) →
        changes_syncs call ≡ false → (effect state thread call place).fences ≡ state.fences }
    ensures egl_fences { (state : GroupModel) (thread : ℕ) (call : Call) (place : ℕ) →
        changes_syncs call ≡ false → (effect state thread call place).egl_fences ≡ state.egl_fences }
    ensures births { (state : GroupModel) (thread : ℕ) (call : Call) (place since : ℕ) →
        HasSyncs state since → changes_syncs call ≡ false → (effect state thread call place).births ≡ state.births }
{}
