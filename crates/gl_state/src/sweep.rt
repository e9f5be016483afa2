// The objects to which nothing refers stop existing.
ghost use Rattle.std.specs.Prelude.{◌≡◌, ◌≤◌, ◌<◌, ◌++◌, ◌∷◌, [], not, length, vec_capacity, Some, ◌||◌, if◌then◌else◌};
ghost use Rattle.std.specs.Map.{keys_of};
ghost use Rattle.tables.specs.Table.{any_value, only};
ghost use Rattle.gl_model.specs.Bindings.{same_option};
ghost use Rattle.gl_model.specs.GroupEffect.{swept, binds_buffer, attaches};
ghost use Rattle.gl_model.specs.declared.state.Attachment.{Attachment as Attached};
ghost use Rattle.gl_state.specs.Order.{AreTied};
ghost use Rattle.gl_state.specs.Ended.{AreGone, HasRoom, without_all};

use crate::nameless::{Ended, Nameless};
use crate::references::{is_bound_buffer, is_bound_renderbuffer, is_bound_texture};
use gl_model::{Context, Counted, GroupState, HasBytes};
use tables::Table;

/// Adds an object to a list that has room.
fn add(ended: &mut Vec<u32>, object: u32, is_gone: bool)
    requires { length ended.old.items < vec_capacity ended.old }
    ensures items { ended.new.items ≡ (if is_gone then ended.old.items ++ object ∷ [] else ended.old.items) }
    ensures room { vec_capacity ended.old ≤ vec_capacity ended.new }
{
    if !is_gone {
        return;
    }
    match ended.push(object) {
        Ok(_) => (),
        Err(_) => unreachable!(),
    }
}

/// Notes the buffers of a table that no context has bound.
fn note_buffers(contexts: &Table<Context>, nameless: &Table<()>, ended: &mut Vec<u32>)
    requires empty { ended.old.items ≡ [] }
    requires room { length nameless.now ≤ vec_capacity ended.old }
    ensures { ended.new.items ≡ keys_of (only (λ b. not (any_value (binds_buffer b) contexts.now)) nameless.now) }
{
    for (buffer, _) in nameless.iter() {
        add(ended, *buffer, !is_bound_buffer(contexts, *buffer));
    }
}

/// Notes the textures of a table to which no context refers.
fn note_textures(contexts: &Table<Context>, nameless: &Table<()>, ended: &mut Vec<u32>)
    requires empty { ended.old.items ≡ [] }
    requires room { length nameless.now ≤ vec_capacity ended.old }
    ensures { ended.new.items ≡ keys_of (only (λ t. not (any_value (λ c. same_option c.texture (Some t) || attaches (Attached.Texture t) c) contexts.now)) nameless.now) }
{
    for (texture, _) in nameless.iter() {
        add(ended, *texture, !is_bound_texture(contexts, *texture));
    }
}

/// Notes the renderbuffers of a table to which no context refers.
fn note_renderbuffers(contexts: &Table<Context>, nameless: &Table<()>, ended: &mut Vec<u32>)
    requires empty { ended.old.items ≡ [] }
    requires room { length nameless.now ≤ vec_capacity ended.old }
    ensures { ended.new.items ≡ keys_of (only (λ r. not (any_value (λ c. same_option c.renderbuffer (Some r) || attaches (Attached.Renderbuffer r) c) contexts.now)) nameless.now) }
{
    for (renderbuffer, _) in nameless.iter() {
        add(
            ended,
            *renderbuffer,
            !is_bound_renderbuffer(contexts, *renderbuffer),
        );
    }
}

/// Takes objects out of their table.
fn remove_objects<V: HasBytes + Drop>(objects: &mut Counted<V>, keys: &[u32])
    ensures { objects.new ≡ without_all keys.now objects.old }
{
    for key in keys {
        objects.remove(*key);
    }
}

/// Takes objects off the list of those without a name.
fn unlist_all(nameless: &mut Table<()>, keys: &[u32])
    ensures { nameless.new ≡ without_all keys.now nameless.old }
{
    for key in keys {
        nameless.remove(*key);
    }
}

/// Ends the objects to which nothing refers, and notes them. Only objects without a name are looked at, and it costs what
/// looking them up in the contexts costs. This takes no memory.
pub fn sweep(group: &mut GroupState, nameless: &mut Nameless, ended: &mut Ended)
    requires tied { AreTied group.old nameless.old }
    requires room { HasRoom ended.old nameless.old 0 }
    ensures swept { group.new ≡ swept group.old }
    ensures tied { AreTied group.new nameless.new }
    ensures ended { AreGone group.old group.new ended.new }
{
    note_buffers(&group.contexts, &nameless.buffers, &mut ended.buffers);
    remove_objects(&mut group.buffers, ended.buffers.as_slice());
    unlist_all(&mut nameless.buffers, ended.buffers.as_slice());
    note_textures(&group.contexts, &nameless.textures, &mut ended.textures);
    remove_objects(&mut group.textures, ended.textures.as_slice());
    unlist_all(&mut nameless.textures, ended.textures.as_slice());
    note_renderbuffers(
        &group.contexts,
        &nameless.renderbuffers,
        &mut ended.renderbuffers,
    );
    remove_objects(&mut group.renderbuffers, ended.renderbuffers.as_slice());
    unlist_all(&mut nameless.renderbuffers, ended.renderbuffers.as_slice());
}
