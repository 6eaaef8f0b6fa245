//! The edits of the tree of spaces that a thread's step makes.
ghost use Rattle.std.specs.Prelude.{◌≡◌, true, is_some, ◌∷◌, [], IfOk, OnOk, OnErr};
ghost use Rattle.oz_semantics.specs.Answers.{Creates, Injects};
ghost use Rattle.oz_semantics.specs.Configurations.{layer_at, layer_of, next_child, applying};
ghost use Rattle.oz_semantics.specs.Names.{root_of};
ghost use Rattle.oz_semantics.specs.declared.value.Tell.TheVariants as tell;
ghost use Rattle.oz_semantics.specs.declared.value.Value.TheVariants as value;
ghost use Rattle.edit_laws.specs.Edits.{HasChild};
ghost use Rattle.space_core.specs.SpaceEdits.{IsEdited};

use crate::given::Given;
use crate::levels::Levels;
use crate::tree::starting_frame;
use oz_base::{Copies, Ident, SpaceName};
use oz_semantics::{Frame, Tell, Value};
use std::alloc::{AllocError, Global};

/// The name of the child that a space gives out next. It refuses for want of memory, or where the space is not there.
fn next_child(alloc: Global, levels: &Levels, parent: &SpaceName) -> Result<SpaceName, AllocError>
    ensures { IfOk result (λ name. name ≡ next_child (layer_of levels.now parent.now)) }
{
    let Some(place) = levels.place(parent) else {
        return Err(AllocError);
    };
    let next = levels.next_at(place);
    let name = levels.space_at(place).child(alloc, next.child)?;
    Ok(name)
}

/// That the variable is the space.
pub fn space_tell(alloc: Global, variable: Ident, space: SpaceName) -> Result<Vec<Tell>, AllocError>
    ensures { IfOk result (λ tells. tells.items ≡ tell.Is variable (value.Space space) ∷ []) }
{
    let mut tells = Vec::new(alloc);
    tells.push(Tell::Is {
        variable,
        value: Value::Space(space),
    })?;
    Ok(tells)
}

/// One statement, which applies the procedure to the root variable of the space.
fn starting_frames(
    alloc: Global,
    space: &SpaceName,
    procedure: Ident,
) -> Result<Vec<Frame>, AllocError>
    ensures { IfOk result (λ frames. frames.items ≡ applying procedure (root_of space.now) ∷ []) }
{
    let mut frames = Vec::new(alloc);
    frames.push(starting_frame(alloc, space, procedure)?)?;
    Ok(frames)
}

impl Levels {
    /// The statement on top of a thread's stack is taken off, its space is told that the variable is a new child of it, in which a thread
    /// applies the procedure to the root variable, and each space below fails that then sees what is inconsistent. False exactly where
    /// that is inconsistent with what the space sees: then nothing changes. Where it is refused, nothing changes either.
    pub fn create_told(
        &mut self,
        alloc: Global,
        id: &Ident,
        procedure: Ident,
        variable: Ident,
    ) -> Result<bool, AllocError>
        requires { is_some (layer_at self.old id.now.space) ≡ true }
        ensures told { IfOk result (IsEdited id.now (Creates procedure variable) self.old self.new) }
        ensures err { OnErr result (self.new ≡ self.old) }
    {
        let child = next_child(alloc, self, &id.space)?;
        let tells = space_tell(alloc, variable, child)?;
        let mut levels = self.copied(alloc)?;
        if !levels.tell_by(alloc, id, tells.as_slice(), Given::Nothing)? {
            return Ok(false);
        }
        self.is_tree();
        let _child = levels.create(alloc, &id.space, procedure)?;
        *self = levels;
        Ok(true)
    }

    /// The statement on top of a thread's stack is taken off, and a new thread of a child of its space applies the procedure to the
    /// child's root variable. It refuses for want of memory, or where the child gave out 2^64 - 1 threads: then nothing changes.
    pub fn inject(
        &mut self,
        alloc: Global,
        id: &Ident,
        child: &SpaceName,
        procedure: Ident,
    ) -> Result<(), AllocError>
        requires { HasChild self.old id.now.space child.now }
        ensures ok { OnOk result (IsEdited id.now (Injects child.now procedure) self.old self.new true) }
        ensures err { OnErr result (self.new ≡ self.old) }
    {
        let frames = starting_frames(alloc, child, procedure)?;
        let Some(place) = self.place(&id.space) else {
            return Err(AllocError);
        };
        self.store_at(place).consistent();
        self.spawn(child, frames)?;
        let _statement = self.pop(id);
        self.consistent();
        Ok(())
    }
}
