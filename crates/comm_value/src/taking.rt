// Moving a value out of its list or dict, so that it isn't shared and can be changed without a copy.
ghost use Rattle.std.specs.Prelude.{◌≡◌, IfOk, IfSome, option_map};
ghost use Rattle.comm_value.specs.declared.path.Step.TheVariants.{Key, Index};
ghost use Rattle.comm_value.specs.Tree.{Tree, list, dict};
ghost use Rattle.comm_value.specs.Node.{child, get, get_item};
ghost use Rattle.comm_value.specs.Put.{with_child};
ghost use Rattle.comm_value.specs.View.{tree};

use crate::path::Step;
use crate::text::Text;
use crate::val::{Dict, Items, Val};
use std::alloc::{AllocError, Global};
use std::mem;

/// The child that was at a step of a value, and the value with null there.
#[derive(Drop)]
pub(crate) struct Taken {
    pub(crate) inner: Val,
    pub(crate) outer: Val,
}

/// Moves the child at the step out of a value. None: the value has no such child.
pub(crate) fn take_child(
    alloc: Global,
    value: Val,
    step: &Step,
) -> Result<Option<Taken>, AllocError>
    ensures inner { IfOk result
        (λ o. option_map (λ x. tree x.inner) o ≡ child step.now (tree value)) }
    ensures outer { IfOk result (λ o. IfSome o (λ x. (t : Tree)
        → with_child step.now t (tree x.outer) ≡ with_child step.now t (tree value))) }
{
    match value {
        Val::Dict(dict) => match step {
            Step::Key(key) => take_member(alloc, dict, key),
            Step::Index(_) => Ok(None),
        },
        Val::List(items) => match step {
            Step::Key(_) => Ok(None),
            Step::Index(n) => take_item(alloc, items, *n),
        },
        _ => Ok(None),
    }
}

fn take_member(alloc: Global, members: Dict, key: &Text) -> Result<Option<Taken>, AllocError>
    ensures inner { IfOk result (λ o. option_map (λ x. tree x.inner) o ≡ get key.now members) }
    ensures outer { IfOk result (λ o. IfSome o (λ x. (t : Tree)
        → with_child (Key key.now) t (tree x.outer) ≡ with_child (Key key.now) t (dict members))) }
{
    let inner = match members.get(key.as_str()) {
        Some(value) => value.copy()?,
        None => return Ok(None),
    };
    let place = key.copy()?;
    let outer = members.insert(alloc, place, Val::Null)?;
    Ok(Some(Taken {
        inner,
        outer: Val::Dict(outer),
    }))
}

fn take_item(alloc: Global, items: Items, n: usize) -> Result<Option<Taken>, AllocError>
    ensures inner { IfOk result (λ o. option_map (λ x. tree x.inner) o ≡ get_item n items) }
    ensures outer { IfOk result (λ o. IfSome o (λ x. (t : Tree)
        → with_child (Index n) t (tree x.outer) ≡ with_child (Index n) t (list items))) }
{
    let mut all = items.into_values(alloc)?;
    if n >= all.len() {
        return Ok(None);
    }
    let inner = mem::replace(&mut all[n], Val::Null);
    let outer = Val::List(Items::new(alloc, all)?);
    Ok(Some(Taken { inner, outer }))
}
