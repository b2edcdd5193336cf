ghost use Rattle.std.specs.Prelude.{◌≡◌, ◌++◌, [], ◌∷◌, IfOk, OnOk, OnErr};

use comm_value::Text;
use std::alloc::{AllocError, Global};
use std::marker::Model;
use std::slice;

// One id, which needs no block, or a list.
#[derive(Drop)]
enum IdList {
    One(Global, Text),
    Many(Vec<Text>),
}

/// Ids of comms, seen as a list of texts.
#[derive(Drop)]
pub struct Ids {
    all: IdList,
}

impl Model for Ids {
    ghost use Rattle.std.specs.Prelude.{List, ℕ};
    ghost use Rattle.comm_core.specs.IdLists.{ids_in};

    ghost Value = { List (List ℕ) };

    ghost view = { λ i. ids_in i.all };
}

impl Ids {
    /// No id.
    pub fn new(alloc: Global) -> Ids
        ensures { result ≡ [] }
    {
        Ids {
            all: IdList::Many(Vec::new(alloc)),
        }
    }

    /// This id alone. It takes no memory.
    pub fn one(alloc: Global, id: Text) -> Ids
        ensures { result ≡ id ∷ [] }
    {
        Ids {
            all: IdList::One(alloc, id),
        }
    }

    /// Adds an id at the end. Err: memory; the ids stay as they were.
    pub fn push(&mut self, id: Text) -> Result<(), AllocError>
        ensures ok { OnOk result (self.new ≡ self.old ++ id ∷ []) }
        ensures err { OnErr result (self.new ≡ self.old) }
    {
        match &mut self.all {
            IdList::One(alloc, first) => {
                let mut all = Vec::with_capacity(*alloc, 2)?;
                all.push(first.copy()?)?;
                all.push(id)?;
                self.all = IdList::Many(all);
            }
            IdList::Many(all) => all.push(id)?,
        }
        Ok(())
    }

    /// The ids, in their order.
    pub fn as_slice(&self) -> &[Text]
        ensures { result.now ≡ self.now }
    {
        match &self.all {
            IdList::One(_, id) => slice::from_ref(id),
            IdList::Many(all) => all.as_slice(),
        }
    }

    /// A copy, which shares the ids' strings. Err: memory.
    pub fn copy(&self, alloc: Global) -> Result<Ids, AllocError>
        ensures { IfOk result (λ i. i ≡ self.now) }
    {
        match &self.all {
            IdList::One(_, id) => Ok(Ids::one(alloc, id.copy()?)),
            IdList::Many(ids) => Ok(Ids {
                all: IdList::Many(copies(alloc, ids)?),
            }),
        }
    }
}

// A list of these ids, which share their strings.
fn copies(alloc: Global, ids: &[Text]) -> Result<Vec<Text>, AllocError>
    ensures { IfOk result (λ v. v.items ≡ ids.now) }
{
    let mut all = Vec::with_capacity(alloc, ids.len())?;
    for id in ids {
        all.push(id.copy()?)?;
    }
    Ok(all)
}
