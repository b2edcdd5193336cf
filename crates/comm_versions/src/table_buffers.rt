//! Triple buffering: the table that is shown last, and the two before it, which are brought up to date in place once
//! nobody else has them.
ghost use Rattle.std.specs.Prelude.{◌≡◌, false, IfOk, OnErr, OnOk, MatchOption};
ghost use Rattle.std.specs.Arc.{arc_value};
ghost use Rattle.comm_core.specs.Row.{with_row};
ghost use Rattle.comm_versions.specs.Listing.{ListAlike};
ghost use Rattle.comm_versions.specs.TableBuffers.{StaleLeadsTo, LeadsTo};

use crate::comm_table::CommTable;
use crate::position::Position;
use crate::row_effect::RowEffect;
use comm_core::Row;
use core::mem;
use std::alloc::{AllocError, Global};
use std::marker::Model;
use std::sync::Arc;

/// A table that another followed, the row that led to that one, and where it changed the table.
#[derive(Drop)]
pub struct StaleTable {
    pub root: Arc<CommTable, Global>,
    pub row: Row,
    pub position: Option<Position>,
}

/// The table after a row, shared, and whether it may list other comms than the one before.
#[derive(Drop)]
pub struct NextTable {
    pub root: Arc<CommTable, Global>,
    pub changes_listing: bool,
}

/// The last table, and the two before it. Readers are shown the last; `left_right`'s other copy has the one before.
/// The third is free again, unless a reader still looks at it: it becomes the next table, at the same root, by the
/// two rows that it lacks and the new one. So a change copies nothing. Contracts see the last table.
#[derive(Drop)]
pub struct TableBuffers {
    last: Arc<CommTable, Global>,
    before: Option<StaleTable>,
    free: Option<StaleTable>,
}

impl Model for TableBuffers {
    ghost use Rattle.std.specs.Arc.{arc_value};
    ghost use Rattle.comm_core.specs.Tables.{Opens};
    ghost use Rattle.comm_versions.specs.Code.{opens_code};
    ghost use Rattle.comm_versions.specs.TableBuffers.{StaleLeadsTo, LeadsTo};

    ghost Value = { Opens };

    ghost coded = { opens_code };

    ghost view = { λ t. arc_value t.last };

    ghost invariant = { λ t. LeadsTo t.before (arc_value t.last) × StaleLeadsTo t.free t.before };
}

// Puts a copy of the last table, changed by this row, in place of the free one, and shares it.
#[inline(never)]
fn renew_copied(
    alloc: Global,
    last: &CommTable,
    free: &mut Option<StaleTable>,
    row: &Row,
    position: &Option<Position>,
) -> Result<Arc<CommTable, Global>, AllocError>
    ensures given { IfOk result (λ r. arc_value r ≡ with_row row.now last.now) }
    ensures free { OnOk result
        (MatchOption free.new ⊥ (λ f. arc_value f.root ≡ with_row row.now last.now)) }
{
    let mut copy = last.copy(alloc)?;
    copy.change(alloc, row, position)?;
    let root = Arc::new(alloc, copy)?;
    let given = Arc::try_clone(&root)?;
    *free = Some(StaleTable {
        root,
        row: Row::Same,
        position: None,
    });
    Ok(given)
}

// Makes the free table the one after this row, and shares it: it lacks its own row, the row of the table `before`, and
// this one. Where a reader still looks at it, or there is none, a copy of the last table takes its place. After an Err
// the free table is of no use.
#[inline(never)]
fn renew(
    alloc: Global,
    last: &CommTable,
    before: &Option<StaleTable>,
    free: &mut Option<StaleTable>,
    row: &Row,
    position: &Option<Position>,
) -> Result<Arc<CommTable, Global>, AllocError>
    requires last { LeadsTo before.now last.now }
    requires before { StaleLeadsTo free.old before.now }
    ensures given { IfOk result (λ r. arc_value r ≡ with_row row.now last.now) }
    ensures free { OnOk result
        (MatchOption free.new ⊥ (λ f. arc_value f.root ≡ with_row row.now last.now)) }
{
    if let Some(before) = before {
        if let Some(free) = free {
            if let Some(rows) = Arc::get_mut(&mut free.root) {
                rows.change(alloc, &free.row, &free.position)?;
                rows.change(alloc, &before.row, &before.position)?;
                rows.change(alloc, row, position)?;
                return Arc::try_clone(&free.root);
            }
        }
    }
    renew_copied(alloc, last, free, row, position)
}

// Makes the free table the last, which this row led to, the last the one before, and the one before the free one.
fn rotate(
    last: &mut Arc<CommTable, Global>,
    before: &mut Option<StaleTable>,
    free: &mut Option<StaleTable>,
    row: Row,
    position: Option<Position>,
)
    requires next { MatchOption free.old ⊥ (λ f.
        arc_value f.root ≡ with_row row (arc_value last.old)) }
    requires before { LeadsTo before.old (arc_value last.old) }
    ensures last { arc_value last.new ≡ with_row row (arc_value last.old) }
    ensures before { LeadsTo before.new (arc_value last.new) }
    ensures free { StaleLeadsTo free.new before.new }
{
    let Some(next) = free else {
        return;
    };
    mem::swap(last, &mut next.root);
    next.row = row;
    next.position = position;
    mem::swap(before, free);
}

impl TableBuffers {
    /// The buffers of a table that followed none.
    pub fn new(last: Arc<CommTable, Global>) -> TableBuffers
        ensures { result ≡ arc_value last }
    {
        TableBuffers {
            last,
            before: None,
            free: None,
        }
    }

    /// Makes the table after this row the last, and gives it too. Err: memory; the last table stays.
    pub fn change(&mut self, alloc: Global, row: Row) -> Result<NextTable, AllocError>
        ensures last { OnOk result (self.new ≡ with_row row self.old) }
        ensures given { IfOk result (λ n. arc_value n.root ≡ with_row row self.old) }
        ensures lists { IfOk result (λ n.
            n.changes_listing ≡ false → ListAlike self.old (with_row row self.old)) }
        ensures err { OnErr result (self.new ≡ self.old) }
    {
        let RowEffect {
            position,
            changes_listing,
        } = self.last.effect_of(&row);
        let root = self.follow(alloc, row, position)?;
        Ok(NextTable {
            root,
            changes_listing,
        })
    }

    // Makes the table after this row the last, and gives it too. The position is where the row changes the last
    // table, if that is known. Err: memory; the last table stays.
    fn follow(
        &mut self,
        alloc: Global,
        row: Row,
        position: Option<Position>,
    ) -> Result<Arc<CommTable, Global>, AllocError>
        ensures last { OnOk result (self.new ≡ with_row row self.old) }
        ensures given { IfOk result (λ r. arc_value r ≡ with_row row self.old) }
        ensures err { OnErr result (self.new ≡ self.old) }
    {
        if let Row::Same = row {
            return Arc::try_clone(&self.last);
        }
        match renew(
            alloc,
            &self.last,
            &self.before,
            &mut self.free,
            &row,
            &position,
        ) {
            Ok(given) => {
                rotate(
                    &mut self.last,
                    &mut self.before,
                    &mut self.free,
                    row,
                    position,
                );
                Ok(given)
            }
            Err(fault) => {
                self.free = None;
                Err(fault)
            }
        }
    }
}
