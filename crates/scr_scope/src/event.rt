//! Events and cells: the first unknown name, whether they are well typed and within the bound of a
//! side, and what they resolve to.
ghost use Rattle.std.specs.Prelude.{◌≡◌, map, IfOk};
ghost use Rattle.std.specs.Option.{option_copied};
ghost use Rattle.scr_scope.specs.Events as spec;

use crate::known::Known;
use base::{Name, NoMemory};
use scr_parse::{DraftCell, DraftChange, DraftCond, DraftEvent, DraftPrim};
use scr_spec::{Cell, Change, Cond, Event, Primitive};
use sqlite_items::Items;
use std::alloc::Global;

impl Known {
    fn unknown_change<'a>(&self, change: &'a DraftChange) -> Option<&'a Name>
        ensures { option_copied result ≡ spec.unknown_change self.now change.now }
    {
        match change {
            DraftChange::Becomes(cond) | DraftChange::Ceases(cond) => self.unknown_cond(cond),
            DraftChange::Changes(name) => self.unknown(name),
            DraftChange::Never => None,
        }
    }

    fn unknown_guard<'a>(&self, guard: &'a Option<DraftCond>) -> Option<&'a Name>
        ensures { option_copied result ≡ spec.unknown_guard self.now guard.now }
    {
        match guard {
            Some(cond) => self.unknown_cond(cond),
            None => None,
        }
    }

    fn unknown_prim<'a>(&self, prim: &'a DraftPrim) -> Option<&'a Name>
        ensures { option_copied result ≡ spec.unknown_prim self.now prim.now }
    {
        match self.unknown_change(&prim.change) {
            Some(name) => Some(name),
            None => self.unknown_guard(&prim.guard),
        }
    }

    /// The first name in the event that is not declared.
    pub fn unknown_event<'a>(&self, event: &'a DraftEvent) -> Option<&'a Name>
        ensures { option_copied result ≡ spec.unknown_event self.now event.now }
    {
        for prim in event.prims.as_slice() {
            if let Some(name) = self.unknown_prim(prim) {
                return Some(name);
            }
        }
        None
    }

    /// The first name in the cell that is not declared.
    pub fn unknown_cell<'a>(&self, cell: &'a DraftCell) -> Option<&'a Name>
        ensures { option_copied result ≡ spec.unknown_cell self.now cell.now }
    {
        match cell {
            DraftCell::Cond(cond) => self.unknown_cond(cond),
            DraftCell::Event(event) => self.unknown_event(event),
        }
    }

    fn is_typed_change(&self, change: &DraftChange) -> bool
        ensures { result ≡ spec.is_typed_change self.now change.now }
    {
        match change {
            DraftChange::Becomes(cond) | DraftChange::Ceases(cond) => self.is_typed_cond(cond),
            DraftChange::Changes(name) => self.is_variable(name),
            DraftChange::Never => true,
        }
    }

    fn is_typed_guard(&self, guard: &Option<DraftCond>) -> bool
        ensures { result ≡ spec.is_typed_guard self.now guard.now }
    {
        match guard {
            Some(cond) => self.is_typed_cond(cond),
            None => true,
        }
    }

    fn is_typed_prim(&self, prim: &DraftPrim) -> bool
        ensures { result ≡ spec.is_typed_prim self.now prim.now }
    {
        self.is_typed_change(&prim.change) && self.is_typed_guard(&prim.guard)
    }

    /// Whether the event is well typed.
    pub fn is_typed_event(&self, event: &DraftEvent) -> bool
        ensures { result ≡ spec.is_typed_event self.now event.now }
    {
        event
            .prims
            .as_slice()
            .iter()
            .all(|prim| self.is_typed_prim(prim))
    }

    /// Whether the cell is well typed.
    pub fn is_typed_cell(&self, cell: &DraftCell) -> bool
        ensures { result ≡ spec.is_typed_cell self.now cell.now }
    {
        match cell {
            DraftCell::Cond(cond) => self.is_typed_cond(cond),
            DraftCell::Event(event) => self.is_typed_event(event),
        }
    }

    fn is_narrow_change(&self, change: &DraftChange) -> bool
        ensures { result ≡ spec.is_narrow_change self.now change.now }
    {
        match change {
            DraftChange::Becomes(cond) | DraftChange::Ceases(cond) => self.is_narrow_cond(cond),
            DraftChange::Changes(_) | DraftChange::Never => true,
        }
    }

    fn is_narrow_guard(&self, guard: &Option<DraftCond>) -> bool
        ensures { result ≡ spec.is_narrow_guard self.now guard.now }
    {
        match guard {
            Some(cond) => self.is_narrow_cond(cond),
            None => true,
        }
    }

    fn is_narrow_prim(&self, prim: &DraftPrim) -> bool
        ensures { result ≡ spec.is_narrow_prim self.now prim.now }
    {
        self.is_narrow_change(&prim.change) && self.is_narrow_guard(&prim.guard)
    }

    /// Whether the bound of each side of the event is at most `SIDE_LIMIT`.
    pub fn is_narrow_event(&self, event: &DraftEvent) -> bool
        ensures { result ≡ spec.is_narrow_event self.now event.now }
    {
        event
            .prims
            .as_slice()
            .iter()
            .all(|prim| self.is_narrow_prim(prim))
    }

    /// Whether the bound of each side of the cell is at most `SIDE_LIMIT`.
    pub fn is_narrow_cell(&self, cell: &DraftCell) -> bool
        ensures { result ≡ spec.is_narrow_cell self.now cell.now }
    {
        match cell {
            DraftCell::Cond(cond) => self.is_narrow_cond(cond),
            DraftCell::Event(event) => self.is_narrow_event(event),
        }
    }

    fn variable_of_change(&self, name: &Name) -> usize
        ensures { result ≡ spec.changing self.now name.now }
    {
        self.variable_named(name).unwrap_or(0)
    }

    fn change_of(&self, alloc: Global, change: &DraftChange) -> Result<Change, NoMemory>
        ensures { IfOk result (λ made. made ≡ spec.change_of self.now change.now) }
    {
        match change {
            DraftChange::Becomes(cond) => {
                let cond = self.cond_of(alloc, cond)?;
                Ok(Change::Becomes(cond))
            }
            DraftChange::Ceases(cond) => {
                let cond = self.cond_of(alloc, cond)?;
                Ok(Change::Ceases(cond))
            }
            DraftChange::Changes(name) => Ok(Change::Changes(self.variable_of_change(name))),
            DraftChange::Never => Ok(Change::Never),
        }
    }

    fn guard_of(&self, alloc: Global, guard: &Option<DraftCond>) -> Result<Option<Cond>, NoMemory>
        ensures { IfOk result (λ made. made ≡ spec.guard_of self.now guard.now) }
    {
        match guard {
            Some(cond) => {
                let cond = self.cond_of(alloc, cond)?;
                Ok(Some(cond))
            }
            None => Ok(None),
        }
    }

    fn prim_of(&self, alloc: Global, prim: &DraftPrim) -> Result<Primitive, NoMemory>
        ensures { IfOk result (λ made. made ≡ spec.prim_of self.now prim.now) }
    {
        let change = self.change_of(alloc, &prim.change)?;
        let guard = self.guard_of(alloc, &prim.guard)?;
        Ok(Primitive { change, guard })
    }

    /// What the event resolves to.
    pub fn event_of(&self, alloc: Global, event: &DraftEvent) -> Result<Event, NoMemory>
        ensures { IfOk result (λ made. made ≡ spec.event_of self.now event.now) }
    {
        let mut prims = Items::from_vec(Vec::with_capacity(alloc, event.prims.len())?);
        for prim in event.prims.as_slice() {
            let prim = self.prim_of(alloc, prim)?;
            prims.push(prim)?;
        }
        Ok(Event { prims })
    }

    /// What the cell resolves to.
    pub fn cell_of(&self, alloc: Global, cell: &DraftCell) -> Result<Cell, NoMemory>
        ensures { IfOk result (λ made. made ≡ spec.cell_of self.now cell.now) }
    {
        match cell {
            DraftCell::Cond(cond) => {
                let cond = self.cond_of(alloc, cond)?;
                Ok(Cell::Cond(cond))
            }
            DraftCell::Event(event) => {
                let event = self.event_of(alloc, event)?;
                Ok(Cell::Event(event))
            }
        }
    }
}
