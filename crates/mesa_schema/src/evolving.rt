// A table's columns through its life.
ghost use Rattle.std.specs.Prelude.{◌≡◌, IsTrue, IfOk, OnOk, OnErr, IfErr, Ok, ◌-◌, ◌<◌, ◌≤◌, length, [], is_ok, map, slice_get, ◌≢◌, IfSome, nat_lt};
ghost use Rattle.mesa_columns.specs.declared.views.View.{View as Chosen};
ghost use Rattle.mesa_columns.specs.Changes.{changed};
ghost use Rattle.mesa_schema.specs.Changes.{change_checked, columns_at, columns_of, epoch_of, lifted, max_changes, rule_checked, with_change};
ghost use Rattle.mesa_columns.specs.Columns.{key_names};
ghost use Rattle.mesa_schema.specs.Views.{choice_checked, chosen_values_checked, view_checked, view_columns, with_view};
ghost use Rattle.mesa_schema.specs.Lineages.{HasDefault, IsLineage};
ghost use Rattle.mesa_schema.specs.Lifting.{Lifts};
ghost use Rattle.mesa_schema.specs.Recasts.{recast_checked, recast_lineage};
ghost use Rattle.mesa_columns.specs.Rows.{IsRowOf};

use crate::RecastError;
use crate::allowing::{
    check_added_key, check_added_value, check_drop, is_default, is_new, is_of_kind, is_used, may_go,
};
use crate::choosing::{check_chosen, chosen_columns, replace_place};
use crate::recasts::{allows_columns, check_columns, check_views, keeps_views};
use mesa_columns::{
    Change, ChangeError, Items, Lift, Name, Row, Schema, TryCopy, View, ViewError, added_keys,
    change_columns,
};
use std::alloc::{AllocError, Global};
use std::marker::Model;

/// How many changes and recasts a table may have.
pub const MAX_CHANGES: usize = 1000;

/// How many views a table may have.
pub const MAX_VIEWS: usize = 8;

/// A table's columns since it was made or recast: those of its first epoch, the linked changes since, and its views. Each change and each recast raises its epoch by 1.
pub struct Evolving {
    begins: u32,
    first: Schema,
    changes: Items<Change>,
    // None while the columns are still the first.
    present: Option<Schema>,
    views: Items<View>,
}

impl Model for Evolving {
    ghost use Rattle.mesa_schema.specs.Changes.{Lineage};
    ghost use Rattle.mesa_schema.specs.Lineages.{IsKept};

    ghost Value = { Lineage };

    ghost view = { λ e. record { begins = e.begins; first = e.first; changes = e.changes; views = e.views } };

    ghost invariant = { λ e. IsKept (record { begins = e.begins; first = e.first; changes = e.changes; views = e.views }) e.present };
}

// One function lets a table's columns go, which an exit calls; a derived one is written out at each exit.
impl Drop for Evolving {
    fn drop(self) {
        let Evolving {
            begins: _,
            first: _,
            changes: _,
            present: _,
            views: _,
        } = self;
    }
}

impl Evolving {
    /// A table with these columns, which has no views and no changes yet.
    pub fn new(alloc: Global, first: Schema) -> Self
        ensures { result ≡ record { begins = 0; first = first; changes = []; views = [] } }
    {
        Evolving::begun(alloc, 0, first)
    }

    /// A table whose columns begin with this epoch, as they do behind a recast; it has no views and no changes yet.
    pub fn begun(alloc: Global, begins: u32, first: Schema) -> Self
        requires { begins ≤ max_changes }
        ensures { result ≡ record { begins = begins; first = first; changes = []; views = [] } }
    {
        let _ = first.keys();
        Evolving {
            begins,
            first,
            changes: Items::new(alloc),
            present: None,
            views: Items::new(alloc),
        }
    }

    /// The present epoch.
    pub fn epoch(&self) -> u32
        ensures count { result ≡ epoch_of self.now }
        ensures rules { IsLineage self.now }
    {
        self.begins + self.changes.len() as u32
    }

    /// The table's first epoch: that of its making, or of its last recast.
    pub fn begins(&self) -> u32
        ensures number { result ≡ self.now.begins }
        ensures before { result ≤ epoch_of self.now }
    {
        self.begins
    }

    // How many of the changes an epoch is behind: none, where it is before the first.
    fn changes_before(&self, epoch: u32) -> usize
        ensures { result ≡ epoch - self.now.begins }
    {
        epoch.saturating_sub(self.begins) as usize
    }

    /// How many key columns the table had at an epoch; changes only add some.
    pub fn keys_at(&self, epoch: u32) -> usize
        requires { epoch ≤ epoch_of self.now }
        ensures { result ≡ length (columns_at self.now epoch).keys }
    {
        let since = &self.changes.as_slice()[..self.changes_before(epoch)];
        self.first.keys().len() + added_keys(since)
    }

    /// The columns of the first epoch.
    pub fn first(&self) -> &Schema
        ensures { result.now ≡ self.now.first }
    {
        &self.first
    }

    /// The changes, in order.
    pub fn changes(&self) -> &[Change]
        ensures { result.now ≡ self.now.changes }
    {
        self.changes.as_slice()
    }

    /// The columns of the present epoch.
    pub fn present(&self) -> &Schema
        ensures columns { result.now ≡ columns_of self.now }
        ensures rules { IsLineage self.now }
    {
        match &self.present {
            Some(present) => present,
            None => &self.first,
        }
    }
}

impl Evolving {
    /// The columns of an epoch.
    pub fn schema_at(&self, epoch: u32) -> Result<Schema, AllocError>
        requires { epoch ≤ epoch_of self.now }
        ensures { IfOk result (λ s. s ≡ columns_at self.now epoch) }
    {
        let (mut keys, mut values) = self.first.columns()?;
        for change in &self.changes.as_slice()[..self.changes_before(epoch)] {
            change_columns(&mut keys, &mut values, change)?;
        }
        Ok(Schema::of(keys, values))
    }

    /// How rows of an epoch are lifted to the present.
    pub fn lift_from(&self, epoch: u32) -> Result<Lift, AllocError>
        requires { epoch ≤ epoch_of self.now }
        ensures { IfOk result (λ lift. Lifts lift self.now epoch) }
    {
        if epoch == self.epoch() {
            return Ok(Lift::none(self.changes.allocator()));
        }
        let (keys, values) = self.schema_at(epoch)?.into_columns();
        let since = &self.changes.as_slice()[self.changes_before(epoch)..];
        Lift::through(self.changes.allocator(), keys, values, since)
    }

    /// A row of an epoch at present. Many rows of one epoch are lifted by one `lift_from`.
    pub fn lift_row(&self, from: u32, row: Row) -> Result<Row, AllocError>
        requires epoch { from ≤ epoch_of self.now }
        requires form { IsRowOf (columns_at self.now from) row }
        ensures { IfOk result (λ now. now ≡ lifted self.now from (epoch_of self.now) row) }
    {
        self.lift_from(from)?.row(row)
    }
}

impl Evolving {
    /// How many views the table has.
    pub fn views(&self) -> u8
        ensures { result ≡ length self.now.views }
    {
        self.views.len() as u8
    }

    /// The view of a number; views are numbered from 0, in the order in which they were added.
    pub fn view(&self, view: u8) -> &View
        requires { view < length self.now.views }
        ensures { slice_get self.now.views view ≡ Some result.now }
    {
        &self.views.as_slice()[view as usize]
    }

    /// The name of the view of a number.
    pub fn view_name(&self, view: u8) -> &Name
        requires { view < length self.now.views }
        ensures { slice_get (map (λ (v : Chosen). v.name) self.now.views) view ≡ Some result.now }
    {
        &self.view(view).name
    }

    /// The columns of the view of a number.
    pub fn view_schema(&self, view: u8) -> Result<Schema, AllocError>
        requires { view < length self.now.views }
        ensures { IfOk result (λ s. IfSome (slice_get self.now.views view) (λ v. s ≡ view_columns (columns_of self.now) v)) }
    {
        let alloc = self.changes.allocator();
        let present = self.present();
        let view = self.view(view);
        let keys = chosen_columns(alloc, present.keys(), view.keys.as_slice())?;
        let values = chosen_columns(alloc, present.values(), view.values.as_slice())?;
        Ok(Schema::of(keys, values))
    }

    /// Whether `change` would make this change, but for want of memory.
    pub fn allows(&self, change: &Change) -> bool
        ensures { result ≡ is_ok (change_checked self.now change.now) }
    {
        self.has_room() && self.keeps_rule(change)
    }

    // Whether a change or a recast more is not too many.
    fn has_room(&self) -> bool
        ensures { result ≡ nat_lt (epoch_of self.now) max_changes }
    {
        (self.epoch() as usize) < MAX_CHANGES
    }

    fn keeps_rule(&self, change: &Change) -> bool
        ensures { result ≡ is_ok (rule_checked self.now change.now) }
    {
        let present = self.present();
        match change {
            Change::AddValue { column, default } => {
                is_new(&column.name, present.values()) && is_default(column.agg, *default)
            }
            Change::DropValue { name } => {
                may_go(name, present.values()) && !is_used(name, self.views.as_slice())
            }
            Change::AddKey { column, default } => {
                is_new(&column.name, present.keys()) && is_of_kind(column.kind, default)
            }
        }
    }

    // The rules of a change but for the number of changes.
    fn check_rule(&self, change: &Change) -> Result<(), ChangeError>
        ensures passes { OnOk result (rule_checked self.now change.now ≡ Ok tt) }
        ensures default { OnOk result (HasDefault change.now) }
        ensures refused { IfErr result (λ e. e ≢ ChangeError.Memory → rule_checked self.now change.now ≡ Err e) }
    {
        let present = self.present();
        match change {
            Change::AddValue { column, default } => {
                check_added_value(column, default, present.values())
            }
            Change::DropValue { name } => check_drop(name, present.values(), self.views.as_slice()),
            Change::AddKey { column, default } => check_added_key(column, default, present.keys()),
        }
    }

    /// Changes the columns. Views, and the columns of earlier epochs, stay as they are.
    pub fn change(&mut self, change: Change) -> Result<(), ChangeError>
        ensures changed { OnOk result (self.new ≡ with_change self.old change) }
        ensures allowed { OnOk result (IsTrue (is_ok (change_checked self.old change))) }
        ensures refused { IfErr result (λ e. e ≢ ChangeError.Memory → change_checked self.old change ≡ Err e) }
        ensures err { OnErr result (self.new ≡ self.old) }
    {
        self.check_rule(&change)?;
        if !self.has_room() {
            return Err(ChangeError::EpochsFull);
        }
        let present = self.present_after(&change)?;
        self.changes.push(change)?;
        self.present = Some(present);
        Ok(())
    }

    /// Whether the table may be recast to these of its columns, in this order, or the first reason against it.
    pub fn check_recast(&self, keys: &[Name], values: &[Name]) -> Result<(), RecastError>
        ensures passes { OnOk result (recast_checked self.now (record { keys = keys.now; values = values.now }) ≡ Ok tt) }
        ensures refused { IfErr result (λ e. e ≢ RecastError.Memory → recast_checked self.now (record { keys = keys.now; values = values.now }) ≡ Err e) }
    {
        check_columns(self.present(), keys, values)?;
        check_views(self.views.as_slice(), keys, values)?;
        if !self.has_room() {
            return Err(RecastError::EpochsFull);
        }
        Ok(())
    }

    /// Whether `check_recast` would pass, but for want of memory.
    pub fn allows_recast(&self, keys: &[Name], values: &[Name]) -> bool
        ensures { result ≡ is_ok (recast_checked self.now (record { keys = keys.now; values = values.now })) }
    {
        self.has_room()
            && allows_columns(self.present(), keys, values)
            && keeps_views(self.views.as_slice(), keys, values)
    }

    /// The table with these of its present columns, in this order: they begin the next epoch. Its views stay.
    pub fn renewed(&self, keys: Vec<Name>, values: Vec<Name>) -> Result<Evolving, AllocError>
        requires { recast_checked self.now (record { keys = keys.items; values = values.items }) ≡ Ok tt }
        ensures { IfOk result (λ e. e ≡ recast_lineage self.now (record { keys = keys.items; values = values.items })) }
    {
        let alloc = self.changes.allocator();
        let present = self.present();
        let first_keys = chosen_columns(alloc, present.keys(), &keys)?;
        let first_values = chosen_columns(alloc, present.values(), &values)?;
        let views = self.views.copy()?;
        Ok(Evolving {
            begins: self.epoch() + 1,
            first: Schema::of(first_keys, first_values),
            changes: Items::new(alloc),
            present: None,
            views,
        })
    }

    // The present columns after a change that keeps the rules.
    fn present_after(&self, change: &Change) -> Result<Schema, AllocError>
        requires { rule_checked self.now change.now ≡ Ok tt }
        ensures { IfOk result (λ s. s ≡ changed (columns_of self.now) change.now) }
    {
        let (mut keys, mut values) = self.present().columns()?;
        change_columns(&mut keys, &mut values, change)?;
        Ok(Schema::of(keys, values))
    }

    /// Whether `add_view` would add this view, but for want of memory.
    pub fn allows_view(&self, _name: &Name, keys: &[Name], values: &[Name]) -> bool
        ensures { result ≡ is_ok (view_checked (columns_of self.now) keys.now values.now) }
    {
        let present = self.present();
        check_chosen(keys, present.keys(), ViewError::NoKey).is_ok()
            && check_chosen(values, present.values(), ViewError::NoValue).is_ok()
            && replace_place(values, present.values()).is_none()
    }

    /// Whether a view may choose these key columns.
    pub fn check_view_keys(&self, keys: &[Name]) -> Result<(), ViewError>
        ensures { result ≡ choice_checked (key_names (columns_of self.now)) ViewError.NoKey keys.now }
    {
        check_chosen(keys, self.present().keys(), ViewError::NoKey)
    }

    /// Whether a view may choose these value columns.
    pub fn check_view_values(&self, values: &[Name]) -> Result<(), ViewError>
        ensures passes { OnOk result (chosen_values_checked (columns_of self.now) values.now ≡ Ok tt) }
        ensures refused { IfErr result (λ e. e ≢ ViewError.Memory → chosen_values_checked (columns_of self.now) values.now ≡ Err e) }
    {
        let columns = self.present().values();
        check_chosen(values, columns, ViewError::NoValue)?;
        match replace_place(values, columns) {
            Some(place) => Err(ViewError::ReplaceInView {
                column: values[place].copy()?,
            }),
            None => Ok(()),
        }
    }

    /// Adds a view of these key columns and value columns, in this order.
    pub fn add_view(
        &mut self,
        name: Name,
        keys: Vec<Name>,
        values: Vec<Name>,
    ) -> Result<(), ViewError>
        requires { length self.old.views < MAX_VIEWS }
        ensures added { OnOk result (self.new ≡ with_view self.old (record { name = name; keys = keys.items; values = values.items })) }
        ensures allowed { OnOk result (IsTrue (is_ok (view_checked (columns_of self.old) keys.items values.items))) }
        ensures refused { IfErr result (λ e. e ≢ ViewError.Memory → view_checked (columns_of self.old) keys.items values.items ≡ Err e) }
        ensures err { OnErr result (self.new ≡ self.old) }
    {
        self.check_view_keys(&keys)?;
        self.check_view_values(&values)?;
        let view = View {
            name,
            keys: Items::from_vec(keys),
            values: Items::from_vec(values),
        };
        self.views.push(view)?;
        Ok(())
    }
}

impl TryCopy for Evolving {
    fn copy(&self) -> Result<Self, AllocError> {
        let first = self.first.copy()?;
        let changes = self.changes.copy()?;
        let present = match &self.present {
            Some(present) => Some(present.copy()?),
            None => None,
        };
        let views = self.views.copy()?;
        Ok(Evolving {
            begins: self.begins,
            first,
            changes,
            present,
            views,
        })
    }
}
