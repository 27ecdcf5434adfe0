// The first groups of rows that are put in one by one.
ghost use Rattle.std.specs.Prelude.{◌≡◌, ◌<◌, ◌^◌, List, [], ◌∷◌, ◌++◌, length, map, None, IsTrue, IfOk, OnOk, OnErr, IfErr, false, ◌↔◌};
ghost use Rattle.std.specs.Option.{option_copied};
ghost use Rattle.mesa_model.specs.mesa_columns.declared.columns.KeyColumn.{KeyColumn as Column};
ghost use Rattle.mesa_model.specs.mesa_columns.declared.rows.Row.{Row as AnyRow};
ghost use Rattle.mesa_model.specs.mesa_columns.Columns.{aggs_of, chosen};
ghost use Rattle.mesa_model.specs.mesa_fold.Folded.{grouped, regrouped};
ghost use Rattle.mesa_model.specs.mesa_columns.Lent.{lent};
ghost use Rattle.mesa_model.specs.mesa_columns.Rows.{AreRowsOf, IsRowOf};
ghost use Rattle.mesa_filter.specs.Query.{IsQueryOf, are_places};
ghost use Rattle.mesa_model.specs.Page.{page_of};
ghost use Rattle.mesa_answer.specs.Answering.{KeepsSums, grouped_columns};
ghost use Rattle.mesa_answer.specs.Gathered.{HasPut, key_at_hand, wanted_of};
ghost use Rattle.mesa_answer.specs.Gathering.{first_groups, group_from, wanted_by};
ghost use Rattle.mesa_answer.specs.Held.{is_behind as comes_after};
ghost use Rattle.mesa_answer.specs.Sums.{HasGroup, SumLeaves};

use crate::error::GroupError;
use crate::hand::Hand;
use crate::held::Held;
use crate::page::page;
use crate::window::Window;
use mesa_filter::Query;
use mesa_key::KeyType;
use mesa_model::Page;
use mesa_schema::{KeyColumn, LentRow, RowList, Schema};
use mesa_value::Agg;
use std::alloc::{AllocError, Global};

/// A gatherer of groups. Rows are put in one by one, in the order of their versions, and each is folded into its group. Of all groups only the first are held, as many as are wanted, so that its memory doesn't grow with the rows.
pub struct Groups<'a> {
    schema: &'a Schema,
    columns: &'a [u16],
    values: &'a [u16],
    resume: Option<&'a [u8]>,
    // Whether the group of the resume key itself is wanted too.
    inclusive: bool,
    most: usize,
    // What is looked up for each row: the types of the key columns, and the aggregations of the chosen values.
    kinds: Vec<KeyType>,
    aggs: Vec<Agg>,
    // Where a group's key and values stand in one piece in each row. Then the row lends them, and no column is looked for.
    window: Option<Window>,
    held: Held,
    hand: Hand,
}

// Each exit calls this, in place of letting go of each part itself.
impl Drop for Groups<'_> {
    fn drop(self) {
        let Groups {
            schema: _,
            columns: _,
            values: _,
            resume: _,
            inclusive: _,
            most: _,
            kinds: _,
            aggs: _,
            window: _,
            held: _,
            hand: _,
        } = self;
    }
}

impl<'a> Groups<'a> {
    /// For the page of a query. The rows that are put in meet the query's filter; the caller sees to that.
    pub fn of(alloc: Global, schema: &'a Schema, query: &'a Query) -> Result<Self, AllocError>
        requires asked { IsQueryOf schema.now query.now }
        ensures none { IfOk result (λ g. HasPut g []) }
        ensures wanted { IfOk result (λ g. wanted_of g ≡ wanted_by schema.now query.now) }
    {
        let most = query.limit() as usize + 1;
        let resume = query.resume();
        let columns = query.columns();
        Self::new(alloc, schema, columns, query.values(), false, resume, most)
    }

    /// For all groups by the key columns at these places, with the value columns at those.
    pub fn all(
        alloc: Global,
        schema: &'a Schema,
        columns: &'a [u16],
        values: &'a [u16],
    ) -> Result<Self, AllocError>
        requires columns_there { IsTrue (are_places schema.now.keys columns.now) }
        requires values_there { IsTrue (are_places schema.now.values values.now) }
        ensures none { IfOk result (λ g. HasPut g []) }
        ensures wanted { IfOk result (λ g. wanted_of g ≡ record { schema = schema.now; columns = columns.now; values = values.now; resume = None; inclusive = false; most = usize.MAX }) }
    {
        Self::new(alloc, schema, columns, values, false, None, usize::MAX)
    }

    fn new(
        alloc: Global,
        schema: &'a Schema,
        columns: &'a [u16],
        values: &'a [u16],
        inclusive: bool,
        resume: Option<&'a [u8]>,
        most: usize,
    ) -> Result<Self, AllocError>
        requires columns_there { IsTrue (are_places schema.now.keys columns.now) }
        requires values_there { IsTrue (are_places schema.now.values values.now) }
        ensures none { IfOk result (λ g. HasPut g []) }
        ensures wanted { IfOk result (λ g. wanted_of g ≡ record { schema = schema.now; columns = columns.now; values = values.now; resume = option_copied resume.entry; inclusive = inclusive; most = most }) }
    {
        let kinds = kinds_in(alloc, schema.keys())?;
        let aggs = chosen_aggs(alloc, schema, values)?;
        let window = Window::of(&kinds, columns, values);
        Ok(Groups {
            schema,
            columns,
            values,
            resume,
            inclusive,
            most,
            kinds,
            aggs,
            window,
            held: Held::new(alloc),
            hand: Hand::new(alloc),
        })
    }

    /// One row more. After an error the groups are as they were.
    pub fn put(&mut self, row: LentRow) -> Result<(), GroupError>
        requires gathering { (given : List AnyRow) × HasPut self.old given }
        requires form { IsRowOf (wanted_of self.old).schema (lent row) }
        ensures put { OnOk result ((given : List AnyRow) → HasPut self.old given → HasPut self.new (given ++ lent row.entry ∷ [])) }
        ensures same { OnErr result ((given : List AnyRow) → HasPut self.old given → HasPut self.new given) }
        ensures wanted { wanted_of self.new ≡ wanted_of self.old }
        // A sum really leaves its type, that of the group whose key is at hand then,
        ensures sum { IfErr result (λ e. e ≡ GroupError.Sum → (given : List AnyRow) → HasPut self.old given → SumLeaves (wanted_of self.old) given (lent row.entry) (key_at_hand self.new)) }
        // and only where the absolute values of the rows may add up to more than it holds.
        ensures cause { IfErr result (λ e. e ≡ GroupError.Sum → (given : List AnyRow) → HasPut self.old given → KeepsSums (wanted_of self.old).schema (given ++ lent row.entry ∷ []) → ⊥) }
    {
        if let Some(window) = self.window
            && let Some(part) = window.row(row)
        {
            return self.put_part(row, part);
        }
        self.put_taken(row)
    }

    // One row more, of which this is put into its group.
    fn put_part(&mut self, row: LentRow, part: LentRow) -> Result<(), GroupError>
        requires gathering { (given : List AnyRow) × HasPut self.old given }
        requires form { IsRowOf (wanted_of self.old).schema (lent row) }
        requires part { lent part ≡ regrouped (wanted_of self.old).schema (wanted_of self.old).columns (wanted_of self.old).values (lent row) }
        ensures put { OnOk result ((given : List AnyRow) → HasPut self.old given → HasPut self.new (given ++ lent row.entry ∷ [])) }
        ensures same { OnErr result ((given : List AnyRow) → HasPut self.old given → HasPut self.new given) }
        ensures wanted { wanted_of self.new ≡ wanted_of self.old }
        ensures sum { IfErr result (λ e. e ≡ GroupError.Sum → (given : List AnyRow) → HasPut self.old given → SumLeaves (wanted_of self.old) given (lent row.entry) (key_at_hand self.new)) }
        ensures cause { IfErr result (λ e. e ≡ GroupError.Sum → (given : List AnyRow) → HasPut self.old given → KeepsSums (wanted_of self.old).schema (given ++ lent row.entry ∷ []) → ⊥) }
    {
        if !is_behind(self.inclusive, self.resume, part.key) {
            return Ok(());
        }
        if let Err(error) = self.held.put(&self.aggs, self.most, part.key, part.values) {
            // The key of the group that refused it is asked for then.
            self.hand.hold(part)?;
            return Err(error);
        }
        Ok(())
    }

    // One row more, whose columns are copied.
    fn put_taken(&mut self, row: LentRow) -> Result<(), GroupError>
        requires gathering { (given : List AnyRow) × HasPut self.old given }
        requires form { IsRowOf (wanted_of self.old).schema (lent row) }
        ensures put { OnOk result ((given : List AnyRow) → HasPut self.old given → HasPut self.new (given ++ lent row.entry ∷ [])) }
        ensures same { OnErr result ((given : List AnyRow) → HasPut self.old given → HasPut self.new given) }
        ensures wanted { wanted_of self.new ≡ wanted_of self.old }
        ensures sum { IfErr result (λ e. e ≡ GroupError.Sum → (given : List AnyRow) → HasPut self.old given → SumLeaves (wanted_of self.old) given (lent row.entry) (key_at_hand self.new)) }
        ensures cause { IfErr result (λ e. e ≡ GroupError.Sum → (given : List AnyRow) → HasPut self.old given → KeepsSums (wanted_of self.old).schema (given ++ lent row.entry ∷ []) → ⊥) }
    {
        self.hand.take(&self.kinds, self.columns, self.values, row)?;
        if !is_behind(self.inclusive, self.resume, self.hand.key()) {
            return Ok(());
        }
        self.held
            .put(&self.aggs, self.most, self.hand.key(), self.hand.values())
    }

    /// For the same groups, into which nothing was put.
    pub fn anew(&self) -> Result<Groups<'a>, AllocError>
        requires gathering { (given : List AnyRow) × HasPut self.now given }
        ensures none { IfOk result (λ g. HasPut g []) }
        ensures wanted { IfOk result (λ g. wanted_of g ≡ wanted_of self.now) }
    {
        Groups::new(
            *self.aggs.allocator(),
            self.schema,
            self.columns,
            self.values,
            self.inclusive,
            self.resume,
            self.most,
        )
    }

    /// Puts in the rows of newer groups, which are for the same: as if they were put in one by one, but only their groups are looked at.
    pub fn join(&mut self, newer: Groups) -> Result<(), GroupError>
        requires gathering { (given : List AnyRow) × HasPut self.old given }
        requires newer { (given : List AnyRow) × HasPut newer given }
        requires same { wanted_of newer ≡ wanted_of self.old }
        ensures put { OnOk result ((given more : List AnyRow) → HasPut self.old given → HasPut newer.entry more → HasPut self.new (given ++ more)) }
        ensures wanted { wanted_of self.new ≡ wanted_of self.old }
    {
        let rows = newer.into_rows()?;
        self.held.put_all(&self.aggs, self.most, rows.as_slice())
    }

    /// The group key of the row that was refused last.
    pub fn key_at_hand(&self) -> &[u8]
        ensures { result.now ≡ key_at_hand self.now }
    {
        self.hand.key()
    }

    /// For the first group at the key at hand or behind it, by the same key columns and without values. So no sum is formed, and `holds` tells whether a row of the group was put in.
    pub fn seek_group(&self) -> Result<Groups<'_>, AllocError>
        requires columns_there { IsTrue (are_places (wanted_of self.now).schema.keys (wanted_of self.now).columns) }
        ensures none { IfOk result (λ g. HasPut g []) }
        ensures wanted { IfOk result (λ g. wanted_of g ≡ group_from (wanted_of self.now).schema (wanted_of self.now).columns (key_at_hand self.now)) }
    {
        let alloc = *self.aggs.allocator();
        let key = Some(self.hand.key());
        Groups::new(alloc, self.schema, self.columns, &[], true, key, 1)
    }

    /// Whether a row of a group was put in, where these groups begin at that group's key.
    pub fn holds(&self, key: &[u8]) -> bool
        requires gathering { (given : List AnyRow) × HasPut self.now given }
        requires begins { wanted_of self.now ≡ group_from (wanted_of self.now).schema (wanted_of self.now).columns key.now }
        ensures { (given : List AnyRow) → HasPut self.now given → IsTrue result ↔ HasGroup (wanted_of self.now).schema (wanted_of self.now).columns key.now given }
    {
        self.held.holds(key)
    }

    /// The groups of the rows that were put in, in the order of their keys.
    pub fn into_rows(self) -> Result<RowList, AllocError>
        requires gathering { (given : List AnyRow) × HasPut self given }
        ensures rows { IfOk result (λ rows. (given : List AnyRow) → HasPut self.entry given → rows ≡ first_groups (wanted_of self.entry) given) }
        // So where as many as usize holds are wanted, these are all.
        ensures few { IfOk result (λ rows. length rows < 2 ^ 63) }
    {
        let Groups {
            schema: _,
            columns: _,
            values: _,
            resume: _,
            inclusive: _,
            most: _,
            kinds: _,
            aggs: _,
            window: _,
            held,
            hand: _,
        } = self;
        held.into_rows()
    }

    /// The page of the query that this was made for, over the rows that were put in.
    pub fn into_page(self, query: &Query) -> Result<Page, AllocError>
        requires gathering { (given : List AnyRow) × HasPut self given }
        requires of_query { wanted_of self ≡ wanted_by (wanted_of self).schema query.now }
        ensures page { IfOk result (λ page. (given : List AnyRow) → HasPut self.entry given → page ≡ page_of query.now.version query.now.limit query.now.resume (grouped (wanted_of self.entry).schema query.now.asked.columns query.now.asked.values given)) }
        ensures form { IfOk result (λ page. AreRowsOf (grouped_columns (wanted_of self.entry).schema query.now.asked.columns query.now.asked.values) page.rows) }
    {
        let rows = self.into_rows()?;
        page(query, rows.into_vec())
    }
}

// Whether a group key is behind the resume key, or is that key where it is wanted too.
fn is_behind(inclusive: bool, resume: Option<&[u8]>, key: &[u8]) -> bool
    ensures { result ≡ comes_after inclusive (option_copied resume.entry) key.now }
{
    let Some(resume) = resume else {
        return true;
    };
    let order = resume.cmp(key);
    if inclusive {
        order.is_le()
    } else {
        order.is_lt()
    }
}

// The types of key columns.
pub(crate) fn kinds_in(alloc: Global, columns: &[KeyColumn]) -> Result<Vec<KeyType>, AllocError>
    ensures { IfOk result (λ kinds. kinds.items ≡ map (λ (c : Column). c.kind) columns.now) }
{
    columns.iter().map(|column| column.kind).collect(alloc)
}

// The aggregations of the value columns at these places.
fn chosen_aggs(alloc: Global, schema: &Schema, places: &[u16]) -> Result<Vec<Agg>, AllocError>
    ensures { IfOk result (λ found. found.items ≡ chosen places.now (aggs_of schema.now)) }
{
    let columns = schema.values();
    let mut found = Vec::new(alloc);
    for place in places {
        if let Some(column) = columns.get(*place as usize) {
            found.push(column.agg)?;
        }
    }
    Ok(found)
}
