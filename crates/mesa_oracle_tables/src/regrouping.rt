// What a recast makes of a table: of its columns and its contents.
ghost use Rattle.std.specs.Prelude.{◌≡◌, map, Ok, IfOk};
ghost use Rattle.std.specs.List.{AllByRecursion};
ghost use Rattle.mesa_schema.specs.Recasts.{recast_checked, recast_lineage};
ghost use Rattle.mesa_oracle_tables.specs.Kept.{all_shared, content_in as content_of, contents_in, contents_recast, shared};
ghost use Rattle.mesa_oracle_tables.specs.Sound.{CanGroup};

use crate::store::{Contents, push_contents, shared_again};
use mesa_answer::recast_rows;
use mesa_binding::RecastNames;
use mesa_schema::{Evolving, RowList, Schema};
use std::alloc::{AllocError, Global};
use std::collections::VecDeque;
use std::sync::Arc;

// A table's columns and views once it is recast to these columns, which its rules allow: what pins share stays as it is.
pub(crate) fn renewed(
    alloc: Global,
    evolving: &Evolving,
    names: RecastNames,
) -> Result<Arc<Evolving>, AllocError>
    requires { recast_checked evolving.now (record { keys = names.keys; values = names.values }) ≡ Ok tt }
    ensures { IfOk result (λ after. after.value ≡ recast_lineage evolving.now (record { keys = names.keys; values = names.values })) }
{
    let after = evolving.renewed(names.keys.into_vec(), names.values.into_vec())?;
    let _epoch = after.epoch();
    let shared = Arc::new(alloc, after)?;
    Ok(shared)
}

// The contents at all versions, where the rows of the table of a number are grouped by these of its columns.
pub(crate) fn versions_recast(
    alloc: Global,
    versions: &VecDeque<Contents>,
    table: usize,
    schema: &Schema,
    names: &RecastNames,
) -> Result<VecDeque<Contents>, AllocError>
    requires { AllByRecursion (CanGroup schema.now) (contents_in table versions.now.items) }
    ensures { IfOk result (λ recast. all_shared recast.items ≡ map (contents_recast table schema.now (record { keys = names.now.keys; values = names.now.values })) (all_shared versions.now.items)) }
{
    let mut recast = VecDeque::new(alloc);
    'versions: for contents in versions {
        push_contents(
            &mut recast,
            contents_grouped(alloc, contents.as_slice(), table, schema, names)?,
        )?;
    }
    Ok(recast)
}

// The contents at one version, where the rows of the table of a number are grouped; the other tables share theirs.
fn contents_grouped(
    alloc: Global,
    contents: &[Arc<RowList>],
    table: usize,
    schema: &Schema,
    names: &RecastNames,
) -> Result<Contents, AllocError>
    requires { CanGroup schema.now (content_of table contents.now) }
    ensures { IfOk result (λ recast. shared recast ≡ contents_recast table schema.now (record { keys = names.now.keys; values = names.now.values }) (shared contents.now)) }
{
    let mut recast = shared_again(alloc, contents)?;
    let Some(content) = contents.get(table) else {
        return Ok(recast);
    };
    let rows = recast_rows(
        alloc,
        schema,
        names.keys.as_slice(),
        names.values.as_slice(),
        content.as_slice(),
    )?;
    let own = Arc::new(alloc, rows)?;
    *recast.at_mut(table) = own;
    Ok(recast)
}
