// The groups of views, before any row was put in.
ghost use Rattle.std.specs.Prelude.{◌≡◌, [], List, IfOk};
ghost use Rattle.std.specs.List.{AllByRecursion};
ghost use Rattle.mesa_open_files.specs.mesa_columns.declared.views.View.{View as AnyView};
ghost use Rattle.mesa_schema.specs.Changes.{columns_of};
ghost use Rattle.mesa_answer.specs.Gathered.{HasPut, wanted_of};
ghost use Rattle.mesa_answer.specs.Regrouping.{places_seen};
ghost use Rattle.mesa_view.specs.SumDamage.{view_groups};
ghost use Rattle.mesa_compact.specs.Grouping.{HavePut, TakesRows};
ghost use Rattle.mesa_compact.specs.Sources.{ArePlaces, AreSeen, AreSources};

use mesa_answer::{Groups, Regrouping};
use mesa_schema::{Evolving, Schema};
use std::alloc::{AllocError, Global};

/// The places of each view's columns among its table's.
pub fn regroupings(alloc: Global, evolving: &Evolving) -> Result<Vec<Regrouping>, AllocError>
    ensures seen { IfOk result (λ seen. AreSeen (columns_of evolving.now) evolving.now.views seen.items) }
    ensures places { IfOk result (λ seen. AllByRecursion (ArePlaces (columns_of evolving.now)) seen.items) }
{
    let mut seen = Vec::new(alloc);
    'each: for view in 0..evolving.views() {
        seen.push(Regrouping::of(alloc, evolving, view)?)?;
    }
    Ok(seen)
}

/// For each view a gatherer of all its groups, into which no row was put yet.
pub fn gatherers_of<'a>(
    alloc: Global,
    schema: &'a Schema,
    seen: &'a [Regrouping],
) -> Result<Vec<Groups<'a>>, AllocError>
    requires { AllByRecursion (ArePlaces schema.now) seen.now }
    ensures sources { IfOk result (λ groups. (views : List AnyView) → AreSeen schema.now views seen.now → AreSources schema.now views groups.items) }
    ensures none { IfOk result (λ groups. HavePut groups.items []) }
    ensures takes { IfOk result (λ groups. AllByRecursion (TakesRows schema.now) groups.items) }
{
    let mut groups = Vec::with_capacity(alloc, seen.len())?;
    'views: for places in seen {
        groups.push(gatherer(alloc, schema, places)?)?;
    }
    Ok(groups)
}

fn gatherer<'a>(
    alloc: Global,
    schema: &'a Schema,
    seen: &'a Regrouping,
) -> Result<Groups<'a>, AllocError>
    requires { ArePlaces schema.now seen.now }
    ensures source { IfOk result (λ g. (v : AnyView) → seen.now ≡ places_seen schema.now v → wanted_of g ≡ view_groups schema.now v) }
    ensures none { IfOk result (λ g. HasPut g []) }
    ensures takes { IfOk result (λ g. TakesRows schema.now g) }
{
    Groups::all(alloc, schema, seen.columns(), seen.values())
}
