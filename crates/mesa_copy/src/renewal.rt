// What a recast makes of its table's columns, worked out once for all ranges.
ghost use Rattle.std.specs.Prelude.{◌≡◌, IfOk, Ok};
ghost use Rattle.mesa_schema.specs.Recasts.{recast_checked};
ghost use Rattle.mesa_open_files.specs.Recasts.{recast_in, recast_table};
ghost use Rattle.mesa_copy.specs.Renewals.{IsRenewal};

use mesa_disk::FileReader;
use mesa_filter::chosen_places;
use mesa_list::TryCopy;
use mesa_open_files::Recast;
use mesa_schema::Evolving;
use std::alloc::{AllocError, Global};
use std::sync::Arc;

/// A table before its recast and after it, and the places of the columns that it keeps among those before.
#[derive(Drop)]
pub struct Renewal {
    pub table: Arc<Evolving>,
    pub renewed: Evolving,
    pub columns: Vec<u16>,
    pub values: Vec<u16>,
}

impl Renewal {
    /// Of the table of a recast, by its columns.
    pub fn of<R: FileReader>(alloc: Global, recast: &Recast<R>) -> Result<Renewal, AllocError>
        requires allowed { recast_checked (recast_table recast.now) (recast_in recast.now) ≡ Ok tt }
        ensures renewal { IfOk result (IsRenewal (recast_in recast.now)) }
        ensures table { IfOk result (λ x. x.table.value ≡ recast_table recast.now) }
    {
        let keys = recast.keys.copy()?.into_vec();
        let values = recast.values.copy()?.into_vec();
        let renewed = recast.evolving.renewed(keys, values)?;
        let present = recast.evolving.present();
        let columns = chosen_places(alloc, recast.keys.as_slice(), present.keys())?;
        let values = chosen_places(alloc, recast.values.as_slice(), present.values())?;
        let table = recast.evolving.clone()?;
        Ok(Renewal {
            table,
            renewed,
            columns,
            values,
        })
    }
}
