// Whether a lease holds still.
ghost use Rattle.std.specs.Prelude.{◌≡◌, ◌<◌, Ok, Err, IfErr, OnOk};
ghost use Rattle.mesa_engine.specs.EngineState.{books_of};
ghost use Rattle.mesa_write_turns.specs.mesa_history_spec.Rows.{no_rows};
ghost use Rattle.mesa_work_turns.specs.Claims.{lease_checked};

use mesa_engine::Metadata;
use mesa_lease::TABLES;
use mesa_model::Refusal;

/// Whether a lease of a table holds in the turn at a position, or why it doesn't: the vault has closed, or the lease is lost.
pub fn check(metadata: &Metadata, table: u16, lease: u64, position: u64) -> Result<(), Refusal>
    requires { table < TABLES }
    ensures held { OnOk result (lease_checked (books_of no_rows metadata.now.state) position table lease ≡ Ok tt) }
    ensures refused { IfErr result (λ x. lease_checked (books_of no_rows metadata.now.state) position table lease ≡ Err x) }
{
    metadata.check_open()?;
    let holder = metadata.holder(table, position);
    match holder {
        Some(number) => {
            if number == lease {
                Ok(())
            } else {
                Err(Refusal::Lost { lease, holder })
            }
        }
        None => Err(Refusal::Lost { lease, holder }),
    }
}
