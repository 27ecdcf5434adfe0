// A vault as the value of a turn lock.
use crate::Vault;
use mesa_disk::{Disk, Made};
use mesa_engine::Naming;
use mesa_io::Sink;
use mesa_turn::Turned;

impl<'s, N: Naming + Send, M: Made, D: Disk<M>, K: Sink + Send> Turned for Vault<'s, N, M, D, K> {
    ghost use Rattle.mesa_model.specs.Entry.{numbers_of};

    ghost history = { λ v. numbers_of v.shown.history };

    fn length(&self) -> u64 {
        self.engine.log.position()
    }
}
