// Laws of what a load sees.
ghost use Rattle.mesa_core.specs.Sight.{SightLasts};

/// While no table, view or column is made or changed, a load sees the same: so what was prepared by one look stands for
/// as long as the generation does.
pub fn sights_last()
    ensures { SightLasts }
{}
