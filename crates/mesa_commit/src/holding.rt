// Laws of files that wait.
ghost use Rattle.mesa_commit.specs.Filed.{FreedFilesAreUnheld, KeptFilesAreHad, TurnsKeepFiles};

/// A turn that makes files, names them, drops others and removes those that no pin holds keeps FilesAdopted.
pub fn turns_keep_files()
    ensures { TurnsKeepFiles }
{}

/// A file may be removed once no pin holds it: no pin had it, and it isn't named. What still waits then
/// was had by a pin.
pub fn holds_tell_files()
    ensures freed { FreedFilesAreUnheld }
    ensures kept { KeptFilesAreHad }
{}
