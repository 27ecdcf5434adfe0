// The places of the standard streams.
ghost use Rattle.std.specs.Prelude.{IfOk};
ghost use Rattle.mesa_os.specs.Calls.{IsOpened};

use mesa_os::System;
use std::io;

// How many standard streams there are.
const STREAMS: i32 = 3;

/// A folder that was opened, and what holds the places of the standard streams that were closed when the
/// program began. As long as it is there, no file that is opened takes such a place, so nothing that is
/// printed gets into a file. What holds a place can't be written.
#[derive(Drop)]
pub(crate) struct OpenedFolder<S: System> {
    pub folder: S::Handle,
    pub places: Vec<S::Handle>,
}

/// Opens a folder, behind the places of the standard streams.
pub(crate) fn open_behind_streams<S: System>(system: S, path: &str) -> io::Result<OpenedFolder<S>>
    ensures { IfOk result (λ o. IsOpened path.now (S.calls o.folder)) }
{
    let mut places = Vec::new(system.memory());
    let mut folder = system.open(path)?;
    'streams: for _ in 0..STREAMS {
        if !system.is_stream(&folder) {
            break;
        }
        places.push(folder)?;
        folder = system.open(path)?;
    }
    Ok(OpenedFolder { folder, places })
}
