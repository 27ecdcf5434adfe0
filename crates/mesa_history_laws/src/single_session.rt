// Laws of one session alone.
ghost use Rattle.mesa_history_laws.specs.Alone.{PrintsAlone, RunsAlone};

/// Let at most one session of a script have commands, and let a run begin on a store that isn't closed. Where
/// every turn but a look stands, its history has the entries, but for their moments and the outcomes of looks,
/// that the script's sessions make one after another without a fault. So each work and each recast was renewed
/// before its close.
pub fn one_session_runs_alone()
    ensures { RunsAlone }
{}

/// What such a run prints is one text: that of the history without faults.
pub fn one_session_prints_one_text()
    ensures { PrintsAlone }
{}
