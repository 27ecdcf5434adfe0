// Laws of scripts, and of stores that a run starts from.
ghost use Rattle.std.specs.Prelude.{◌≡◌, ℕ, List, [], Ok, Option};
ghost use Rattle.mesa_disk.specs.Image.{Image as AnyImage};
ghost use Rattle.mesa_shell.specs.Alone.{RunsUnfailed};
ghost use Rattle.mesa_shell.specs.Life.{LifeLaw, kept_at_first};
ghost use Rattle.mesa_shell.specs.Lives.{LivesLaw};
ghost use Rattle.mesa_shell.specs.Next.{CrashLeavesFront, OpensSound, RestLeavesSound, RunLeavesSound};
ghost use Rattle.mesa_shell.specs.Ports.{ports};
ghost use Rattle.mesa_shell.specs.Scripts.{IsSmall};
ghost use Rattle.mesa_shell.specs.StoreStart.{start_of};
ghost use Rattle.mesa_shell.specs.declared.done.Devices.{Devices};
ghost use Rattle.mesa_shell.specs.declared.done.Done.{Done};
ghost use Rattle.mesa_session.specs.mesa_history_spec.Run.{nothing_there};
ghost use Rattle.mesa_engine.specs.mesa_store_spec.Catalog.{Catalog, empty_catalog};
ghost use Rattle.mesa_engine.specs.mesa_store_spec.Shape.{IsCatalog};
ghost use Rattle.mesa_engine.specs.mesa_store_spec.Sound.{HaveSoundRows, IsSoundAs, StandsFor};
ghost use Rattle.mesa_model.specs.WellFormed.{IsWellFormed};
ghost use Rattle.mesa_model.specs.declared.commands.Script.{Script};
ghost use Rattle.mesa_script.specs.Script.{script_of};
ghost use Rattle.mesa_session.specs.mesa_history_spec.Bare.{bare_state};
ghost use Rattle.mesa_session.specs.mesa_history_spec.Rows.{Rows, no_rows};
ghost use Rattle.mesa_parse.specs.declared.forms.Form.{Form as AnyForm};

use mesa_disk::{Disk, Made};

/// Whatever rows a store's files have, a run starts from one projection.
pub fn stores_start_alike()
    ensures { (script : Script) (c : Catalog) (rows others : Rows) → bare_state (start_of script c rows) ≡ bare_state (start_of script c others) }
{}

/// A sound store is a well-formed warehouse: what the fold law asks of a start holds of it.
pub fn stores_start_well_formed()
    ensures { (script : Script) (c : Catalog) (rows : Rows) → IsCatalog c → HaveSoundRows rows c → IsWellFormed (start_of script c rows).warehouse }
{}

/// A store in which nothing was written, in neither area of its journal, is sound, it stands for what an empty store keeps, and a run starts
/// from nothing there.
pub fn empty_stores_are_sound()
    ensures sound { (image : AnyImage) → image.zero ≡ [] → image.one ≡ [] → IsSoundAs image [] empty_catalog no_rows }
    ensures stands { (image : AnyImage) → image.zero ≡ [] → image.one ≡ [] → StandsFor image kept_at_first }
    ensures start { (script : Script) → start_of script empty_catalog no_rows ≡ nothing_there script }
{}

/// Every script that bytes spell has a prologue, and not too many sessions and commands.
pub fn scripts_are_small()
    ensures { (bytes : List ℕ) (script : Script) → script_of bytes ≡ Ok script → IsSmall script }
{}

/// Run after run: a call over a sound store leaves a sound one, unless a fault closed it, while the disk's
/// clock goes on. It keeps what it kept with all the turns of the call, so the next run starts from there; a
/// call that took no turn leaves what there was. A crash at any moment leaves what the store kept with a front
/// of the turns; and so it is kept by a disk that is opened from that image.
pub fn calls_leave_sound_stores<M: Made, D: Disk<M>, K, B>()
    ensures run { (held : K → Option (List ℕ)) (sink_faults : K → ℕ) (bench_faults : B → ℕ) (given : Devices K D B) (done : Done K D B) (asked : Option AnyForm) (input : Option (List ℕ)) (before now : ℕ)
        → RunLeavesSound (ports held sink_faults D.story M.bytes bench_faults) given done asked input before now }
    ensures rest { (held : K → Option (List ℕ)) (sink_faults : K → ℕ) (bench_faults : B → ℕ) (given : Devices K D B) (done : Done K D B) (asked : Option AnyForm) (input : Option (List ℕ)) (before now : ℕ)
        → RestLeavesSound (ports held sink_faults D.story M.bytes bench_faults) given done asked input before now }
    ensures crash { (held : K → Option (List ℕ)) (sink_faults : K → ℕ) (bench_faults : B → ℕ) (given : Devices K D B) (done : Done K D B) (asked : Option AnyForm) (input : Option (List ℕ)) (before now : ℕ)
        → CrashLeavesFront (ports held sink_faults D.story M.bytes bench_faults) given done asked input before now }
    ensures opened { (disk : D) → OpensSound M.bytes (D.story disk) }
{}

/// From an empty store, after any runs and whatever crashes came between them, each content at a version that
/// can be queried is the fold of all batches that were accepted through it, each carried to the present: lifted
/// through the changes of its table's schema, and grouped by its recasts.
pub fn contents_are_folds_of_all_batches()
    ensures { LifeLaw }
{}

/// A life of calls and crashes that begins with an empty store is such a list of runs: the store is sound behind
/// it, and keeps what they come to.
pub fn lives_are_lists_of_runs<M: Made, D: Disk<M>, K, B>()
    ensures { (held : K → Option (List ℕ)) (sink_faults : K → ℕ) (bench_faults : B → ℕ) → LivesLaw (ports held sink_faults D.story M.bytes bench_faults) }
{}

/// Where no count rose in a run and no printed reply is memory, each turn but a look stands; so of one session
/// alone the sink was given one text.
pub fn unfailed_runs_stand<M: Made, D: Disk<M>, K, B>()
    ensures { (held : K → Option (List ℕ)) (sink_faults : K → ℕ) (bench_faults : B → ℕ) (given : Devices K D B) (done : Done K D B) (input : Option (List ℕ)) (before now : ℕ)
        → RunsUnfailed (ports held sink_faults D.story M.bytes bench_faults) given done input before now }
{}
