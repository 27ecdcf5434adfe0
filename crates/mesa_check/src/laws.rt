// What faults say of a store.
ghost use Rattle.mesa_check.specs.Laws.{NoFaultIsSound, RangesAreOrdered, SoundHasNoFault, SoundIsFound};

/// There is no first fault exactly where the files that a catalogue names have rows of which holds what is to hold in a sound image.
pub fn sound_where_no_fault()
    ensures sound { NoFaultIsSound }
    ensures none { SoundHasNoFault }
    ensures found { SoundIsFound }
{}

/// Ranges are checked by their starts, and those of one start by their ends.
pub fn ranges_are_ordered()
    ensures { RangesAreOrdered }
{}
