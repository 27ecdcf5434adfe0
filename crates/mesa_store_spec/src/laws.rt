// Laws of images.
ghost use Rattle.mesa_history_spec.specs.Found.{kept_of as kept_in_state};
ghost use Rattle.mesa_history_spec.specs.Run.{nothing_there};
ghost use Rattle.mesa_store_spec.specs.Sound.{IsSound, StandsFor, empty_image};
ghost use Rattle.mesa_history_spec.specs.mesa_model.declared.commands.Script.{Script};

/// An image in which nothing was written is sound, and stands for a warehouse in which nothing was
/// done.
pub fn empty_images_are_sound()
    ensures sound { IsSound empty_image }
    ensures empty { (script : Script) → StandsFor empty_image (kept_in_state (nothing_there script)) }
{}
