// Laws of generated scripts.
ghost use Rattle.mesa_generate.specs.Seeds.{SeedsGiveScripts};

/// The bytes that a seed gives with at most 20,000 versions spell a script.
pub fn seeds_give_scripts()
    ensures { SeedsGiveScripts }
{}
