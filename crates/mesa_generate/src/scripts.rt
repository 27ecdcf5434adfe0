// The generated script.
ghost use Rattle.std.specs.Prelude.{◌≡◌, IfOk};
ghost use Rattle.mesa_invariant_spec.specs.mesa_script.Generated.{generated};

use crate::generator::Generator;
use std::alloc::{AllocError, Global};

// The table and its view.
const BEFORE: &[u8] =
    b"table,facts,day int;site int,clicks sum;low min;last replace\nview,by_site,facts,site,clicks;low\n";

// The queries of the newest version.
const BEHIND: &[u8] =
    b"query,facts,latest,,-,clicks;low\nquery,by_site,latest,site<16,,,8\nquery,facts,latest,day=0&site>=48,,,4\n";

/// The script of a seed with so many versions: a table and a view of it, versions of four rows
/// each, each followed by a work and some by an expiry, and three queries.
pub fn generate(alloc: Global, seed: u32, versions: u32) -> Result<Vec<u8>, AllocError>
    ensures { IfOk result (λ script. script.items ≡ generated seed versions) }
{
    let mut generator = Generator::new(alloc, seed);
    generator.write(BEFORE)?;
    'versions: for version in 0..versions {
        generator.write_version(version)?;
    }
    generator.write(BEHIND)?;
    Ok(generator.script)
}
