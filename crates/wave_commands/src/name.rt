//! How a file is shown.
ghost use Rattle.std.specs.Prelude.{◌≡◌, IfOk, string_bytes};
ghost use Rattle.wave_commands.specs.Names.{shown_name, IsNameOf};

use std::alloc::{AllocError, Global};
use wave_files::answers::FileName;
use wave_place::explain::push_shown;

/// How many scalars of a name are shown.
const MOST_SHOWN: usize = 4096;

/// The file of this path. The only error is out of memory.
pub fn file_name(alloc: Global, path: &str) -> Result<FileName, AllocError>
    ensures { IfOk result (IsNameOf path.now) }
{
    let shown = shown_name(alloc, path)?;
    Ok(FileName {
        path: String::from_str(alloc, path)?,
        shown,
    })
}

/// The path as it is shown: its scalars as those of texts, or, for `-`, the standard input.
fn shown_name(alloc: Global, path: &str) -> Result<String, AllocError>
    ensures { IfOk result (λ shown. string_bytes shown ≡ shown_name path.now) }
{
    if path == "-" {
        return String::from_str(alloc, "<stdin>");
    }
    let mut shown = String::new(alloc);
    push_shown(&mut shown, path, 0, MOST_SHOWN)?;
    Ok(shown)
}
