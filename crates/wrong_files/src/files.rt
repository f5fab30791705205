//! The files of a system, read in their order.
ghost use Rattle.std.specs.Prelude.{◌≡◌, ◌≤◌, ◌^◌, All, IfErr, IfOk};
ghost use Rattle.system_model.specs.declared.system.Component.{Component};
ghost use Rattle.system_model.specs.Bounds.{BindsParameters};
ghost use Rattle.system_model.specs.Sound.{IsSound};
ghost use Rattle.system_files.specs.Loads.{EndsLoading, IsNamed, Loads};
ghost use Rattle.system_files.specs.Order.{Found, search_of};

use sim_base::Folder;
use std::alloc::Global;
use system_files::{LoadError, Loaded, Subject, load};

/// Reads the files in a directory in their order, and answers the system that they make and the values that its bindings
/// give, or the file that isn't taken, and why.
pub fn load_files<F: Folder>(
    alloc: Global,
    subject: Subject,
    directory: &str,
    resolution: u64,
    folder: &mut F,
) -> Result<Loaded, LoadError>
    requires above { 1 ≤ resolution }
    requires within { resolution ≤ 2 ^ 62 }
    ensures ok { IfOk result (λ loaded. Loads (search_of subject directory.now resolution)
        (Found loaded) (F.view folder.old) (F.view folder.new)) }
    ensures sound { IfOk result (λ loaded. IsSound loaded.system) }
    ensures named { IfOk result (λ loaded. All IsNamed loaded.system.components) }
    ensures counts { IfOk result
        (λ loaded. All (λ (c : Component). c.shape.resolution ≡ resolution)
        loaded.system.components) }
    ensures bound { IfOk result (λ loaded. BindsParameters loaded.system loaded.bound) }
    ensures err { IfErr result (λ end. EndsLoading (search_of subject directory.now resolution) end
        (F.view folder.old) (F.view folder.new)) }
{
    load(alloc, subject, directory, resolution, folder)
}
