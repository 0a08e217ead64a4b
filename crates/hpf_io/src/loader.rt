//! Where named texts come from.

ghost use Rattle.std.specs.Prelude.{◌≡◌, ◌≢◌, ◌≤◌, ◌+◌, length, true, Some, None, Err, IfOk, IsErrOf};
ghost use Rattle.hpf_io.specs.States.{LoaderState};
ghost use Rattle.hpf_io.specs.Counts.{Rose, last_count};
ghost use Rattle.hpf_io.specs.Files.{Files, HasFront};

use crate::text::{LoadError, Text};
use std::alloc::Global;

/// A loader of texts by their names.
pub trait Loader {
    /// The files that it has, how often a load has failed, the name of the last one that did, and which loads may fail.
    ghost state: { Self → LoaderState };

    /// The first `limit + 1` bytes of the file of that name, or all of them where there are fewer.
    fn load(&mut self, alloc: Global, name: &str, limit: usize) -> Result<Text, LoadError>
        ensures kept { (all : Files) → (state self.new).files ≡ Some all → (state self.old).files ≡ Some all }
        ensures within { IfOk result (λ text. length text ≤ limit + 1) }
        ensures front { IfOk result (λ text. (all : Files) → (state self.new).files ≡ Some all → HasFront all name.now (limit + 1) text) }

        // A load that failed is counted, and its name is kept.
        ensures failed { IsErrOf result LoadError.Failed → Rose (state self.old).faults (state self.new).faults }
        ensures name { IsErrOf result LoadError.Failed → (state self.new).missed ≡ Some name.now }
        ensures cause { IsErrOf result LoadError.Failed → (state self.old).may_miss name.now ≡ true }

        // Any other answer leaves both.
        ensures counted { result ≢ Err LoadError.Failed → (state self.new).faults ≡ (state self.old).faults }
        ensures same { result ≢ Err LoadError.Failed → (state self.new).missed ≡ (state self.old).missed }
        ensures later { (state self.old).faults ≤ (state self.new).faults };

    /// Only a loader that tells nothing can have counted to the last value.
    ghost told_below_last: { (l : Self) → (state l).faults ≡ last_count → (state l).files ≡ None };
}
