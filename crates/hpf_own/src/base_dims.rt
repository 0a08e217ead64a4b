//! The dimensions of a base.

ghost use Rattle.std.specs.Prelude.{◌≡◌, [], ◌∷◌, ◌++◌, All, OnOk, OnErr};
ghost use Rattle.hpf_own.specs.Mapping.{HasOwners};

use crate::image::BaseDim;
use std::alloc::{AllocError, Global};
use std::marker::Model;

/// The dimensions of a base, in order. It is seen as the list of them.
#[derive(Drop)]
pub struct BaseDims {
    dims: Vec<BaseDim>,
}

impl Model for BaseDims {
    ghost use Rattle.std.specs.Prelude.{List};
    ghost use Rattle.hpf_own.specs.declared.image.BaseDim.{BaseDim};

    ghost Value = { List BaseDim };

    ghost view = { λ dims. dims.dims.items };

    ghost use Rattle.std.specs.Prelude.{All};
    ghost use Rattle.hpf_own.specs.Mapping.{HasOwners};

    ghost invariant = { λ dims. All (λ d. HasOwners d.cut) dims.dims.items };
}

impl BaseDims {
    /// No dimension yet.
    pub fn new(alloc: Global) -> BaseDims
        ensures { result ≡ [] }
    {
        BaseDims {
            dims: Vec::new(alloc),
        }
    }

    /// Adds a dimension at the end. Where there is no memory for it, it is dropped and the list stays as it was.
    pub fn push(&mut self, _alloc: Global, dim: BaseDim) -> Result<(), AllocError>
        ensures ok { OnOk result (self.new ≡ self.old ++ dim ∷ []) }
        ensures err { OnErr result (self.new ≡ self.old) }
    {
        // (an axis has owners, as every axis does)
        let _ = dim.procs();
        self.dims.push(dim)?;
        Ok(())
    }

    /// The dimensions. Each position of one that is divided has an owner.
    pub fn as_slice(&self) -> &[BaseDim]
        ensures same { result.now ≡ self.now }
        ensures owners { All (λ d. HasOwners d.cut) self.now }
    {
        self.dims.as_slice()
    }
}
