//! Copies of identifiers and lifetimes.

use crate::copies::duplicate::Duplicate;
use crate::ident::Ident;
use crate::lifetime::Lifetime;
use std::alloc::{AllocError, Global};

impl Duplicate for Ident {
    fn duplicate(&self, alloc: Global) -> Result<Ident, AllocError> {
        let text = self.text.duplicate(alloc)?;
        Ok(Ident {
            text,
            span: self.span,
        })
    }
}

impl Duplicate for Lifetime {
    fn duplicate(&self, alloc: Global) -> Result<Lifetime, AllocError> {
        let text = self.text.duplicate(alloc)?;
        Ok(Lifetime {
            text,
            span: self.span,
        })
    }
}
