//! Copies of definitions.

use crate::copies::duplicate::Duplicate;
use crate::derive::{DeriveInput, Shape};
use std::alloc::{AllocError, Global};

impl Duplicate for DeriveInput {
    fn duplicate(&self, alloc: Global) -> Result<DeriveInput, AllocError> {
        let attrs = self.attrs.duplicate(alloc)?;
        let ident = self.ident.duplicate(alloc)?;
        let generics = self.generics.duplicate(alloc)?;
        let shape = self.shape.duplicate(alloc)?;
        let tokens = self.tokens.duplicate()?;
        Ok(DeriveInput {
            attrs,
            ident,
            generics,
            shape,
            tokens,
        })
    }
}

impl Duplicate for Shape {
    fn duplicate(&self, alloc: Global) -> Result<Shape, AllocError> {
        match self {
            Shape::Struct(shape) => Ok(Shape::Struct(shape.duplicate(alloc)?)),
            Shape::Enum(variants) => Ok(Shape::Enum(variants.duplicate(alloc)?)),
        }
    }
}
