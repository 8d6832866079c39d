//! Copies of attributes.

use crate::attr::{Attribute, Meta, MetaPath};
use crate::copies::duplicate::{Duplicate, duplicate_both};
use std::alloc::{AllocError, Global};

impl Duplicate for Attribute {
    fn duplicate(&self, alloc: Global) -> Result<Attribute, AllocError> {
        let meta = self.meta.duplicate(alloc)?;
        Ok(Attribute { meta })
    }
}

impl Duplicate for Meta {
    fn duplicate(&self, alloc: Global) -> Result<Meta, AllocError> {
        match self {
            Meta::Word(path) => path.duplicate(alloc).map(Meta::Word),
            Meta::List(path, written, span) => {
                let (path, written) = duplicate_both(alloc, path, written)?;
                Ok(Meta::List(path, written, *span))
            }
            Meta::NameValue(path, value, span) => {
                let (path, value) = duplicate_both(alloc, path, value)?;
                Ok(Meta::NameValue(path, value, *span))
            }
            Meta::Doc(token) => token.duplicate(alloc).map(Meta::Doc),
            Meta::Unread(path, written, span) => {
                let (path, written) = duplicate_both(alloc, path, written)?;
                Ok(Meta::Unread(path, written, *span))
            }
        }
    }
}

impl Duplicate for MetaPath {
    fn duplicate(&self, alloc: Global) -> Result<MetaPath, AllocError> {
        let written = self.written.duplicate()?;
        Ok(MetaPath { written })
    }
}
