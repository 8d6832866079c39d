//! Copies of fields and variants.

use crate::copies::duplicate::{Duplicate, duplicate_both};
use crate::data::{Field, FieldShape, Variant};
use educe_tokens::pair;
use std::alloc::{AllocError, Global};

impl Duplicate for FieldShape {
    fn duplicate(&self, alloc: Global) -> Result<FieldShape, AllocError> {
        let fields = self.fields.duplicate(alloc)?;
        Ok(FieldShape {
            form: self.form,
            fields,
        })
    }
}

impl Duplicate for Field {
    fn duplicate(&self, alloc: Global) -> Result<Field, AllocError> {
        let named = duplicate_both(alloc, &self.attrs, &self.ident)?;
        let ((attrs, ident), ty) = pair(named, self.ty.duplicate(alloc))?;
        Ok(Field {
            attrs,
            ident,
            ty,
            span: self.span,
        })
    }
}

impl Duplicate for Variant {
    fn duplicate(&self, alloc: Global) -> Result<Variant, AllocError> {
        let named = duplicate_both(alloc, &self.attrs, &self.ident)?;
        let shaped = duplicate_both(alloc, &self.fields, &self.discriminant);
        let ((attrs, ident), (fields, discriminant)) = pair(named, shaped)?;
        Ok(Variant {
            attrs,
            ident,
            fields,
            discriminant,
            span: self.span,
        })
    }
}
