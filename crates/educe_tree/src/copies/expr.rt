//! Copies of expressions.

use crate::copies::duplicate::{Duplicate, duplicate_both};
use crate::expr::{Expr, ExprPath};
use educe_tokens::pair;
use std::alloc::{AllocError, Global};

impl Duplicate for Expr {
    fn duplicate(&self, alloc: Global) -> Result<Expr, AllocError> {
        let written = self.written.duplicate()?;
        Ok(Expr {
            form: self.form,
            written,
        })
    }
}

impl Duplicate for ExprPath {
    fn duplicate(&self, alloc: Global) -> Result<ExprPath, AllocError> {
        let types = duplicate_both(alloc, &self.self_type, &self.path)?;
        let ((self_type, path), written) = pair(types, self.written.duplicate())?;
        Ok(ExprPath {
            self_type,
            path,
            written,
        })
    }
}
