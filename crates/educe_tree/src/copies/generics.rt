//! Copies of generic parameters and predicates.

use crate::copies::duplicate::{Duplicate, duplicate_both};
use crate::generics::{
    ConstParam, GenericParam, Generics, LifetimeParam, TypeParam, WherePredicate,
};
use std::alloc::{AllocError, Global};

impl Duplicate for Generics {
    fn duplicate(&self, alloc: Global) -> Result<Generics, AllocError> {
        let (params, predicates) = duplicate_both(alloc, &self.params, &self.predicates)?;
        Ok(Generics { params, predicates })
    }
}

impl Duplicate for GenericParam {
    fn duplicate(&self, alloc: Global) -> Result<GenericParam, AllocError> {
        match self {
            GenericParam::Lifetime(param) => Ok(GenericParam::Lifetime(param.duplicate(alloc)?)),
            GenericParam::TypeParam(param) => Ok(GenericParam::TypeParam(param.duplicate(alloc)?)),
            GenericParam::Const(param) => Ok(GenericParam::Const(param.duplicate(alloc)?)),
        }
    }
}

impl Duplicate for LifetimeParam {
    fn duplicate(&self, alloc: Global) -> Result<LifetimeParam, AllocError> {
        let (lifetime, written) = duplicate_both(alloc, &self.lifetime, &self.written)?;
        Ok(LifetimeParam { lifetime, written })
    }
}

impl Duplicate for TypeParam {
    fn duplicate(&self, alloc: Global) -> Result<TypeParam, AllocError> {
        let (ident, written) = duplicate_both(alloc, &self.ident, &self.written)?;
        Ok(TypeParam { ident, written })
    }
}

impl Duplicate for ConstParam {
    fn duplicate(&self, alloc: Global) -> Result<ConstParam, AllocError> {
        let (ident, written) = duplicate_both(alloc, &self.ident, &self.written)?;
        Ok(ConstParam { ident, written })
    }
}

impl Duplicate for WherePredicate {
    fn duplicate(&self, alloc: Global) -> Result<WherePredicate, AllocError> {
        let written = self.written.duplicate()?;
        Ok(WherePredicate { written })
    }
}
