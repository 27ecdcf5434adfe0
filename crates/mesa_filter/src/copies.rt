// Copies of terms, and of the words and refusals of queries.
use crate::{QueryError, QueryWords, Term};
use mesa_list::TryCopy;
use std::alloc::AllocError;

impl TryCopy for Term {
    fn copy(&self) -> Result<Self, AllocError> {
        Ok(Term {
            column: self.column,
            comparison: self.comparison,
            literals: self.literals.copy()?,
        })
    }
}

impl TryCopy for QueryWords {
    fn copy(&self) -> Result<Self, AllocError> {
        Ok(QueryWords {
            relation: self.relation.copy()?,
            version: self.version,
            filter: self.filter.copy()?,
            group: self.group.copy()?,
            values: self.values.copy()?,
            limit: self.limit,
            resume: self.resume.copy()?,
        })
    }
}

impl TryCopy for QueryError {
    fn copy(&self) -> Result<Self, AllocError> {
        Ok(match self {
            QueryError::NoColumn => QueryError::NoColumn,
            QueryError::ReplaceGroup { column } => QueryError::ReplaceGroup {
                column: column.copy()?,
            },
            QueryError::BadFilter { term } => QueryError::BadFilter { term: *term },
            QueryError::BadResume => QueryError::BadResume,
            QueryError::Memory => QueryError::Memory,
        })
    }
}
