//! A variable of the environment.
use std::alloc::AllocError;
use std::env::VarError;

/// The value of a variable of the environment.
#[derive(Clone, Copy)]
pub enum Variable<'a> {
    /// It is not set, or empty.
    Absent,
    /// It is not UTF-8.
    NotUtf8,
    /// Its value.
    Text(&'a str),
}

impl<'a> Variable<'a> {
    /// Converts the result of `env::var`. Fails if memory ran out.
    pub fn new(read: &'a Result<String, VarError>) -> Result<Variable<'a>, AllocError> {
        match read {
            Ok(value) if value.is_empty() => Ok(Variable::Absent),
            Ok(value) => Ok(Variable::Text(value.as_str())),
            Err(VarError::NotPresent) => Ok(Variable::Absent),
            Err(VarError::NotUnicode) => Ok(Variable::NotUtf8),
            Err(VarError::OutOfMemory) => Err(AllocError),
        }
    }
}
