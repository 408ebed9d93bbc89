//! What a command works on.

use crate::asking::AskedSetting;
use enctypes::Etype;
use file_store::NewMode;

/// What a command works on: a database, its principals by name, and their new settings; and how it may change them.
#[derive(Drop)]
pub struct Target<'a> {
    /// The path of the database.
    pub db: &'a str,
    /// The texts of the names that the command gives.
    pub names: Vec<&'a str>,
    /// The settings of a policy that it asks for.
    pub settings: Vec<AskedSetting<'a>>,
    /// The encryption types of new keys.
    pub etypes: Vec<Etype>,
    /// The mode of a changed file.
    pub mode: NewMode,
    /// Whether the command may keep everybody in the realm from logging in.
    pub whole_realm: bool,
}
