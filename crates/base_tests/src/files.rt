//! Tests of files: keytabs and credential caches, and the stores of `file_store`.

mod credentials;
mod stores;
mod system;
