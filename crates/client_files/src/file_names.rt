//! The names of caches and keytabs: a path, or `FILE:` and a path, as MIT's and Heimdal's tools accept them.
ghost use Rattle.std.specs.Prelude.{◌≡◌, IfOk};
ghost use Rattle.client_files.specs.CachePaths.{path_in};

use crate::faults::ClientError;

/// Where a name comes from.
#[derive(Clone, Copy)]
pub enum NameOf {
    /// After `--cache`.
    Cache,
    /// In `KRB5CCNAME`.
    CacheVariable,
    /// In the `default_ccache_name` of a `krb5.conf`.
    CacheSetting,
    /// After `--keytab`.
    Keytab,
}

impl NameOf {
    /// Returns the text after `error:` if there is no path.
    fn no_path(self) -> &'static str {
        match self {
            NameOf::Cache => "--cache takes a file: no path follows FILE:",
            NameOf::CacheVariable => "KRB5CCNAME names no file: no path follows FILE:",
            NameOf::CacheSetting =>
                "default_ccache_name of the krb5.conf names no file: no path follows FILE:",
            NameOf::Keytab => "--keytab takes a file: no path follows FILE:",
        }
    }

    /// Returns the text after `error:` if the name has a type other than a file's.
    fn other_type(self) -> &'static str {
        match self {
            NameOf::Cache =>
                "--cache names a cache of another type than FILE, which kclient has not: it takes a file",
            NameOf::CacheVariable =>
                "KRB5CCNAME names a cache of another type than FILE, which kclient has not: --cache takes a file",
            NameOf::CacheSetting =>
                "default_ccache_name of the krb5.conf names a cache of another type than FILE, which kclient has not: \
                 --cache takes a file",
            NameOf::Keytab =>
                "--keytab names a keytab of another type than FILE, which kclient has not: it takes a file",
        }
    }
}

/// Returns the path in a name, or what is wrong with the name. A word and a colon at the start give the type of the
/// name. To name a path that begins like that, put a slash before the colon, as in `./a:b`.
pub fn file_path(name: &str, of: NameOf) -> Result<&str, ClientError>
    ensures { IfOk result (λ path. path.now ≡ path_in name.now) }
{
    match name.split_once(':') {
        Some((front, path)) if front == "FILE" => path_there(path, of),
        Some((front, _)) if !front.contains('/') => Err(ClientError::usage(of.other_type())),
        _ => path_there(name, of),
    }
}

fn path_there(path: &str, of: NameOf) -> Result<&str, ClientError>
    ensures { IfOk result (λ there. there.now ≡ path.now) }
{
    if path.is_empty() {
        return Err(ClientError::usage(of.no_path()));
    }
    Ok(path)
}
