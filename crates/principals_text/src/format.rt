//! The versions of the database text.
ghost use Rattle.std.specs.Prelude.{◌≡◌, not, length};
ghost use Rattle.std.specs.List.{filter};
ghost use Rattle.principals_text.specs.Format.{format_of, lacks, row_members};

use principal_rows::Policy;
use text_fields::{NEWEST_VERSION, Setting};

/// A version of the database text.
#[derive(Clone, Copy, PartialEq, Eq)]
pub(crate) struct Format {
    number: u64,
}

impl Format {
    /// Returns the version with this number, if there is one.
    pub(crate) fn from_number(number: u64) -> Option<Format>
        ensures { result ≡ format_of number }
    {
        if number == 0 || number > NEWEST_VERSION {
            return None;
        }
        Some(Format { number })
    }

    /// Returns how many members the object of a row has: its fields of a policy, and `keys`.
    pub(crate) fn row_members(self) -> usize
        ensures { result ≡ row_members self }
    {
        self.count_fields(&Setting::all(Policy::default())) + 1
    }

    /// Returns how many of these fields rows have.
    fn count_fields(self, settings: &[Setting]) -> usize
        ensures { result ≡ length (filter (λ s. not (lacks self s)) settings.now) }
    {
        settings
            .iter()
            .filter(|setting| !self.lacks(**setting))
            .count()
    }

    /// Checks whether rows lack the field of this setting.
    pub(crate) fn lacks(self, setting: Setting) -> bool
        ensures { result ≡ lacks self setting }
    {
        setting.since() > self.number
    }
}
