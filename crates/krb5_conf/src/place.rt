//! The place of a line.
ghost use Rattle.std.specs.Prelude.{◌≡◌, ◌<◌, ◌≤◌, ◌+◌, ◌-◌, ◌^◌};
ghost use Rattle.krb5_conf.specs.Line.{said};
ghost use Rattle.krb5_conf.specs.LinePlace.{behind, closed, group_place, is_place, named, opened, place_of};
ghost use Rattle.krb5_conf.specs.LinePlace.{section_place};

use crate::line::Line;

/// The place of a line.
#[derive(Clone, Copy)]
pub(crate) struct LinePlace<'a> {
    /// The name of the section that it is in; empty before the first section.
    pub section: &'a [u8],
    /// The outermost open group; empty if none is open.
    pub group: &'a [u8],
    /// How many groups are open.
    pub depth: usize,
    /// The tag of a relation without a value, whose group may start on a later line; else empty.
    pub waiting: &'a [u8],
}

impl<'a> LinePlace<'a> {
    /// Returns the place inside a section but in no group.
    pub(crate) fn of_section(section: &'a [u8]) -> LinePlace<'a>
        ensures place { place_of result ≡ section_place section.now }
        ensures depth { result.depth ≡ 0 }
    {
        LinePlace {
            section,
            group: b"",
            depth: 0,
            waiting: b"",
        }
    }

    /// Returns the place inside a group of a section but in no group within that.
    pub(crate) fn of_group(section: &'a [u8], group: &'a [u8]) -> LinePlace<'a>
        ensures { place_of result ≡ group_place section.now group.now }
    {
        LinePlace {
            section,
            group,
            depth: 1,
            waiting: b"",
        }
    }

    pub(crate) fn is(self, other: LinePlace<'_>) -> bool
        ensures { result ≡ is_place (place_of self.entry) (place_of other.entry) }
    {
        self.depth == other.depth && self.section == other.section && self.group == other.group
    }

    /// Returns the place of the line after this one.
    pub(crate) fn behind(self, line: Line<'a>) -> LinePlace<'a>
        requires { self.depth < 2 ^ 64 - 1 }
        ensures place { place_of result ≡ behind (place_of self.entry) (said line.entry) }
        ensures depth { result.depth ≤ self.entry.depth + 1 }
    {
        match line {
            Line::Nothing => self,
            Line::Relation(tag, value) => self.waiting_for(named(tag, value)),
            Line::Section(section) => LinePlace::of_section(section),
            Line::Open(group) => self.opened(group),
            Line::Brace => self.opened(self.waiting),
            Line::Close => self.closed(),
        }
    }

    /// Returns this place, where the group with this tag may start next.
    fn waiting_for(self, tag: &'a [u8]) -> LinePlace<'a>
        ensures place { place_of result ≡ record (place_of self.entry) { waiting = tag.now } }
        ensures depth { result.depth ≤ self.entry.depth + 1 }
    {
        LinePlace {
            section: self.section,
            group: self.group,
            depth: self.depth,
            waiting: tag,
        }
    }

    /// Returns the place inside one more group.
    fn opened(self, group: &'a [u8]) -> LinePlace<'a>
        requires { self.depth < 2 ^ 64 - 1 }
        ensures place { place_of result ≡ opened (place_of self.entry) group.now }
        ensures depth { result.depth ≤ self.entry.depth + 1 }
    {
        let group = if self.depth == 0 { group } else { self.group };
        LinePlace {
            section: self.section,
            group,
            depth: self.depth + 1,
            waiting: b"",
        }
    }

    /// Returns the place one group further out.
    fn closed(self) -> LinePlace<'a>
        ensures place { place_of result ≡ closed (place_of self.entry) }
        ensures depth { result.depth ≤ self.entry.depth + 1 }
    {
        if self.depth <= 1 {
            return LinePlace::of_section(self.section);
        }
        LinePlace {
            section: self.section,
            group: self.group,
            depth: self.depth - 1,
            waiting: b"",
        }
    }
}

/// Returns the tag of a relation without a value; else no tag.
fn named<'a>(tag: &'a [u8], value: &[u8]) -> &'a [u8]
    ensures { result.now ≡ named tag.now value.now }
{
    match value.split_first() {
        None => tag,
        Some(_) => b"",
    }
}
