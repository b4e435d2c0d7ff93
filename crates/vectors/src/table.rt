// The table's lines.
use super::fault::TableFault;
use std::fmt;
use std::str::FromStr;

// What a case puts to the test.
#[derive(Clone, Copy, Debug, PartialEq, Eq)]
pub enum Group {
    Lines,
    Texts,
    Patches,
    Encode,
    Decode,
    Replies,
    Strings,
    Listings,
}

impl Group {
    // All of them, in the order in which they are run.
    pub const ALL: [Group; 8] = [
        Group::Lines,
        Group::Texts,
        Group::Patches,
        Group::Encode,
        Group::Decode,
        Group::Replies,
        Group::Strings,
        Group::Listings,
    ];

    // Its name in the table.
    fn name(self) -> &'static str {
        match self {
            Group::Lines => "lines",
            Group::Texts => "texts",
            Group::Patches => "patches",
            Group::Encode => "encode",
            Group::Decode => "decode",
            Group::Replies => "replies",
            Group::Strings => "strings",
            Group::Listings => "listings",
        }
    }

    // Whether a line may be a case of this group: it begins with its name. So no other line has to be taken apart for it.
    pub(crate) fn may_have(self, line: &str) -> bool {
        line.trim_start().starts_with(self.name())
    }
}

impl fmt::Display for Group {
    fn fmt<W: fmt::Write>(&self, f: &mut fmt::Formatter<W>) -> fmt::Result {
        f.write_str(self.name())
    }
}

impl FromStr for Group {
    type Err = TableFault;

    fn from_str(name: &str) -> Result<Group, TableFault> {
        Group::ALL
            .into_iter()
            .find(|group| group.name() == name)
            .ok_or(TableFault::NoCase)
    }
}

// A case: its fields as they stand in the table.
#[derive(Clone, Copy)]
pub struct Case<'t> {
    pub group: Group,
    pub name: &'t str,
    // how many bytes the row or buffer has that the call is lent
    pub room: usize,
    pub input: &'t str,
    pub answer: &'t str,
    // what comes out besides the answer, in digit pairs
    pub after: &'t str,
}

// The case on a line: six fields with bars between them.
impl<'t> TryFrom<&'t str> for Case<'t> {
    type Error = TableFault;

    fn try_from(line: &'t str) -> Result<Case<'t>, TableFault> {
        // What follows the last field that was taken.
        let mut left = Some(line);
        let mut field = || {
            let text = left.ok_or(TableFault::NoCase)?;
            let (first, others) = match text.split_once('|') {
                Some((first, others)) => (first, Some(others)),
                None => (text, None),
            };
            left = others;
            Ok::<_, TableFault>(first.trim())
        };
        let (group, name, room) = (field()?, field()?, field()?);
        let (input, answer, after) = (field()?, field()?, field()?);
        let group = group.parse::<Group>()?;
        if left.is_some() {
            return Err(TableFault::NoCase);
        }
        let Ok(room) = room.parse::<usize>() else {
            return Err(TableFault::NoRoom);
        };
        Ok(Case {
            group,
            name,
            room,
            input,
            answer,
            after,
        })
    }
}
