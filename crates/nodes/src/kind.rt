// What a node's content begins with: its kind, by its number in the file.
ghost use Rattle.std.specs.Prelude.{◌≡◌};
ghost use Rattle.nodes.specs.Kind.{Decodes, kind_number};

#[derive(Clone, Copy, Debug, PartialEq, Eq)]
pub enum Kind {
    Input = 0,
    Output = 1,
    Register = 2,
    Async = 3,
    Clocked = 4,
    Gate = 5,
}

impl Kind {
    // The number in the file.
    pub fn number(self) -> u8
        ensures { result ≡ kind_number self }
    {
        self as u8
    }
}

// A number that no kind has.
#[derive(Clone, Copy, Debug, PartialEq, Eq)]
pub struct NoKind;

impl TryFrom<u8> for Kind {
    type Error = NoKind;

    ghost try_from_gives = { Decodes };

    fn try_from(number: u8) -> Result<Kind, NoKind> {
        match number {
            0 => Ok(Kind::Input),
            1 => Ok(Kind::Output),
            2 => Ok(Kind::Register),
            3 => Ok(Kind::Async),
            4 => Ok(Kind::Clocked),
            5 => Ok(Kind::Gate),
            _ => Err(NoKind),
        }
    }
}
