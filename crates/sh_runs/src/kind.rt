//! What the name of a command means.
ghost use Rattle.std.specs.Prelude.{◌≡◌};
ghost use Rattle.std.specs.Str.{bytes_eq};
ghost use Rattle.sh_runs.specs.standard.Kinds as kinds;

use sh_tree::KnownName;

/// What a command does, by its name (XCU 2.9.1.4, 2.15).
#[derive(Clone, Copy, Debug, PartialEq, Eq)]
pub enum Kind {
    /// A special built-in utility (XCU 2.15): no function has its name.
    Special(KnownName),
    // Utilities that set variables, run a command by its name, or have a known status.
    Cd,
    Command,
    False,
    Getopts,
    Read,
    True,
    /// A name that is refused. What it runs is in no reading of the script, the standard gives it
    /// no meaning, or other shells reserve it. A quoted command name of the last kind is a utility.
    Refused(KnownName),
    /// Any other name: a utility that changes no variable and no function, unless it is a function.
    Utility,
}

impl Kind {
    /// The name that has the kind; of a utility, which any other name is, none.
    #[tactic(auto, unfolding(crate::specs::standard::Kinds::name_of))]
    fn text(self) -> &'static str
        ensures { result.now ≡ kinds.name_of self }
    {
        match self {
            Kind::Special(name) => name.text(),
            Kind::Refused(name) => name.text(),
            Kind::Cd => "cd",
            Kind::Command => "command",
            Kind::False => "false",
            Kind::Getopts => "getopts",
            Kind::Read => "read",
            Kind::True => "true",
            Kind::Utility => "",
        }
    }

    /// Whether it is a special built-in utility's.
    #[tactic(auto, unfolding(crate::specs::standard::Kinds::is_special))]
    pub fn is_special(self) -> bool
        ensures { result ≡ kinds.is_special self }
    {
        matches!(self, Kind::Special(_))
    }
}

// The kinds that names of so many bytes have.

const OF_ONE: [Kind; 2] = [
    Kind::Special(KnownName::Colon),
    Kind::Special(KnownName::Dot),
];

const OF_TWO: [Kind; 4] = [
    Kind::Cd,
    Kind::Refused(KnownName::Fc),
    Kind::Refused(KnownName::LeftBrackets),
    Kind::Refused(KnownName::RightBrackets),
];

const OF_THREE: [Kind; 2] = [Kind::Special(KnownName::Set), Kind::Refused(KnownName::Let)];

const OF_FOUR: [Kind; 7] = [
    Kind::Special(KnownName::Eval),
    Kind::Special(KnownName::Exec),
    Kind::Special(KnownName::Exit),
    Kind::Special(KnownName::Trap),
    Kind::Read,
    Kind::True,
    Kind::Refused(KnownName::Time),
];

const OF_FIVE: [Kind; 9] = [
    Kind::Special(KnownName::Break),
    Kind::Special(KnownName::Shift),
    Kind::Special(KnownName::Times),
    Kind::Special(KnownName::Unset),
    Kind::False,
    Kind::Refused(KnownName::Alias),
    Kind::Refused(KnownName::Local),
    Kind::Refused(KnownName::Float),
    Kind::Refused(KnownName::Shopt),
];

const OF_SIX: [Kind; 4] = [
    Kind::Special(KnownName::Export),
    Kind::Special(KnownName::Return),
    Kind::Refused(KnownName::Source),
    Kind::Refused(KnownName::Select),
];

const OF_SEVEN: [Kind; 9] = [
    Kind::Command,
    Kind::Getopts,
    Kind::Refused(KnownName::Unalias),
    Kind::Refused(KnownName::Typeset),
    Kind::Refused(KnownName::Declare),
    Kind::Refused(KnownName::Builtin),
    Kind::Refused(KnownName::Nameref),
    Kind::Refused(KnownName::Integer),
    Kind::Refused(KnownName::Mapfile),
];

const OF_EIGHT: [Kind; 3] = [
    Kind::Special(KnownName::Continue),
    Kind::Special(KnownName::Readonly),
    Kind::Refused(KnownName::Function),
];

const OF_NINE: [Kind; 2] = [
    Kind::Refused(KnownName::Readarray),
    Kind::Refused(KnownName::Namespace),
];

#[tactic(auto, using(crate::proofs::KindLemmas::none_of_length), unfolding(crate::specs::standard::Kinds::of_length, crate::specs::standard::Kinds::name_of))]
fn of_length(length: usize) -> &'static [Kind]
    ensures { kinds.rows_of result.now ≡ kinds.of_length length }
{
    match length {
        1 => &OF_ONE,
        2 => &OF_TWO,
        3 => &OF_THREE,
        4 => &OF_FOUR,
        5 => &OF_FIVE,
        6 => &OF_SIX,
        7 => &OF_SEVEN,
        8 => &OF_EIGHT,
        9 => &OF_NINE,
        _ => &[],
    }
}

/// Whether the kind is that of the name.
fn has_name(kind: Kind, name: &[u8]) -> bool
    ensures { result ≡ bytes_eq (kinds.name_of kind) name.now }
{
    kind.text().as_bytes() == name
}

#[tactic(auto, unfolding(crate::specs::standard::Kinds::look_up))]
fn find(rows: &[Kind], name: &[u8]) -> Kind
    ensures { result ≡ kinds.look_up (kinds.rows_of rows.now) name.now }
{
    let mut rest = rows;
    while let [kind, others @ ..] = rest {
        if has_name(*kind, name) {
            return *kind;
        }
        rest = others;
    }
    Kind::Utility
}

/// What the name means (XCU 2.9.1.4, 2.15).
#[tactic(auto, using(crate::proofs::KindLemmas::by_length))]
pub fn kind_of(name: &[u8]) -> Kind
    ensures { result ≡ kinds.kind_of name.now }
{
    find(of_length(name.len()), name)
}
