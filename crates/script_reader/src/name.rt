//! The command words.
ghost use Rattle.std.specs.Prelude.{◌≡◌};
ghost use Rattle.script_reader.specs.Grammar.{name_of, is_operator};

/// The command words of a script.
#[derive(Clone, Copy, Debug, PartialEq, Eq)]
pub enum Name {
    Mvfs,
    Kvfs,
    Mev,
    Kev,
    Mef,
    Kef,
    Kemr,
    Mekr,
    Kfmrh,
    Mfkrh,
    Ringmv,
    Lamina,
    Block,
    Sweep,
    Glue,
    Split,
    Plane,
    Volume,
    Count,
    Undo,
    Redo,
    List,
}

/// Whether an operator has the name.
pub fn is_operator(name: Name) -> bool
    ensures { result ≡ is_operator name }
{
    match name {
        Name::Lamina | Name::Block | Name::Sweep | Name::Glue | Name::Split => false,
        Name::Plane | Name::Volume | Name::Count => false,
        Name::Undo | Name::Redo | Name::List => false,
        _ => true,
    }
}

/// The name with this spelling. It is recognised by its letters, which costs less than comparing words.
#[inline(always)]
pub fn name_of(word: &[u8]) -> Option<Name>
    ensures { result ≡ name_of word.now }
{
    match word {
        [b'm', b'v', b'f', b's'] => Some(Name::Mvfs),
        [b'k', b'v', b'f', b's'] => Some(Name::Kvfs),
        [b'm', b'e', b'v'] => Some(Name::Mev),
        [b'k', b'e', b'v'] => Some(Name::Kev),
        [b'm', b'e', b'f'] => Some(Name::Mef),
        [b'k', b'e', b'f'] => Some(Name::Kef),
        [b'k', b'e', b'm', b'r'] => Some(Name::Kemr),
        [b'm', b'e', b'k', b'r'] => Some(Name::Mekr),
        [b'k', b'f', b'm', b'r', b'h'] => Some(Name::Kfmrh),
        [b'm', b'f', b'k', b'r', b'h'] => Some(Name::Mfkrh),
        [b'r', b'i', b'n', b'g', b'm', b'v'] => Some(Name::Ringmv),
        [b'l', b'a', b'm', b'i', b'n', b'a'] => Some(Name::Lamina),
        [b'b', b'l', b'o', b'c', b'k'] => Some(Name::Block),
        [b's', b'w', b'e', b'e', b'p'] => Some(Name::Sweep),
        [b'g', b'l', b'u', b'e'] => Some(Name::Glue),
        [b's', b'p', b'l', b'i', b't'] => Some(Name::Split),
        [b'p', b'l', b'a', b'n', b'e'] => Some(Name::Plane),
        [b'v', b'o', b'l', b'u', b'm', b'e'] => Some(Name::Volume),
        [b'c', b'o', b'u', b'n', b't'] => Some(Name::Count),
        [b'u', b'n', b'd', b'o'] => Some(Name::Undo),
        [b'r', b'e', b'd', b'o'] => Some(Name::Redo),
        [b'l', b'i', b's', b't'] => Some(Name::List),
        _ => None,
    }
}
