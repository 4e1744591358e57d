use sv_base::Colour;

/// What the colour of a site promises.
pub(crate) fn promise(colour: Colour) -> &'static str {
    match colour {
        Colour::Green => "green: in every run, each access here lies inside its array",
        Colour::Unreachable => "unreachable: no run reaches this access",
        Colour::Red => "red: no run goes on past this access, so a run that reaches it ends here",
        Colour::Orange => "orange: not decided, this access may leave its array",
    }
}

/// The letter that stands beside the colour of a site.
pub(crate) fn letter(colour: Colour) -> &'static [u8] {
    match colour {
        Colour::Green => b"G",
        Colour::Unreachable => b"U",
        Colour::Red => b"R",
        Colour::Orange => b"O",
    }
}
