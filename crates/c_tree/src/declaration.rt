use crate::declarator::Declarator;
use crate::initialiser::Initialiser;
use crate::specifier::SpecWord;
use sqlite_items::Items;

/// A declaration (ISO/IEC 9899:1999, 6.7).
#[derive(Drop)]
pub struct Declaration {
    pub head: Items<SpecWord>,
    pub parts: Items<InitDeclarator>,
}

/// A declarator with its initialiser (6.7).
#[derive(Drop)]
pub struct InitDeclarator {
    pub declarator: Declarator,
    pub initial: Option<Initialiser>,
}
