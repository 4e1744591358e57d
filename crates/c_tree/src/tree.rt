use crate::declaration::Declaration;
use crate::declarator::Declarator;
use crate::specifier::SpecWord;
use crate::statement::Statement;
use sqlite_items::Items;
use sv_base::FileId;

/// The syntax tree of a file (ISO/IEC 9899:1999, 6.9).
pub struct Tree {
    /// The number of the file's own name.
    pub file: FileId,
    /// The distinct names of the file in the order in which they are first seen, each as its bytes.
    pub names: Items<Items<u8>>,
    pub items: Items<Item>,
}

impl Drop for Tree {
    fn drop(self) {
        let Tree {
            file: _,
            names,
            items,
        } = self;
        let _ = names;
        let _ = items;
    }
}

/// An external declaration (6.9). A lone `;` is none.
#[derive(Drop)]
pub enum Item {
    /// A function definition (6.9.1). The body is a compound statement.
    Function {
        head: Items<SpecWord>,
        declarator: Declarator,
        body: Statement,
    },
    Declaration(Declaration),
}
