//! Specifiers, declarators, the content of structures, unions and enumerations, and type names (ISO/IEC 9899:1999, 6.7),
//! over functions that check what stands inside them one level deeper.
#![tactic(auto)]

mod constants;
mod declarators;
mod forming;
mod inside;
mod least;
mod parameters;
mod records;
mod specifier_words;
mod specifiers;
mod spots;
mod tags;

pub use constants::is_constant_form;
pub use declarators::Declared;
pub use forming::PartValue;
pub use inside::Declarators;
pub use least::Least;
pub use parameters::{ParamName, Params};
pub use specifier_words::{Specifiers, Storage};
pub use spots::{
    Direct, declarator_spot, direct_part, head_spot, initialiser_spot, name_in, part_spot, spot_of,
    word_spot,
};
