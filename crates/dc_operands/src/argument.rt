//! Arguments as the rules see them.

use dc_sorts::Form;

/// An argument or a subscript: whether `kind =` stands in front of it, its form, whether it is a
/// name alone, whether it is a variable or an element of one, and whether that may not be defined
/// where it stands.
#[derive(Clone, Copy, Debug, PartialEq, Eq)]
pub struct Argument {
    pub keyed: bool,
    pub form: Form,
    pub is_name: bool,
    pub is_variable: bool,
    pub is_fixed: bool,
}
