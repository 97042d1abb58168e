use crate::front_list::FrontList;
use rust_ast::Ident;

/// The lifetimes and type parameters of a function.
#[derive(Drop)]
pub struct Generics {
    pub lifetimes: FrontList<Ident>,
    pub type_params: FrontList<Ident>,
}
