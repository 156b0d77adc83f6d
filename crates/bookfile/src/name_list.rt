// The names of the instances that a file has, over its bytes: name n is that of the instance n.
mod methods;

use bookcheck::NameTable;

#[derive(Clone, Copy)]
pub struct Names<'a> {
    names: NameTable<'a>,
}
