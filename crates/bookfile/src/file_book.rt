// The book that a file holds, over its bytes.
mod methods;

use bookcheck::RuleTable;

#[derive(Clone, Copy)]
pub struct FileBook<'a> {
    rules: RuleTable<'a>,
}
