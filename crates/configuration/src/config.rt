use access_lists::tokens::TokenTable;
use domains::Catalogue;

/// Who may show which token, and which folders and domains there are.
#[derive(Drop)]
pub struct Config {
    pub tokens: TokenTable,
    pub catalogue: Catalogue,
}
