//! Who is known, and which routes there are.

ghost use Rattle.std.specs.Prelude.{◌≡◌, IfOk, OnOk, OnErr};
ghost use Rattle.std.specs.FinMap as map;
ghost use Rattle.std.specs.Option.{option_copied};
ghost use Rattle.access_lists.specs.Tokens.Bearer.{caller_of};
ghost use Rattle.rest_requests.specs.Routes.Found.{route_for};

use crate::routes::{Route, RouteTable};
use access_lists::Caller;
use std::alloc::{AllocError, Global};
use std::marker::Model;

/// The tokens that are known, each with the caller who shows it, and the table of routes.
#[derive(Drop)]
pub struct Tokens {
    table: access_lists::tokens::TokenTable,
    routes: RouteTable,
}

impl Model for Tokens {
    ghost use Rattle.std.specs.Prelude.{ℕ, List};
    ghost use Rattle.std.specs.FinMap as map;
    ghost use Rattle.std.specs.Coded.{coded_list, coded_ℕ};
    ghost use Rattle.containers.specs.TextMaps.Keyed.{text_order};
    ghost use Rattle.access_lists.specs.contracts.people.Caller as caller;
    ghost use Rattle.access_lists.specs.declared.people.Caller.{Caller};

    ghost Value = { map.FinMap text_order Caller };

    ghost coded = { map.code (coded_list coded_ℕ) caller.the_row.coded };

    ghost view = { λ a. a.table };
}

impl Tokens {
    /// No token. It makes the table of routes.
    pub fn new(alloc: Global) -> Result<Tokens, AllocError>
        ensures { IfOk result (λ tokens. tokens ≡ map.empty) }
    {
        Ok(Tokens {
            table: access_lists::tokens::TokenTable::new(alloc),
            routes: RouteTable::new(alloc)?,
        })
    }

    /// The tokens of a table. It makes the table of routes.
    pub fn of_table(
        alloc: Global,
        table: access_lists::tokens::TokenTable,
    ) -> Result<Tokens, AllocError>
        ensures { IfOk result (λ tokens. tokens ≡ table) }
    {
        let routes = RouteTable::new(alloc)?;
        Ok(Tokens { table, routes })
    }

    /// Gives a token to a caller, in place of any who had it. An error leaves the tokens as they were.
    pub fn put(&mut self, token: &[u8], caller: Caller) -> Result<(), AllocError>
        ensures ok { OnOk result (self.new ≡ map.insert self.old token.now caller) }
        ensures err { OnErr result (self.new ≡ self.old) }
    {
        self.table.put(token, caller)
    }

    /// The caller whose token it is. Takes no memory.
    pub fn caller(&self, token: &[u8]) -> Option<&Caller>
        ensures { option_copied result ≡ map.get self.now token.now }
    {
        self.table.caller(token)
    }

    // Who sends a request with this value of its Authorization header.
    pub(crate) fn identify(&self, authorization: Option<&[u8]>) -> Option<&Caller>
        ensures { option_copied result ≡ caller_of self.now (option_copied authorization.entry) }
    {
        self.table.identify(authorization)
    }

    // What a path names.
    pub(crate) fn route(&self, path: &str) -> Option<Route>
        ensures { result ≡ route_for path.now }
    {
        self.routes.find(path)
    }
}
