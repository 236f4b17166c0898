ghost use Rattle.std.specs.Prelude.{◌≡◌, OnOk, OnErr, option_and_then};
ghost use Rattle.std.specs.FinMap as map;
ghost use Rattle.std.specs.Option.{option_copied};
ghost use Rattle.access_lists.specs.Tokens.Bearer.{bearer_token, caller_of};

use crate::Caller;
use crate::tokens::header::bearer_token;
use containers::text_maps::ByteMap;
use std::alloc::{AllocError, Global};
use std::marker::Model;

/// The tokens that are known, each with the caller who shows it.
#[derive(Drop)]
pub struct TokenTable {
    callers: ByteMap<Caller>,
    anonymous: Caller,
}

impl Model for TokenTable {
    ghost use Rattle.std.specs.Prelude.{◌≡◌, ℕ, List};
    ghost use Rattle.std.specs.FinMap as map;
    ghost use Rattle.std.specs.Coded.{coded_list, coded_ℕ};
    ghost use Rattle.containers.specs.TextMaps.Keyed.{text_order};
    ghost use Rattle.access_lists.specs.contracts.people.Caller as caller;
    ghost use Rattle.access_lists.specs.declared.people.Caller.{Caller};
    ghost use Rattle.access_lists.specs.InForce.{anonymous_caller};

    ghost Value = { map.FinMap text_order Caller };

    ghost coded = { map.code (coded_list coded_ℕ) caller.the_row.coded };

    ghost view = { λ a. a.callers };

    ghost invariant = { λ a. a.anonymous ≡ anonymous_caller };
}

impl TokenTable {
    /// No token. It takes no memory.
    pub fn new(alloc: Global) -> TokenTable
        ensures { result ≡ map.empty }
    {
        TokenTable {
            callers: ByteMap::new(alloc),
            anonymous: Caller::anonymous(alloc),
        }
    }

    /// Gives a token to a caller, in place of any who had it. An error leaves the tokens as they were.
    pub fn put(&mut self, token: &[u8], caller: Caller) -> Result<(), AllocError>
        ensures ok { OnOk result (self.new ≡ map.insert self.old token.now caller) }
        ensures err { OnErr result (self.new ≡ self.old) }
    {
        self.callers.put_copy(token, caller)
    }

    /// The caller whose token it is. Takes no memory.
    pub fn caller(&self, token: &[u8]) -> Option<&Caller>
        ensures { option_copied result ≡ map.get self.now token.now }
    {
        self.callers.get(token)
    }

    /// Who sends a request with this value of its first Authorization header. Without the header it is a caller without
    /// user and groups. None where the value shows no token by the scheme Bearer, or one that isn't known: the request is
    /// answered 401 then. The value has no blanks at its ends. Takes no memory.
    pub fn identify(&self, authorization: Option<&[u8]>) -> Option<&Caller>
        ensures { option_copied result ≡ caller_of self.now (option_copied authorization.entry) }
    {
        match authorization {
            Some(value) => self.shown(value),
            None => Some(&self.anonymous),
        }
    }

    // The caller whose token a header's value shows.
    fn shown(&self, value: &[u8]) -> Option<&Caller>
        ensures { option_copied result ≡ option_and_then (map.get self.now) (bearer_token value.now) }
    {
        let token = bearer_token(value)?;
        self.caller(token)
    }
}
