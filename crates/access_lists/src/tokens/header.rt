ghost use Rattle.std.specs.Prelude.{◌≡◌, ◌↔◌, ℕ, List};
ghost use Rattle.std.specs.Option.{option_copied};
ghost use Rattle.access_lists.specs.Tokens.Bearer.{ShowsToken, after_spaces, bearer_token, if_any, is_bearer, without_spaces};

/// How many bytes the word `Bearer` has.
const SCHEME_LEN: usize = 6;

/// The token that the value of an Authorization header shows by the scheme of RFC 6750: `Bearer` in any case, one space
/// or more, and then the token, which is all the rest and not empty. The value has no blanks at its ends. Takes no
/// memory.
pub fn bearer_token(value: &[u8]) -> Option<&[u8]>
    ensures token { option_copied result ≡ bearer_token value.now }

    // The same by the parts of the value.
    ensures parts { (token : List ℕ) → (option_copied result ≡ Some token) ↔ ShowsToken value.now token }
{
    read_token(value)
}

fn read_token(value: &[u8]) -> Option<&[u8]>
    ensures { option_copied result ≡ bearer_token value.now }
{
    if value.len() < SCHEME_LEN {
        return None;
    }
    let (scheme, rest) = value.split_at(SCHEME_LEN);
    if is_bearer(scheme) {
        after_spaces(rest)
    } else {
        None
    }
}

fn is_bearer(scheme: &[u8]) -> bool
    ensures { result ≡ is_bearer scheme.now }
{
    scheme.eq_ignore_ascii_case(b"Bearer")
}

fn after_spaces(bytes: &[u8]) -> Option<&[u8]>
    ensures { option_copied result ≡ after_spaces bytes.now }
{
    match bytes {
        [b' ', rest @ ..] => if_any(without_spaces(rest)),
        _ => None,
    }
}

fn without_spaces(bytes: &[u8]) -> &[u8]
    ensures { result.now ≡ without_spaces bytes.now }
{
    let mut left = bytes;
    while let [b' ', rest @ ..] = left {
        left = rest;
    }
    left
}

fn if_any(bytes: &[u8]) -> Option<&[u8]>
    ensures { option_copied result ≡ if_any bytes.now }
{
    match bytes {
        [] => None,
        _ => Some(bytes),
    }
}
