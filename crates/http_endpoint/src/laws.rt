//! What the definitions of messages mean: bytes are read in one way. A law is the contract of a function with an empty
//! body.
ghost use Rattle.std.specs.Prelude.{◌≡◌, ℕ, ◌⊎◌, List, Result};
ghost use Rattle.httparse.specs.Grammar.{EndsInTarget};
ghost use Rattle.http_endpoint.specs.declared.error.HttpError.{HttpError};
ghost use Rattle.http_endpoint.specs.declared.media.Media.{Media};
ghost use Rattle.http_endpoint.specs.declared.response.Response.{Response};
ghost use Rattle.http_endpoint.specs.Messages.{IsRequestAs, IsResponse};
ghost use Rattle.http_endpoint.specs.OneMessage.{IsSame};

/// The bytes of a request have one answer, and one text is written meanwhile, but where they end inside the target:
/// there it is open whether the head is bad or cut short. So how a connection cuts the bytes changes nothing.
pub fn a_request_has_one_answer()
    ensures { (media : Media) (r q : Result (List ℕ) HttpError) (s t all : List ℕ)
        → IsRequestAs media r s all → IsRequestAs media q t all → IsSame r q s t ⊎ EndsInTarget all }
{}

/// The bytes of a response have one answer.
pub fn a_response_has_one_answer()
    ensures { (r q : Result Response HttpError) (all : List ℕ) → IsResponse r all → IsResponse q all → r ≡ q }
{}
