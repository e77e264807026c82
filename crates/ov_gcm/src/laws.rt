// Laws of the definitions that the contracts cite. Each is a function that does nothing.

ghost use Rattle.std.specs.Prelude.{◌≡◌, ℕ, List, length};
ghost use Rattle.ov_aes.specs.Aes.{IsKeyLength};
ghost use Rattle.ov_gcm.specs.Gcm.{seal_text, seal_tag, Opens, plain};

/// What was sealed opens with the same key, nonce and associated data, and gives the text back.
pub fn sealed_opens()
    ensures opens { (key nonce ad text : List ℕ) →
        Opens key nonce ad (seal_text key nonce ad text) (seal_tag key nonce ad text) }
    ensures text { (key nonce ad text : List ℕ) → IsKeyLength (length key) →
        plain key nonce (seal_text key nonce ad text) ≡ text }
{}
