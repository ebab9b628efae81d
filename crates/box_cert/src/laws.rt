//! The laws of reading and writing. A call does nothing; what it ensures is the law.

ghost use Rattle.std.specs.Prelude.{◌≡◌, ◌≤◌, ℕ, List, Ok, flat_map};
ghost use Rattle.box_core.specs.declared.cert.Cert.{Cert};
ghost use Rattle.box_cert.specs.Feeding.{FeedState, FeedsAll, HasRead, IsFresh};
ghost use Rattle.box_cert.specs.Spelling.{Content, cert_text, content};
ghost use Rattle.box_cert.specs.Text.{HaveDyes, IsCertFor, cert_of, dyes_of};

/// The text of a certificate is read as that certificate, and no other text is.
pub fn one_spelling()
    ensures again { (dims : ℕ) (c : Content) → 1 ≤ dims → IsCertFor dims c →
        cert_of dims (cert_text c) ≡ Ok c }
    ensures takes { (dims : ℕ) (text : List ℕ) (c : Content) →
        cert_of dims text ≡ Ok c → text ≡ cert_text c }
{}

/// Each value of type `Cert` has numbers in their ranges and recipes of one number of dyes, and its
/// text is read as that value.
pub fn each_is_read()
    ensures dyes { (cert : Cert) → HaveDyes (dyes_of (content cert)) (content cert) }
    ensures fits { (cert : Cert) (dims : ℕ) → HaveDyes dims (content cert) →
        IsCertFor dims (content cert) }
    ensures read { (cert : Cert) (dims : ℕ) → HaveDyes dims (content cert) →
        cert_of dims (cert_text (content cert)) ≡ Ok (content cert) }
{}

/// However a text is cut into pieces, a feed of them gives what the whole text gives.
pub fn any_cut()
    ensures { (dims : ℕ) (pieces : List (List ℕ)) (start end : FeedState) → IsFresh dims start →
        FeedsAll pieces start end → HasRead dims (flat_map (λ piece. piece) pieces) end }
{}
